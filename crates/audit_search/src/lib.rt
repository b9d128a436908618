// Whether the ledgers of all houses agree: nothing is done without a ruling, and nothing that was ruled is missing at a house of it.
#![tactic(auto)]

ghost use Rattle.std.specs.Prelude.{map, vec_items};
ghost use Rattle.audit_search.specs.Audited.{Answered, ReadOnce};
ghost use Rattle.audit_search.specs.Sound.{SoundExactly, FaultsThere};

pub use faults::Fault;
use orders::range::houses_ok;
use orders::{Entry, Refusal};
use search::check_files;
use std::alloc::Global;

mod faults;
mod house;
mod houses;
mod search;

// Audits the files of all houses, that of house 0 first, and answers the shelves that are not 0, by rising key, if all is sound;
// the other clauses say what the answers mean.
pub fn audit(heap: Global, files: &[Vec<u8>]) -> Result<Vec<Entry>, Fault>
    ensures answer { Answered (map vec_items files.now) result }
    ensures once { ReadOnce }
    ensures sound { SoundExactly }
    ensures faults { FaultsThere }
{
    examine(heap, files)
}

// Opens the files, and searches them for a done without a ruling, then for a ruling that is missing somewhere.
#[tactic(auto, using(crate::proofs::Found::shut))]
fn examine(heap: Global, files: &[Vec<u8>]) -> Result<Vec<Entry>, Fault>
    ensures { Answered (map vec_items files.now) result }
{
    let count = match u8::try_from(files.len()) {
        Ok(count) if houses_ok(count) => count,
        _ => return Err(Fault::Refused(Refusal::OutOfRange, 0)),
    };
    let houses = houses::Houses::open(heap, count, files)?;
    check_files(
        count,
        files,
        |house, record, _| houses.check_done(house, record),
    )?;
    check_files(
        count,
        files,
        |_, record, order| houses.check_ruling(record, order),
    )?;
    Ok(houses.stocked(heap)?)
}
