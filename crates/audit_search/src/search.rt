// The search of all files for the first fault. No records are stored: they are read again from the bytes.
ghost use Rattle.std.specs.Prelude.{◌≡◌, ℕ, List, Option, map, length, vec_items};
ghost use Rattle.orders.specs.Order.{Rec};
ghost use Rattle.orders.specs.File.{records};
ghost use Rattle.audit_search.specs.declared.faults.Fault.{Fault};
ghost use Rattle.audit_search.specs.Search.{checked, Checks, first_in, first_over};

use crate::faults::Fault;
use orders::records::Records;
use orders::{Order, Record};

// The first fault that a record of the house's file shows.
#[tactic(auto, unfolding(crate::specs::Search::first_in))]
fn check_file<F: Fn(u8, Record, &Order) -> Result<(), Fault>>(
    count: u8,
    house: u8,
    bytes: &[u8],
    check: &F,
) -> Result<(), Fault>
    requires { F.IsAlwaysCallable check.now }
    ensures { (f : ℕ → Rec → Option Fault) → Checks (F.post check.now) f → result ≡ checked (first_in (f house) (records count bytes.now)) }
{
    for (record, order) in Records::new(count, bytes) {
        check(house, record, &order)?;
    }
    Ok(())
}

// The first fault that a record of any file shows, that of house 0 first. The count is the files' own, as the u8 that it was found to be.
#[tactic(auto, unfolding(crate::specs::Search::first_over))]
pub(crate) fn check_files<F: Fn(u8, Record, &Order) -> Result<(), Fault>>(
    count: u8,
    files: &[Vec<u8>],
    check: F,
) -> Result<(), Fault>
    requires all { count ≡ length files.now }
    requires callable { F.IsAlwaysCallable check }
    ensures { (f : ℕ → Rec → Option Fault) → Checks (F.post check) f → result ≡ checked (first_over f 0 (map (records count) (map vec_items files.now))) }
{
    for (house, file) in files.iter().enumerate() {
        check_file(count, house as u8, file.as_slice(), &check)?;
    }
    Ok(())
}
