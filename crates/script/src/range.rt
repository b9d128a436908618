// The limits of a line's numbers, where there are so many houses.
ghost use Rattle.std.specs.Prelude.{◌≡◌, ◌&&◌, if◌then◌else◌, Some, None, nat_lt};
ghost use Rattle.protocol.specs.Model.{name_ok};
ghost use Rattle.script.specs.Answers.{named};
ghost use Rattle.script.specs.Meaning.{meaning};
ghost use Rattle.script.specs.Range.{in_range};

use crate::{Line, NameWords};
use orders::range::{houses_ok, name_ok, order_ok};
use protocol::Name;

impl NameWords {
    // The name that is written, if it may be one. Not a TryFrom: it takes how many houses there are.
    pub fn within(self, houses: u8) -> Option<Name>
        ensures { result ≡ (if name_ok houses (named self) then Some (named self) else None) }
    {
        let name = Name {
            home: u8::try_from(self.home).ok()?,
            start: self.start,
            number: self.number,
        };
        name_ok(houses, name).then_some(name)
    }
}

fn placed_ok(houses: u8, house: u32, name: NameWords) -> bool
    ensures { result ≡ (nat_lt house houses && name_ok houses (named name)) }
{
    house < u32::from(houses) && name.within(houses).is_some()
}

impl Line {
    pub fn in_range(&self, houses: u8) -> bool
        ensures { result ≡ in_range houses (meaning self.now) }
    {
        if !houses_ok(houses) {
            return false;
        }
        match self {
            Line::Submit(house, name, order) => {
                *house < u32::from(houses)
                    && name
                        .within(houses)
                        .is_some_and(|name| order_ok(houses, name, order))
            }
            Line::Hold(house, name)
            | Line::Rule(house, name)
            | Line::GiveUp(house, name)
            | Line::Answer(house, name)
            | Line::Learn(house, _, name) => placed_ok(houses, *house, *name),
            Line::Vote(house, voter, name) => {
                *house < u32::from(houses) && placed_ok(houses, *voter, *name)
            }
            Line::Sync(house) | Line::Stop(house, _) => *house < u32::from(houses),
            Line::Skip | Line::Houses(_) | Line::Show => true,
        }
    }
}
