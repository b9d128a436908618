// Opening a ledger and answering a hold, under names for C, for the measurement of speed.
#![tactic(auto)]

ghost use Rattle.std.specs.Prelude.{◌≡◌, Ok};
ghost use Rattle.protocol.specs.Plan.{plan_hold};
ghost use Rattle.orders.specs.Order.{entry_model};
ghost use Rattle.orders.specs.Parse.{message as message_in};
ghost use Rattle.entries.specs.Named.{named_of};
ghost use Rattle.ledger.specs.View.{view};
ghost use Rattle.measure.specs.Measured.{refusal as refusal_of, Summed, number_in, renumbered as renumbered_of, answers, answers_of, Answered};

use entries::named::NamedOrder;
use ledger::admit::*;
use ledger::getters::*;
use ledger::opening::*;
use ledger::{Ledger, Trouble};
use orders::Message;
use orders::read::read_message;
use protocol::Name;
use std::alloc::Global;

// What a ledger says of itself, or the number by which its file is refused, 255 for want of memory.
// Not a Result: it is read in C.
#[repr(C)]
#[derive(Clone, Copy)]
pub struct Summary {
    pub refused: u8,
    pub start: u32,
    pub held: usize,
    pub bytes: usize,
}

fn refusal(number: u8) -> Summary
    ensures { result ≡ refusal_of number }
{
    Summary {
        refused: number,
        start: 0,
        held: 0,
        bytes: 0,
    }
}

// Opens the bytes of a file, with its shelves in the lent words.
#[unsafe(no_mangle)]
pub extern "C" fn ledger_open(
    heap: Global,
    houses: u8,
    house: u8,
    bytes: &[u8],
    shelves: &mut [u32],
) -> Summary
    ensures { Summed houses house bytes.now shelves.old shelves.new result }
{
    match Ledger::open(heap, houses, house, bytes, shelves) {
        Ok(ledger) => Summary {
            refused: 0,
            start: ledger.start(),
            held: ledger.held().len(),
            bytes: ledger.bytes(),
        },
        Err(Trouble::Refused(why)) => refusal(why.into()),
        Err(Trouble::NoMemory) => refusal(255),
    }
}

// The order under another number.
fn renumbered(order: &NamedOrder, number: u32) -> NamedOrder
    ensures { named_of result ≡ renumbered_of (named_of order.now) number }
{
    NamedOrder {
        name: Name {
            number,
            ..order.name
        },
        ..*order
    }
}

// The number of the answer to a hold, 0 for a yes.
fn answer_number(ledger: &Ledger, shelves: &[u32], order: &NamedOrder) -> u8
    ensures { result ≡ number_in (plan_hold entry_model ledger.now.house (named_of order.now) (view ledger.now shelves.now)) }
{
    match ledger.may_hold(shelves, order) {
        Ok(_) => 0,
        Err(why) => why.into(),
    }
}

// The numbers of the answers to holds of the order under each number below `times`, added up.
fn answer_numbers(ledger: &Ledger, shelves: &[u32], order: &NamedOrder, times: u32) -> u64
    ensures { result ≡ answers ledger.now.house (named_of order.now) (view ledger.now shelves.now) times }
{
    let mut sum = 0u64;
    for number in 0..times {
        let refused = answer_number(ledger, shelves, &renumbered(order, number));
        sum = sum.wrapping_add(u64::from(refused));
    }
    sum
}

// The same for the order of the hold that the message is.
fn message_answers(houses: u8, ledger: &Ledger, shelves: &[u32], message: &[u8], times: u32) -> u64
    ensures { result ≡ answers_of (message_in houses message.now) (Ok ledger.now) shelves.now times }
{
    let Ok((Message::Hold(name), order)) = read_message(houses, message) else {
        return u64::MAX;
    };
    answer_numbers(ledger, shelves, &NamedOrder { name, order }, times)
}

// Opens the bytes of a file, and answers the hold that the message is under each number below `times`.
#[unsafe(no_mangle)]
pub extern "C" fn ledger_holds(
    heap: Global,
    houses: u8,
    house: u8,
    bytes: &[u8],
    shelves: &mut [u32],
    message: &[u8],
    times: u32,
) -> u64
    ensures { Answered houses house bytes.now shelves.old shelves.new message.now times result }
{
    let Ok(ledger) = Ledger::open(heap, houses, house, bytes, shelves) else {
        return u64::MAX;
    };
    message_answers(houses, &ledger, shelves, message, times)
}
