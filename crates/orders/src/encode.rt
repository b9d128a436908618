// The bytes of records and messages: how many there are, and how they are put into a slice.
ghost use Rattle.std.specs.Prelude.{◌≡◌, ℕ, ◌+◌, ◌*◌, List, ◌∷◌, length};
ghost use Rattle.orders.specs.Values.{order_of, rec_of, msg_of};
ghost use Rattle.orders.specs.Encode.{name_bytes, entry_bytes, entries_bytes, order_bytes, rec_bytes, msg_bytes};

use crate::kind::Kind;
use crate::{Entry, Message, Order, Record};
use protocol::Name;

const NUMBER_LEN: usize = 4;

const NAME_LEN: usize = 1 + 2 * NUMBER_LEN;

const ENTRY_LEN: usize = 2 * NUMBER_LEN;

// A value that has bytes; the entries of its order stand beside it.
pub trait Encode: Copy {
    ghost use Rattle.orders.specs.declared.Order.{Order};

    ghost bytes: { Self → Order → List ℕ };

    // How many bytes it has.
    fn encoded_len(self, order: &Order) -> usize
        ensures { result ≡ length (bytes self order.now) };

    // Fills `out` with its bytes.
    fn put(self, out: &mut [u8], order: &Order)
        requires { length out.old ≡ length (bytes self order.now) }
        ensures { out.new ≡ bytes self order.now };
}

#[tactic(auto, using(crate::proofs::Lengths::length_name, crate::proofs::Lengths::length_slots, crate::proofs::Lengths::some_byte))]
impl Encode for Record {
    ghost bytes = { λ r order. rec_bytes (rec_of r order) };

    fn encoded_len(self, order: &Order) -> usize {
        match self {
            Record::Began => 1,
            Record::Done(_) | Record::Dropped(_) => 1 + NAME_LEN,
            Record::Held(_) | Record::Ruled(_) => 1 + order_len(order),
        }
    }

    fn put(self, out: &mut [u8], order: &Order) {
        let (head, rest) = out.split_at_mut(1);
        match self {
            Record::Began => head[0] = Kind::Began as u8,
            Record::Held(name) => {
                head[0] = Kind::Held as u8;
                put_order(rest, name, order);
            }
            Record::Done(name) => {
                head[0] = Kind::Done as u8;
                put_name(rest, name);
            }
            Record::Dropped(name) => {
                head[0] = Kind::Dropped as u8;
                put_name(rest, name);
            }
            Record::Ruled(name) => {
                head[0] = Kind::Ruled as u8;
                put_order(rest, name, order);
            }
        }
    }
}

#[tactic(auto, using(crate::proofs::Lengths::length_name, crate::proofs::Lengths::length_slots))]
impl Encode for Message {
    ghost bytes = { λ m order. msg_bytes (msg_of m order) };

    fn encoded_len(self, order: &Order) -> usize {
        match self {
            Message::Hold(_) => 1 + order_len(order),
            Message::Yes(_, _) | Message::Told(_, _) => 2 + NAME_LEN,
        }
    }

    fn put(self, out: &mut [u8], order: &Order) {
        let (head, rest) = out.split_at_mut(1);
        match self {
            Message::Hold(name) => {
                head[0] = Kind::Hold as u8;
                put_order(rest, name, order);
            }
            Message::Yes(house, name) => {
                head[0] = Kind::Yes as u8;
                put_byte_and_name(rest, house, name);
            }
            Message::Told(done, name) => {
                head[0] = Kind::Told as u8;
                put_byte_and_name(rest, u8::from(done), name);
            }
        }
    }
}

#[tactic(auto, unfolding(crate::specs::Encode::name_bytes))]
fn put_name(out: &mut [u8], name: Name)
    requires { length out.old ≡ NAME_LEN }
    ensures { out.new ≡ name_bytes name }
{
    let (home, numbers) = out.split_at_mut(1);
    let (start, number) = numbers.split_at_mut(NUMBER_LEN);
    home[0] = name.home;
    start.copy_from_slice(&name.start.to_be_bytes());
    number.copy_from_slice(&name.number.to_be_bytes());
}

fn put_byte_and_name(out: &mut [u8], byte: u8, name: Name)
    requires { length out.old ≡ 1 + NAME_LEN }
    ensures { out.new ≡ byte ∷ name_bytes name }
{
    let (head, rest) = out.split_at_mut(1);
    head[0] = byte;
    put_name(rest, name);
}

#[tactic(auto, unfolding(crate::specs::Encode::entry_bytes))]
fn put_entry(out: &mut [u8], entry: Entry)
    requires { length out.old ≡ ENTRY_LEN }
    ensures { out.new ≡ entry_bytes entry }
{
    let (key, amount) = out.split_at_mut(NUMBER_LEN);
    key.copy_from_slice(&entry.key.to_be_bytes());
    amount.copy_from_slice(&entry.amount.to_be_bytes());
}

// Not `chunks_exact_mut`: its contract doesn't say what the slice is once its chunks are written.
fn put_entries(out: &mut [u8], entries: &[Entry])
    requires { length out.old ≡ 8 * length entries.now }
    ensures { out.new ≡ entries_bytes entries.now }
{
    for (i, e) in entries.iter().enumerate() {
        let at = ENTRY_LEN * i;
        put_entry(&mut out[at..at + ENTRY_LEN], *e);
    }
}

// How many bytes an order with these entries has.
fn order_len(order: &Order) -> usize
    ensures { result ≡ 11 + 8 * (order.now.read_count + order.now.write_count) }
{
    NAME_LEN + 2 + ENTRY_LEN * (order.read_count + order.write_count)
}

#[tactic(auto, unfolding(crate::specs::Encode::order_bytes))]
fn put_order(out: &mut [u8], name: Name, order: &Order)
    requires { length out.old ≡ 11 + 8 * (order.now.read_count + order.now.write_count) }
    ensures { out.new ≡ order_bytes (order_of name order.now) }
{
    let (head, entries) = out.split_at_mut(NAME_LEN + 2);
    let (front, counts) = head.split_at_mut(NAME_LEN);
    let (reads, writes) = entries.split_at_mut(ENTRY_LEN * order.read_count);
    put_name(front, name);
    counts.copy_from_slice(&[order.read_count as u8, order.write_count as u8]);
    put_entries(reads, order.reads());
    put_entries(writes, order.writes());
}
