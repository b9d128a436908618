// Bytes that are read from their front: each reader takes what it reads off them.
ghost use Rattle.std.specs.Prelude.{◌≡◌, ◌≤◌, [], length, IfOk};
ghost use Rattle.orders.specs.Parse.{byte as byte_in, number as number_in, count as count_in, flag as flag_in, name as name_in, entry as entry_in, entries as entries_in, order as order_in, form, mform, got};
ghost use Rattle.orders.specs.Answers.{left, read, same};
ghost use Rattle.orders.specs.Values.{order_of, rec_of, msg_of};

use crate::kind::Kind;
use crate::read::ReadError;
use crate::{Entry, MAX_ENTRIES, Message, Order, Record, Refusal};
use protocol::Name;

fn entry_of(bytes: &[u8; 8]) -> Entry
    ensures { entry_in bytes.now ≡ got result [] }
{
    let [k3, k2, k1, k0, a3, a2, a1, a0] = *bytes;
    Entry {
        key: u32::from_be_bytes([k3, k2, k1, k0]),
        amount: u32::from_be_bytes([a3, a2, a1, a0]),
    }
}

#[derive(Drop)]
pub struct Input<'a> {
    pub rest: &'a [u8],
}

impl<'a> Input<'a> {
    fn byte(&mut self) -> Result<u8, ReadError>
        ensures { read same result self.new ≡ byte_in (left self.old) }
    {
        let Some((first, rest)) = self.rest.split_first() else {
            return Err(ReadError::Cut);
        };
        self.rest = rest;
        Ok(*first)
    }

    fn number(&mut self) -> Result<u32, ReadError>
        ensures { read same result self.new ≡ number_in (left self.old) }
    {
        let Some((first, rest)) = self.rest.split_first_chunk::<4>() else {
            return Err(ReadError::Cut);
        };
        self.rest = rest;
        Ok(u32::from_be_bytes(*first))
    }

    #[tactic(auto, unfolding(crate::specs::Parse::flag))]
    fn flag(&mut self) -> Result<bool, ReadError>
        ensures { read same result self.new ≡ flag_in (left self.old) }
    {
        match self.byte()? {
            0 => Ok(false),
            1 => Ok(true),
            _ => Err(ReadError::Refused(Refusal::BadForm)),
        }
    }

    // How many entries follow: refused as soon as the byte is there, in bytes that are cut too.
    #[tactic(auto, unfolding(crate::specs::Parse::count))]
    fn count(&mut self) -> Result<usize, ReadError>
        ensures value { read same result self.new ≡ count_in (left self.old) }
        ensures few { IfOk result (λ k. k ≤ 16) }
    {
        let count = self.byte()? as usize;
        if count > MAX_ENTRIES {
            return Err(ReadError::Refused(Refusal::BadForm));
        }
        Ok(count)
    }

    #[tactic(auto, unfolding(crate::specs::Parse::name))]
    fn name(&mut self) -> Result<Name, ReadError>
        ensures { read same result self.new ≡ name_in (left self.old) }
    {
        let home = self.byte()?;
        let start = self.number()?;
        let number = self.number()?;
        Ok(Name {
            home,
            start,
            number,
        })
    }

    // As many entries as are lent.
    fn entries(&mut self, all: &mut [Entry]) -> Result<(), ReadError>
        ensures { read (λ _. all.new) result self.new ≡ entries_in (length all.old) (left self.old) }
    {
        let Some((front, rest)) = self.rest.split_at_checked(8 * all.len()) else {
            return Err(ReadError::Cut);
        };
        self.rest = rest;
        let (pieces, _) = front.as_chunks::<8>();
        // Not `iter_mut().zip(pieces)`: its contract doesn't say what the slice is once its entries are written.
        for (i, piece) in pieces.iter().enumerate() {
            all[i] = entry_of(piece);
        }
        Ok(())
    }

    // An order's name; its entries into the order that is lent.
    #[tactic(auto, unfolding(crate::specs::Parse::order, crate::specs::Parse::body))]
    fn order(&mut self, order: &mut Order) -> Result<Name, ReadError>
        ensures { read (λ name. order_of name order.new) result self.new ≡ order_in (left self.old) }
    {
        let name = self.name()?;
        let read_count = self.count()?;
        let write_count = self.count()?;
        // Beside the order and not in it: a field of a struct with an invariant is not lent as a slice.
        let mut reads = [Entry { key: 0, amount: 0 }; 16];
        let mut writes = reads;
        self.entries(&mut reads[..read_count])?;
        self.entries(&mut writes[..write_count])?;
        order.reads = reads;
        order.read_count = read_count;
        order.writes = writes;
        order.write_count = write_count;
        Ok(name)
    }

    // A record, whatever its numbers; its entries, if it has any, into the order that is lent.
    #[tactic(auto, using(crate::proofs::OtherKinds::no_record, crate::proofs::OtherKinds::message_kind), unfolding(crate::specs::Parse::kind, crate::specs::Parse::form))]
    pub fn record(&mut self, order: &mut Order) -> Result<Record, ReadError>
        ensures { read (λ r. rec_of r order.new) result self.new ≡ form (left self.old) }
    {
        match Kind::try_from(self.byte()?)? {
            Kind::Began => Ok(Record::Began),
            Kind::Held => Ok(Record::Held(self.order(order)?)),
            Kind::Done => Ok(Record::Done(self.name()?)),
            Kind::Dropped => Ok(Record::Dropped(self.name()?)),
            Kind::Ruled => Ok(Record::Ruled(self.order(order)?)),
            Kind::Hold | Kind::Yes | Kind::Told => Err(ReadError::Refused(Refusal::BadForm)),
        }
    }

    // A message, whatever its numbers; its entries, if it has any, into the order that is lent.
    #[tactic(auto, using(crate::proofs::OtherKinds::no_message, crate::proofs::OtherKinds::record_kind), unfolding(crate::specs::Parse::mkind, crate::specs::Parse::mform))]
    pub fn message(&mut self, order: &mut Order) -> Result<Message, ReadError>
        ensures { read (λ m. msg_of m order.new) result self.new ≡ mform (left self.old) }
    {
        match Kind::try_from(self.byte()?)? {
            Kind::Hold => Ok(Message::Hold(self.order(order)?)),
            Kind::Yes => {
                let house = self.byte()?;
                Ok(Message::Yes(house, self.name()?))
            }
            Kind::Told => {
                let done = self.flag()?;
                Ok(Message::Told(done, self.name()?))
            }
            Kind::Began | Kind::Held | Kind::Done | Kind::Dropped | Kind::Ruled => {
                Err(ReadError::Refused(Refusal::BadForm))
            }
        }
    }
}
