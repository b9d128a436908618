// Every message that was ever sent, kept so that a look-up never scans.
#![tactic(auto)]

ghost use Rattle.std.specs.Prelude.{◌≡◌, false, ◌&&◌, ◌||◌, [], is_ok, if◌then◌else◌};
ghost use Rattle.std.specs.Option.{option_map};
ghost use Rattle.protocol.specs.Net.{Yes, Told};
ghost use Rattle.protocol.specs.Run.{same_msg};
ghost use Rattle.orders.specs.Order.{entry_model, Msg};
ghost use Rattle.orders.specs.Values.{msg_of};
ghost use Rattle.entries.specs.Named.{named_of};

use entries::named::NamedOrder;
use holds::Holds;
use names::NameIndex;
use orders::{Message, Order};
use protocol::Name;
use std::alloc::{AllocError, Global};
use yeses::Yeses;

mod holds;
mod places;
mod yeses;

// The messages sent.
#[derive(Drop)]
pub struct Post {
    holds: Holds,
    yeses: Yeses,
    // the orders of which it was told that they are done, and that they are not
    told_yes: NameIndex,
    told_no: NameIndex,
}

impl Post {
    ghost use Rattle.post.specs.Holds.{hold_named};
    ghost use Rattle.post.specs.Posted.{posted, holds_of, with_hold};

    // Nothing was sent.
    pub fn new(heap: Global) -> Post
        ensures posted { (m : Msg) → posted result m ≡ false }
        ensures holds { holds_of result ≡ [] }
    {
        Post {
            holds: Holds::new(heap),
            yeses: Yeses::new(heap),
            told_yes: NameIndex::new(heap),
            told_no: NameIndex::new(heap),
        }
    }

    // The message is sent. For want of memory all stays as it was.
    pub fn note(&mut self, message: Message, order: &Order) -> Result<(), AllocError>
        ensures sent { (m : Msg) → posted self.new m ≡ (is_ok result && same_msg entry_model m (msg_of message order.now) || posted self.old m) }
        ensures holds { holds_of self.new ≡ (if is_ok result then with_hold (msg_of message order.now) (holds_of self.old) else holds_of self.old) }
    {
        match message {
            Message::Hold(name) => self.holds.push(NamedOrder {
                name,
                order: *order,
            }),
            Message::Yes(house, name) => self.yeses.insert(house, name),
            Message::Told(true, name) => self.told_yes.insert(name),
            Message::Told(false, name) => self.told_no.insert(name),
        }
    }

    // The order of the first hold message of that name.
    pub fn find_hold(&self, name: Name) -> Option<NamedOrder>
        ensures { option_map named_of result ≡ hold_named name (holds_of self.now) }
    {
        self.holds.find(name)
    }

    // Whether the house said yes to the name.
    pub fn has_yes(&self, house: u8, name: Name) -> bool
        ensures { result ≡ posted self.now (Yes house name) }
    {
        self.yeses.contains(house, name)
    }

    // Whether it was told that the order is done, or that it is not.
    pub fn has_told(&self, done: bool, name: Name) -> bool
        ensures { result ≡ posted self.now (Told name done) }
    {
        if done {
            self.told_yes.contains(name)
        } else {
            self.told_no.contains(name)
        }
    }
}

#[cfg(test)]
mod tests {
    use super::Post;
    use orders::{Message, NO_ENTRIES};
    use protocol::Name;
    use std::alloc::AllocError;

    #[test]
    fn each_kind_is_found(rt: HostRuntime) -> Result<(), AllocError> {
        let name = Name {
            home: 1,
            start: 1,
            number: 7,
        };
        let mut post = Post::new(rt.alloc());
        post.note(Message::Hold(name), &NO_ENTRIES)?;
        post.note(Message::Yes(2, name), &NO_ENTRIES)?;
        post.note(Message::Told(false, name), &NO_ENTRIES)?;
        assert!(rt; post.find_hold(name).is_some());
        assert!(rt; post.has_yes(2, name));
        assert!(rt; !post.has_yes(1, name));
        assert!(rt; post.has_told(false, name));
        assert!(rt; !post.has_told(true, name));
        Ok(())
    }
}
