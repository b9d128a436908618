// The yes to a hold: the message is read from one lent slice while the reply is written into another.
ghost use Rattle.orders.specs.Parse.{message as message_in};
ghost use Rattle.orders.specs.Replies.{RepliesYes};

use crate::read::read_message;
use crate::write::write;
use crate::{Message, NO_ENTRIES, Refusal};

// Writes the house's yes to the hold in `message` into the front of `reply`, and answers how many bytes it has.
pub fn write_yes(houses: u8, house: u8, message: &[u8], reply: &mut [u8]) -> Result<usize, Refusal>
    ensures { RepliesYes house (message_in houses message.now) reply.old reply.new result }
{
    let (read, _) = read_message(houses, message)?;
    match read {
        Message::Hold(name) => write(reply, Message::Yes(house, name), &NO_ENTRIES),
        Message::Yes(_, _) | Message::Told(_, _) => Err(Refusal::BadForm),
    }
}
