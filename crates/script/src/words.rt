// The words of a line, taken one after the other, and the numbers, names and orders that they write.
ghost use Rattle.std.specs.Prelude.{◌≡◌, ◌≤◌, IfSome, length};
ghost use Rattle.script.specs.Words.{words, decimal as numeral};
ghost use Rattle.script.specs.Parse.{word as word_of, number as number_of, name as name_of, entry as entry_of, counted, order as order_of, none, same};
ghost use Rattle.script.specs.Answers.{left, read, bytes_of, named, filled, ordered};

use crate::NameWords;
use orders::{Entry, MAX_ENTRIES, NO_ENTRIES, Order};

// The number that a word of decimal digits writes, if it fits 32 bits.
// Not `parse`: it takes a text, so that each word would be gone over once more, and a plus in front of the digits.
fn decimal(word: &[u8]) -> Option<u32>
    ensures { result ≡ numeral word.now }
{
    if word.is_empty() {
        return None;
    }
    let mut value: u32 = 0;
    for b in word {
        if !b.is_ascii_digit() {
            return None;
        }
        value = value.checked_mul(10)?.checked_add(u32::from(*b - b'0'))?;
    }
    Some(value)
}

// The words that are not yet taken.
#[derive(Clone, Copy)]
pub struct Words<'a> {
    rest: &'a [u8],
}

impl<'a> Words<'a> {
    pub fn new(line: &'a [u8]) -> Words<'a>
        ensures { left result ≡ words line.now }
    {
        Words { rest: line }
    }

    pub fn is_done(&self) -> bool
        ensures { result ≡ none (left self.now) }
    {
        self.rest.iter().all(|b| *b == b' ')
    }

    pub fn word(&mut self) -> Option<&'a [u8]>
        ensures { read bytes_of result self.new ≡ word_of (left self.old) }
    {
        let start = self.rest.iter().position(|b| *b != b' ')?;
        let begun = &self.rest[start..];
        let end = begun.iter().position(|b| *b == b' ').unwrap_or(begun.len());
        let (word, rest) = begun.split_at(end);
        self.rest = rest;
        Some(word)
    }

    pub fn number(&mut self) -> Option<u32>
        ensures { read same result self.new ≡ number_of (left self.old) }
    {
        let word = self.word()?;
        decimal(word)
    }

    pub fn name(&mut self) -> Option<NameWords>
        ensures { read named result self.new ≡ name_of (left self.old) }
    {
        let home = self.number()?;
        let start = self.number()?;
        let number = self.number()?;
        Some(NameWords {
            home,
            start,
            number,
        })
    }

    fn entry(&mut self) -> Option<Entry>
        ensures { read same result self.new ≡ entry_of (left self.old) }
    {
        let key = self.number()?;
        let amount = self.number()?;
        Some(Entry { key, amount })
    }

    // A count of at most 16, and so many entries, which go to the front of `all`: a slice of sixteen, since the contract of a
    // `&mut` array doesn't tell the caller that its length stays.
    fn entries(&mut self, all: &mut [Entry]) -> Option<usize>
        requires { length all.old ≡ 16 }
        ensures value { read (filled all.new) result self.new ≡ counted (left self.old) }
        ensures few { IfSome result (λ count. count ≤ 16) }
    {
        let count = self.number()? as usize;
        if count > MAX_ENTRIES {
            return None;
        }
        for slot in &mut all[..count] {
            *slot = self.entry()?;
        }
        Some(count)
    }

    pub fn order(&mut self) -> Option<(NameWords, Order)>
        ensures { read ordered result self.new ≡ order_of (left self.old) }
    {
        let name = self.name()?;
        let mut order = NO_ENTRIES;
        order.read_count = self.entries(&mut order.reads)?;
        order.write_count = self.entries(&mut order.writes)?;
        Some((name, order))
    }
}
