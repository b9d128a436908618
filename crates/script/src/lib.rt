// Scripts: one line of bytes read into the command that it is.
#![tactic(auto)]

use orders::Order;

pub mod range;
pub mod read;
#[cfg(test)]
mod tests;
pub mod words;

// An order's name as it is written. A number of 32 bits stands where the name has a byte for its home, so that a home
// that is none is out of range, and not out of form.
// Not a Name<H>: each definition that speaks of names would take the type of the home too.
#[derive(Clone, Copy)]
pub struct NameWords {
    pub home: u32,
    pub start: u32,
    pub number: u32,
}

// What a line asks for. Houses are numbers as they are written, within range or not.
#[derive(Clone, Copy)]
pub enum Line {
    // a blank line or a comment
    Skip,
    Houses(u32),
    Submit(u32, NameWords, Order),
    Hold(u32, NameWords),
    // the house at which the yes arrives, and the house that said it
    Vote(u32, u32, NameWords),
    Rule(u32, NameWords),
    GiveUp(u32, NameWords),
    Answer(u32, NameWords),
    Learn(u32, bool, NameWords),
    Sync(u32),
    // the house, and how many of the bytes written since the last sync are kept
    Stop(u32, u32),
    Show,
}
