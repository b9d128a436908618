// What a rehearsal answers to a line, and how it goes on.
ghost use Rattle.std.specs.Prelude.{◌≡◌};
ghost use Rattle.script.specs.Meaning.{meaning};
ghost use Rattle.script.specs.Line.{line as line_of};
ghost use Rattle.rehearse.specs.Play.{play, set_up, before, during, obey};

use orders::Refusal;
use script::Line;
use script::read::read_line;

// How many houses a rehearsal has at most.
const MOST_HOUSES: u8 = 4;

// How many houses there are, once a line has set them up.
#[derive(Clone, Copy)]
pub struct State {
    pub houses: Option<u8>,
}

#[derive(Clone, Copy)]
pub enum Answer {
    // the line is passed over
    Skipped,
    Done,
    // done, and the state is to be printed
    Shown,
}

// The number of houses that a line sets up.
fn set_up(houses: u32) -> Result<u8, Refusal>
    ensures { result ≡ set_up houses }
{
    match u8::try_from(houses) {
        Ok(houses @ 1..=MOST_HOUSES) => Ok(houses),
        _ => Err(Refusal::OutOfRange),
    }
}

// The answer to a line once there are houses.
fn step(line: &Line) -> Result<Answer, Refusal>
    ensures { result ≡ during (meaning line.now) }
{
    match line {
        Line::Skip => Ok(Answer::Skipped),
        Line::Show => Ok(Answer::Shown),
        _ => Err(Refusal::BadForm),
    }
}

impl State {
    // The answer to a line before there are houses.
    fn start(&mut self, line: &Line) -> Result<Answer, Refusal>
        requires { self.old.houses ≡ None }
        ensures { (self.new, result) ≡ before (meaning line.now) }
    {
        match line {
            Line::Skip => Ok(Answer::Skipped),
            Line::Houses(houses) => {
                self.houses = Some(set_up(*houses)?);
                Ok(Answer::Done)
            }
            _ => Err(Refusal::OutOfRange),
        }
    }

    fn obey(&mut self, line: &Line) -> Result<Answer, Refusal>
        ensures { (self.new, result) ≡ obey self.old (meaning line.now) }
    {
        match self.houses {
            None => self.start(line),
            Some(_) => step(line),
        }
    }

    // The answer to the line that these bytes are.
    pub fn take(&mut self, line: &[u8]) -> Result<Answer, Refusal>
        ensures { (self.new, result) ≡ play self.old (line_of line.now) }
    {
        let line = read_line(line)?;
        self.obey(&line)
    }
}
