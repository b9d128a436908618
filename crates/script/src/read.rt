// A line read whole: its first word says which command it is.
ghost use Rattle.std.specs.Prelude.{◌≡◌};
ghost use Rattle.script.specs.Answers.{left, read};
ghost use Rattle.script.specs.Line.{keyword, is_comment, house_name, parts, line as line_of};
ghost use Rattle.script.specs.Meaning.{placed, meaning, said};

use crate::words::Words;
use crate::{Line, NameWords};
use orders::Refusal;

#[derive(Clone, Copy)]
enum Keyword {
    Houses,
    Submit,
    Hold,
    Vote,
    Rule,
    GiveUp,
    Answer,
    Learn,
    Sync,
    Stop,
    Show,
}

impl Keyword {
    // The keyword that the word is.
    fn of(word: &[u8]) -> Option<Keyword>
        ensures { result ≡ keyword word.now }
    {
        match word {
            b"houses" => Some(Keyword::Houses),
            b"submit" => Some(Keyword::Submit),
            b"hold" => Some(Keyword::Hold),
            b"vote" => Some(Keyword::Vote),
            b"rule" => Some(Keyword::Rule),
            b"giveup" => Some(Keyword::GiveUp),
            b"answer" => Some(Keyword::Answer),
            b"learn" => Some(Keyword::Learn),
            b"sync" => Some(Keyword::Sync),
            b"stop" => Some(Keyword::Stop),
            b"show" => Some(Keyword::Show),
            _ => None,
        }
    }
}

fn is_comment(line: &[u8]) -> bool
    ensures { result ≡ is_comment line.now }
{
    matches!(line, [b'#', ..])
}

// H NAME
fn house_name(words: &mut Words<'_>) -> Option<(u32, NameWords)>
    ensures { read placed result words.new ≡ house_name (left words.old) }
{
    let house = words.number()?;
    let name = words.name()?;
    Some((house, name))
}

fn submit(words: &mut Words<'_>) -> Option<Line>
    ensures { read meaning result words.new ≡ parts Keyword.Submit (left words.old) }
{
    let house = words.number()?;
    let (name, order) = words.order()?;
    Some(Line::Submit(house, name, order))
}

fn vote(words: &mut Words<'_>) -> Option<Line>
    ensures { read meaning result words.new ≡ parts Keyword.Vote (left words.old) }
{
    let house = words.number()?;
    let (voter, name) = house_name(words)?;
    Some(Line::Vote(house, voter, name))
}

fn learn(words: &mut Words<'_>) -> Option<Line>
    ensures { read meaning result words.new ≡ parts Keyword.Learn (left words.old) }
{
    let house = words.number()?;
    let yes = match words.number()? {
        0 => false,
        1 => true,
        _ => return None,
    };
    let name = words.name()?;
    Some(Line::Learn(house, yes, name))
}

fn stop(words: &mut Words<'_>) -> Option<Line>
    ensures { read meaning result words.new ≡ parts Keyword.Stop (left words.old) }
{
    let house = words.number()?;
    let kept = words.number()?;
    Some(Line::Stop(house, kept))
}

// What the words behind a keyword say. A match and no closures: most have parts of their own, and those with a house and a name share `house_name`.
fn command(keyword: Keyword, words: &mut Words<'_>) -> Option<Line>
    ensures { read meaning result words.new ≡ parts keyword (left words.old) }
{
    match keyword {
        Keyword::Houses => words.number().map(Line::Houses),
        Keyword::Submit => submit(words),
        Keyword::Hold => house_name(words).map(|(house, name)| Line::Hold(house, name)),
        Keyword::Vote => vote(words),
        Keyword::Rule => house_name(words).map(|(house, name)| Line::Rule(house, name)),
        Keyword::GiveUp => house_name(words).map(|(house, name)| Line::GiveUp(house, name)),
        Keyword::Answer => house_name(words).map(|(house, name)| Line::Answer(house, name)),
        Keyword::Learn => learn(words),
        Keyword::Sync => words.number().map(Line::Sync),
        Keyword::Stop => stop(words),
        Keyword::Show => Some(Line::Show),
    }
}

// A line that is none of these is refused as out of form.
pub fn read_line(line: &[u8]) -> Result<Line, Refusal>
    ensures { said result ≡ line_of line.now }
{
    if is_comment(line) {
        return Ok(Line::Skip);
    }
    let mut words = Words::new(line);
    let Some(first) = words.word() else {
        return Ok(Line::Skip);
    };
    let keyword = Keyword::of(first).ok_or(Refusal::BadForm)?;
    let asked = command(keyword, &mut words).ok_or(Refusal::BadForm)?;
    if !words.is_done() {
        return Err(Refusal::BadForm);
    }
    Ok(asked)
}
