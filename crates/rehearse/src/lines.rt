// The lines of a script: what stands between newline bytes.
ghost use Rattle.std.specs.Prelude.{◌≡◌, ◌+◌, ◌≤◌, length, drop};
ghost use Rattle.rehearse.specs.Lines.{line_length};

// The place of the first newline from `at` on, or the end where there is none.
pub fn line_end(script: &[u8], at: usize) -> usize
    requires { at ≤ length script.now }
    ensures value { result ≡ at + line_length (drop at script.now) }
    ensures bound { result ≤ length script.now }
{
    let rest = &script[at..];
    let length = rest.iter().position(|b| *b == b'\n');
    at + length.unwrap_or(rest.len())
}

// Those that are still to come: from `at` on.
#[derive(Drop)]
pub struct Lines<'a> {
    script: &'a [u8],
    at: usize,
}

impl<'a> Lines<'a> {
    ghost use Rattle.rehearse.specs.Lines.{lines};
    ghost use Rattle.rehearse.specs.ToCome.{to_come};

    // All lines of the script.
    pub fn new(script: &'a [u8]) -> Lines<'a>
        ensures { to_come result ≡ lines script.now }
    {
        Lines { script, at: 0 }
    }
}

impl<'a> Iterator for Lines<'a> {
    ghost use Rattle.std.specs.Iterator.{YieldsFirstRef, item_count};
    ghost use Rattle.rehearse.specs.ToCome.{to_come};

    type Item = &'a [u8];

    ghost next_gives = { YieldsFirstRef to_come };

    ghost remaining = { item_count to_come };

    fn next(&mut self) -> Option<&'a [u8]> {
        if self.at >= self.script.len() {
            return None;
        }
        let end = line_end(self.script, self.at);
        let line = &self.script[self.at..end];
        self.at = end + 1;
        Some(line)
    }
}
