//! The texts of rules, by their lines.
ghost use Rattle.bench_judge.specs.Names as spec;
ghost use Rattle.std.specs.Prelude.{◌≡◌, ◌≤◌, drop};
ghost use Rattle.text_lines.specs.Lines.{text_lines};

use text_lines::next_line;

/// A text, what is left of it behind some of its lines, and how many these are.
#[derive(Clone, Copy)]
pub struct Names<'a> {
    text: &'a [u8],
    rest: &'a [u8],
    behind: u64,
}

/// What stands behind so many lines of a text.
fn behind_lines(text: &[u8], count: u64) -> &[u8]
    ensures { text_lines result.now ≡ drop count (text_lines text.now) }
{
    let mut rest = text;
    'lines: for made in 0..count {
        match next_line(rest) {
            Some((_, behind)) => rest = behind,
            None => return rest,
        }
    }
    rest
}

/// A text without white space around it.
fn trimmed(text: &[u8]) -> &[u8]
    ensures { result.now ≡ spec.trimmed text.now }
{
    text.trim_ascii()
}

/// The first line of a text without white space around it; no text where there is none.
fn first_trimmed(text: &[u8]) -> &[u8]
    ensures { result.now ≡ spec.trimmed (spec.first_of (text_lines text.now)) }
{
    match next_line(text) {
        Some((first, _)) => trimmed(first),
        None => trimmed(b""),
    }
}

impl<'a> Names<'a> {
    /// The same, or the text from its beginning where more lines than so many are behind.
    fn before(&self, wanted: u64) -> Names<'a>
        requires { spec.AreLeft self.now }
        ensures text { result.text.now ≡ self.now.text.now }
        ensures left { spec.AreLeft result }
        ensures few { result.behind ≤ wanted }
    {
        if wanted < self.behind {
            Names::of(self.text)
        } else {
            *self
        }
    }

    /// The lines of a text of rules.
    pub fn of(text: &'a [u8]) -> Names<'a>
        ensures text { result.text.now ≡ text.now }
        ensures left { spec.AreLeft result }
        ensures behind { result.behind ≡ 0 }
    {
        Names {
            text,
            rest: text,
            behind: 0,
        }
    }

    /// The text of a line, counted from 1, without white space around it. Lines that are asked for in their order are
    /// passed once.
    pub fn at(&mut self, line: u64) -> &'a [u8]
        requires { spec.AreLeft self.old }
        ensures name { result.now ≡ spec.rule_text self.old.text.now line }
        ensures text { self.new.text.now ≡ self.old.text.now }
        ensures left { spec.AreLeft self.new }
    {
        let wanted = line.saturating_sub(1);
        let from = self.before(wanted);
        let rest = behind_lines(from.rest, wanted - from.behind);
        *self = Names {
            text: from.text,
            rest,
            behind: wanted,
        };
        first_trimmed(rest)
    }
}
