// The lines of a script: whether each is right, what is wrong with one that isn't, and how one is
// printed, with its comment. The lines printed are in docs/FORMATS.md.
#![tactic(auto)]

ghost use Rattle.std.specs.Prelude.{◌-◌, ◌≡◌, length, IfSome};
ghost use Rattle.std.specs.Iterator.{at_most};
ghost use Rattle.asks.specs.Asks.{asks_of, format};

use arguments::Name;
use asks::{Call, Wrong};
use digits::Fault;
use prints::{Escaped, Output};
use std::fmt;
use std::fmt::Write;

// How many bytes of a word with a fault are printed.
const MOST: usize = 40;

// A line of a script: its number, from 1, where it begins, its words, and its comment.
#[derive(Clone, Copy)]
pub struct Line<'a> {
    pub number: u64,
    pub at: usize,
    pub words: &'a [u8],
    pub comment: &'a [u8],
}

// A line as a script is gone over: without its comment, for which only what prints a line has to look.
#[derive(Clone, Copy)]
struct Passed<'a> {
    number: u64,
    at: usize,
    words: &'a [u8],
}

// The lines of a script that are not passed yet: where the next begins, and how many were passed.
#[derive(Drop)]
struct Lines<'a> {
    text: &'a [u8],
    at: usize,
    passed: u64,
}

// How many lines were passed, whether the last of them is a heading, and from which second on it is
// said how far the run is.
#[derive(Clone, Copy)]
pub struct Listing {
    pub number: u64,
    // A plain yes or no of the line before, with nothing else to say of it.
    pub heading: bool,
    pub due: u64,
}

// ---- lines
// The comment of a line from its mark on, without the blanks, tabs and ends of a line that it ends with.
// No `trim_ascii_end`, which takes off form feeds too.
fn comment_in(line: &[u8]) -> &[u8] {
    let Some(start) = line.iter().position(|byte| *byte == b'#') else {
        return b"";
    };
    let comment = &line[start..];
    match comment
        .iter()
        .rposition(|byte| !matches!(byte, b' ' | b'\t' | b'\r' | b'\n'))
    {
        Some(last) => &comment[..=last],
        None => b"",
    }
}

impl<'a> Passed<'a> {
    // The line that begins at a place of a text, with its number.
    fn new(text: &'a [u8], at: usize, number: u64) -> Passed<'a> {
        Passed {
            number,
            at,
            words: texts::line_at(text, at),
        }
    }

    fn has_call(self) -> bool {
        !self.words.is_empty()
    }

    // The line with its comment.
    fn whole(self, text: &'a [u8]) -> Line<'a>
        ensures place { result.at ≡ self.entry.at }
        ensures words { result.words.now ≡ self.entry.words.now }
    {
        let Passed { number, at, words } = self;
        let whole = text.get(at..texts::next_line(text, at)).unwrap_or(b"");
        Line {
            number,
            at,
            words,
            comment: comment_in(whole),
        }
    }
}

impl Line<'_> {
    fn has_call(&self) -> bool {
        !self.words.is_empty()
    }

    fn is_heading(&self) -> bool {
        self.words.is_empty() && !self.comment.is_empty()
    }
}

impl<'a> Lines<'a> {
    // All lines of a script.
    fn new(text: &'a [u8]) -> Lines<'a> {
        Lines {
            text,
            at: 0,
            passed: 0,
        }
    }
}

impl<'a> Iterator for Lines<'a> {
    type Item = Passed<'a>;

    ghost remaining = { λ lines. at_most (length lines.text.now - lines.at) };

    fn next(&mut self) -> Option<Passed<'a>> {
        if self.text.len() <= self.at {
            return None;
        }
        self.passed = self.passed.wrapping_add(1);
        let line = Passed::new(self.text, self.at, self.passed);
        self.at = texts::next_line(self.text, self.at);
        Some(line)
    }
}

// How many lines of a script have a call.
pub fn calls_in(text: &[u8]) -> usize {
    Lines::new(text).filter(|line| line.has_call()).count()
}

// The line of a script that begins at a place.
pub fn line_at(text: &[u8], place: usize) -> Option<Line<'_>>
    ensures { IfSome result (λ line. line.at ≡ place) }
{
    let found = Lines::new(text).find(|line| line.at == place)?;
    Some(found.whole(text))
}

// The last line of a script that asks for a format.
pub fn last_format(text: &[u8]) -> Option<Line<'_>>
    ensures { IfSome result (λ line. asks_of line.words.now ≡ format) }
{
    let found = Lines::new(text)
        .filter(|line| matches!(asks::parse(line.words), Ok(Some(Call::Format))))
        .last()?;
    Some(found.whole(text))
}

// ---- what is wrong
// What is wrong with a script: a word of a line, or that no line has a call.
#[derive(Clone, Copy)]
pub enum Error<'a> {
    Line {
        script: Name,
        line: Line<'a>,
        wrong: Wrong,
    },
    NoCall {
        script: Name,
    },
}

impl fmt::Display for Error<'_> {
    fn fmt<W: fmt::Write>(&self, f: &mut fmt::Formatter<W>) -> fmt::Result {
        match *self {
            Error::NoCall { script } => write!(f, "{script}: no call in it"),
            Error::Line {
                script,
                line,
                wrong,
            } => {
                let word = texts::word(line.words, wrong.word);
                let word = Escaped(&word[..word.len().min(MOST)]);
                write!(f, "{script} line {}: ", line.number)?;
                match wrong.fault {
                    Fault::UnknownWord => write!(f, "unknown word '{word}'"),
                    Fault::NotNumber => write!(f, "'{word}' is no number"),
                    Fault::PastBits => write!(f, "the number {word} is past 32 bits"),
                    Fault::NotHex => write!(f, "'{word}' is not hexadecimal"),
                    Fault::ExtraWord => write!(f, "one word too many: '{word}'"),
                    Fault::NoNumber => write!(f, "a number is missing"),
                    Fault::OddDigits => write!(f, "odd number of hexadecimal digits"),
                    Fault::TooLong => write!(f, "more than 4096 bytes"),
                }
            }
        }
    }
}

// Whether each line of a script is right and one of them has a call.
pub fn check(script: Name, text: &[u8]) -> Result<(), Error<'_>> {
    let mut has_call = false;
    for line in Lines::new(text) {
        asks::parse(line.words).map_err(|wrong| Error::Line {
            script,
            line: line.whole(text),
            wrong,
        })?;
        has_call |= line.has_call();
    }
    if has_call {
        Ok(())
    } else {
        Err(Error::NoCall { script })
    }
}

// ---- what is printed
impl fmt::Display for Line<'_> {
    // The call of a line with its number, tabs as blanks, and its comment, if it has one.
    fn fmt<W: fmt::Write>(&self, f: &mut fmt::Formatter<W>) -> fmt::Result {
        write!(f, "script line {}: ", self.number)?;
        for (i, part) in self.words.split(|byte| *byte == b'\t').enumerate() {
            if i != 0 {
                f.write_str(" ")?;
            }
            write!(f, "{}", Escaped(part))?;
        }
        if !self.comment.is_empty() {
            write!(f, "  {}", Escaped(self.comment))?;
        }
        Ok(())
    }
}

impl Listing {
    pub fn new() -> Listing {
        Listing {
            number: 0,
            heading: false,
            due: 2,
        }
    }

    // Counts a line of a script, and says how far a long run is.
    pub fn count(&mut self, rt: HostRuntime) {
        self.number = self.number.wrapping_add(1);
        self.due = prints::progress(rt, self.number, self.due);
    }

    // Prints and counts the line of a script at a place: a call; or a comment as a heading, after an empty
    // line unless it goes on with one.
    pub fn print_next(&mut self, out: &mut Output, text: &[u8], at: usize) -> fmt::Result {
        self.count(out.runtime());
        let line = Passed::new(text, at, self.number).whole(text);
        let goes_on = self.heading;
        self.heading = line.is_heading();
        if line.has_call() {
            return writeln!(out, "{line}");
        }
        if !self.heading {
            return Ok(());
        }
        if !goes_on {
            writeln!(out)?;
        }
        writeln!(out, "{}", Escaped(line.comment))
    }
}
