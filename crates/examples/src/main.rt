// Runs those examples of document 01 that aren't starred and ask for a number, and compares: each is
// asked as both reads, as a save and as a format. The layout of what it prints is in
// docs/FORMATS.md.
#![tactic(auto)]

ghost use Rattle.std.specs.Prelude.{◌≤◌};

use pages::{PageOffset, Pair};
use prints::Output;
use requests::Refusal;
use std::fmt;
use std::fmt::Write;
use walks::Walk;

// The length of the longest pages that are asked on.
const MOST: usize = 4098;

// The length of the pages, a page offset, a length, and document 01's number for them. At number 1
// document 01 names no offset and no length: 4 and 2 meet no other number.
#[derive(Clone, Copy)]
struct Vector {
    page: usize,
    offset: PageOffset,
    len: u32,
    number: Number,
    ghost page_fits: { page ≤ 4098 },
    ghost len_fits: { len ≤ 4098 },
}

// Document 01's number for a request that is refused; none where it is legal.
#[derive(Clone, Copy, PartialEq, Eq)]
struct Number(Option<u8>);

const VECTORS: [Vector; 5] = [
    Vector {
        page: 8,
        offset: PageOffset(3),
        len: 2,
        number: Number(Some(2)),
    },
    Vector {
        page: 8,
        offset: PageOffset(6),
        len: 2,
        number: Number(None),
    },
    Vector {
        page: 8,
        offset: PageOffset(6),
        len: 4,
        number: Number(Some(4)),
    },
    Vector {
        page: 6,
        offset: PageOffset(4),
        len: 2,
        number: Number(Some(1)),
    },
    Vector {
        page: 4098,
        offset: PageOffset(4),
        len: 2,
        number: Number(Some(1)),
    },
];

// What the library is asked for: the read without a copy, the copying read, a save or a format.
#[derive(Clone, Copy)]
enum Question {
    Read,
    Copy,
    Save,
    Format,
}

const QUESTIONS: [Question; 4] = [
    Question::Read,
    Question::Copy,
    Question::Save,
    Question::Format,
];

// The number that came and document 01's; and whether the bytes of a read are those that go with it.
#[derive(Clone, Copy)]
struct Answer {
    number: Number,
    wanted: Number,
    // A plain yes or no: a save and a format hand out no bytes, so they always fit.
    fitting: bool,
}

// ---- asking
impl Vector {
    // The asked bytes of a page; none where they don't lie in it.
    fn asked_of(self, page: &[u8]) -> &[u8] {
        let start = self.offset.0 as usize;
        page.get(start..start + self.len as usize).unwrap_or(&[])
    }
}

// A number of the library, which is 0 where the request is legal.
impl From<u8> for Number {
    fn from(number: u8) -> Number {
        Number((number != 0).then_some(number))
    }
}

impl From<Result<Walk, Refusal>> for Number {
    fn from(begun: Result<Walk, Refusal>) -> Number {
        match begun {
            Ok(_) => Number(None),
            Err(why) => why.number().into(),
        }
    }
}

// The read without a copy: the asked part of LEFT where it is legal, else none.
fn ask_read(vector: Vector, pair: Pair<'_>) -> (Number, bool) {
    let reading = reads::check_read(pair, vector.offset, vector.len);
    let number = Number::from(reads::number_of(reading));
    let part = reads::read(pair, vector.offset, vector.len);
    if number.0.is_none() {
        (number, part == vector.asked_of(pair.left))
    } else {
        (number, part.is_empty())
    }
}

// The copying read: the output then holds the asked part of LEFT where it is legal, else what it
// held before.
fn ask_copy(vector: Vector, pair: Pair<'_>, out: &mut [u8], before: &[u8]) -> (Number, bool) {
    let reading = reads::read_into(pair, vector.offset, out);
    let number = Number::from(reads::number_of(reading));
    if number.0.is_none() {
        (number, &*out == vector.asked_of(pair.left))
    } else {
        (number, &*out == before)
    }
}

impl Question {
    // What the library answers on two pages at line 3, where LEFT is live, with another image in each.
    // A save's data is what a copy's output holds before.
    fn answer(self, vector: Vector) -> Answer {
        let mut left = [17u8; MOST];
        left[..4].copy_from_slice(&[0, 0, 255, 255]);
        left[7] = 18;
        let mut right = [34u8; MOST];
        right[..4].copy_from_slice(&[0, 0, 0, 255]);
        let mut out = [165u8; MOST];
        let lent = [165u8; MOST];
        let pair = Pair {
            left: &left[..vector.page],
            right: &right[..vector.page],
        };
        let out = &mut out[..vector.len as usize];
        let lent = &lent[..vector.len as usize];
        let (number, fitting) = match self {
            Question::Read => ask_read(vector, pair),
            Question::Copy => ask_copy(vector, pair, out, lent),
            Question::Save => (Number::from(Walk::save(pair, vector.offset, lent)), true),
            Question::Format => (Number::from(Walk::format(pair)), true),
        };
        Answer {
            number,
            wanted: self.wanted(vector.number),
            fitting,
        }
    }

    // Document 01's number for a question: "A format has no offset and can only meet 1".
    fn wanted(self, number: Number) -> Number {
        match self {
            Question::Format => Number(number.0.filter(|number| *number == 1)),
            Question::Read | Question::Copy | Question::Save => number,
        }
    }
}

impl Answer {
    fn is_right(self) -> bool {
        self.number == self.wanted && self.fitting
    }
}

// ---- printing
impl fmt::Display for Vector {
    fn fmt<W: fmt::Write>(&self, f: &mut fmt::Formatter<W>) -> fmt::Result {
        write!(
            f,
            "P {}, offset {}, length {}",
            self.page, self.offset.0, self.len
        )
    }
}

impl fmt::Display for Number {
    fn fmt<W: fmt::Write>(&self, f: &mut fmt::Formatter<W>) -> fmt::Result {
        match self.0 {
            None => f.write_str("legal"),
            Some(number) => write!(f, "number {number}"),
        }
    }
}

impl fmt::Display for Question {
    fn fmt<W: fmt::Write>(&self, f: &mut fmt::Formatter<W>) -> fmt::Result {
        f.write_str(match self {
            Question::Read => "read",
            Question::Copy => "copy",
            Question::Save => "save",
            Question::Format => "format",
        })
    }
}

impl fmt::Display for Answer {
    fn fmt<W: fmt::Write>(&self, f: &mut fmt::Formatter<W>) -> fmt::Result {
        write!(f, "{}", self.number)?;
        if !self.fitting {
            f.write_str(" with wrong bytes")?;
        }
        if self.number != self.wanted {
            write!(f, ", but document 01 gives {}", self.wanted)?;
        }
        Ok(())
    }
}

// What the library answers to each question about a vector.
fn answers(vector: Vector) -> [Answer; 4] {
    QUESTIONS.map(|question| question.answer(vector))
}

// Prints a vector's line.
fn print_line(out: &mut Output, vector: Vector, answers: &[Answer; 4]) -> fmt::Result {
    write!(out, "{vector}")?;
    for (i, (question, answer)) in QUESTIONS.iter().zip(answers).enumerate() {
        let before = if i == 0 { ": " } else { "; " };
        write!(out, "{before}{question} {answer}")?;
    }
    writeln!(out)
}

// How many vectors get a wrong answer to a question, which is named by its place.
fn count_wrong(asked: &[[Answer; 4]; 5], question: usize) -> usize {
    asked
        .iter()
        .filter(|answers| answers
            .get(question)
            .is_some_and(|answer| !answer.is_right()))
        .count()
}

fn run(out: &mut Output) -> fmt::Result {
    let asked = VECTORS.map(answers);
    for (vector, answers) in VECTORS.iter().zip(&asked) {
        print_line(out, *vector, answers)?;
    }
    match [0, 1, 2, 3].map(|question| count_wrong(&asked, question)) {
        [0, 0, 0, 0] => writeln!(out, "all 5 examples are as document 01 gives them"),
        [read, copy, save, format] => writeln!(
            out,
            "of 5 examples WRONG: read {read}, copy {copy}, save {save}, format {format}"
        ),
    }
}

fn main(rt: HostRuntime) {
    let mut out = Output::new(rt);
    let _ = run(&mut out);
    out.flush();
}
