// What a line of a script asks for: its call, or its first fault. The layout is in docs/FORMATS.md,
// its definitions in specs/Asks.antt. Lines and words are in the crate texts, numbers in digits.
#![tactic(auto)]

ghost use Rattle.std.specs.Prelude.{◌≡◌, Ok};
ghost use Rattle.asks.specs.Asks.{
  ended_by,
  with_bytes,
  with_number,
  save_of,
  step_of,
  part_of,
  named_of,
  asks_in,
  asks_of,
};

use digits::Fault;
use pages::PageOffset;

// The most bytes that a call hands over, or asks to be copied.
const MAX_BYTES: u32 = 4096;

// The call of a line: a save with its page offset, a format, a number of steps with the held data, a
// step with bytes of the line, a read or a copy with page offset and length, or a cut. The bytes are
// the digits of word 2.
#[derive(Clone, Copy)]
pub enum Call {
    Save(PageOffset),
    Format,
    Steps(u32),
    StepWith,
    Read(PageOffset, u32),
    Copy(PageOffset, u32),
    Cut,
}

// What is wrong with a line: the fault, and the number of the word that has it.
#[derive(Clone, Copy, Debug, PartialEq, Eq)]
pub struct Wrong {
    pub fault: Fault,
    pub word: usize,
}

// What a line has that has no word of a number, which would be one too many.
#[tactic(auto, unfolding(crate::specs::Asks::ended_by))]
fn ended<T: Drop>(line: &[u8], number: usize, value: T) -> Result<T, Wrong>
    ensures { result ≡ ended_by number line.now value }
{
    if texts::word(line, number).is_empty() {
        Ok(value)
    } else {
        Err(Wrong {
            fault: Fault::ExtraWord,
            word: number,
        })
    }
}

// A call whose bytes are word 2, the last.
#[tactic(auto, using(std::proofs::lemmas::Bool::Decides::nat_tests), unfolding(crate::specs::Asks::with_bytes, crate::specs::Asks::with_digits))]
fn with_bytes(line: &[u8], call: Call) -> Result<Call, Wrong>
    ensures { result ≡ with_bytes line.now call }
{
    let digits = texts::word(line, 2);
    let fault = if !digits::is_hex(digits) {
        Fault::NotHex
    } else if digits.len() % 2 != 0 {
        Fault::OddDigits
    } else if MAX_BYTES as usize * 2 < digits.len() {
        Fault::TooLong
    } else {
        return ended(line, 3, call);
    };
    Err(Wrong { fault, word: 2 })
}

// The number that a word of a line is.
fn number(line: &[u8], word: usize) -> Result<u32, Wrong>
    ensures { result ≡ with_number word line.now (λ value. Ok value) }
{
    digits::parse_number(texts::word(line, word)).map_err(|fault| Wrong { fault, word })
}

#[tactic(auto, unfolding(crate::specs::Asks::save_of))]
fn parse_save(line: &[u8]) -> Result<Call, Wrong>
    ensures { result ≡ save_of line.now }
{
    let offset = number(line, 1)?;
    with_bytes(line, Call::Save(PageOffset(offset)))
}

// All steps are as many as a number may be, more than any walk has. No `match` of the word: it goes byte by
// byte, and its default wants an answer for each of nine ways to it.
#[tactic(auto, using(crate::proofs::Laws::same_is), unfolding(crate::specs::Asks::step_of, crate::specs::Asks::steps_of))]
fn parse_step(line: &[u8]) -> Result<Call, Wrong>
    ensures { result ≡ step_of line.now }
{
    let count = texts::word(line, 1);
    if count.is_empty() {
        Ok(Call::Steps(1))
    } else if count == b"with".as_slice() {
        with_bytes(line, Call::StepWith)
    } else if count == b"all".as_slice() {
        ended(line, 2, Call::Steps(u32::MAX))
    } else {
        ended(line, 2, Call::Steps(number(line, 1)?))
    }
}

// The page offset and the length of a part, with a limit to the length.
#[tactic(auto, using(std::proofs::lemmas::Bool::Decides::nat_tests), unfolding(crate::specs::Asks::part_of))]
fn parse_part(line: &[u8], most: u32) -> Result<(PageOffset, u32), Wrong>
    ensures { result ≡ part_of most line.now }
{
    let offset = number(line, 1)?;
    let len = number(line, 2)?;
    if most < len {
        return Err(Wrong {
            fault: Fault::TooLong,
            word: 2,
        });
    }
    ended(line, 3, (PageOffset(offset), len))
}

// The call of a line of this name. No `match` of the name: its 25 default arms did not close in the
// proof.
#[tactic(auto, using(crate::proofs::Laws::same_is, crate::proofs::Laws::called), unfolding(crate::specs::Asks::named_of))]
fn parse_named(line: &[u8], name: &[u8]) -> Result<Call, Wrong>
    ensures { result ≡ named_of name.now line.now }
{
    if name == b"save".as_slice() {
        parse_save(line)
    } else if name == b"format".as_slice() {
        ended(line, 1, Call::Format)
    } else if name == b"step".as_slice() {
        parse_step(line)
    } else if name == b"read".as_slice() {
        parse_part(line, u32::MAX).map(|(offset, len)| Call::Read(offset, len))
    } else if name == b"copy".as_slice() {
        parse_part(line, MAX_BYTES).map(|(offset, len)| Call::Copy(offset, len))
    } else if name == b"cut".as_slice() {
        ended(line, 1, Call::Cut)
    } else {
        Err(Wrong {
            fault: Fault::UnknownWord,
            word: 0,
        })
    }
}

// The call of a line that begins with its first word, if it asks for one, or what is wrong with it: the
// first fault from the left.
#[tactic(auto, unfolding(crate::specs::Asks::asks_of, crate::specs::Asks::call_of))]
pub fn parse(line: &[u8]) -> Result<Option<Call>, Wrong>
    ensures { asks_in result ≡ asks_of line.now }
{
    let name = texts::word(line, 0);
    if name.is_empty() {
        return Ok(None);
    }
    Ok(Some(parse_named(line, name)?))
}
