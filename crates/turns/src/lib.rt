// One call of a script as text on a board: the data of the call, and of the walk in hand, is that of
// lines of the script. The call is made by the engine of the crate boards.
//
// It is total: any text, any places. What each call leaves is in specs/Turns.antt and in the crate
// boards.
#![tactic(auto)]

ghost use Rattle.std.specs.Prelude.{◌≤◌, ◌≡◌, length};
ghost use Rattle.boards.specs.Boards.{board_in, Made, turn_in, made_on};
ghost use Rattle.texts.specs.Texts.{line_at, word_at};
ghost use Rattle.digits.specs.Digits.{bytes_of, Decoded};
ghost use Rattle.asks.specs.Asks.{asks_in};
ghost use Rattle.turns.specs.Turns.{
  data_at,
  loaded,
  zeros,
  began_after,
  turn_of,
  next_for,
  plan_of,
};

use boards::{Call, Turn};
use walks::Walk;

// What the engine gives for a call, and where the line is that began the walk then in hand.
#[derive(Clone, Copy)]
pub struct Turned {
    pub turn: Turn,
    pub began: usize,
}

// A call that is made: where its data is, where the line is that begins its walk, and how many bytes it
// copies.
#[derive(Clone, Copy)]
pub struct Job {
    pub call: Call,
    pub place: usize,
    pub begins: usize,
    pub size: usize,
}

// A call is made, or none is and so many steps are left.
#[derive(Clone, Copy)]
pub enum Next {
    Make(Job),
    Steps(u32),
}

// What is done next, and where the line after it is.
#[derive(Clone, Copy)]
pub struct Plan {
    pub after: usize,
    pub next: Next,
}

// A buffer that holds 00.
#[tactic(auto, using(crate::proofs::Laws::blank_is))]
pub fn blank() -> [u8; 4096]
    ensures { result ≡ zeros }
{
    [0u8; 4096]
}

// The digits of the line at a place.
fn digits_at(text: &[u8], place: usize) -> &[u8]
    ensures { result.now ≡ word_at 2 (line_at text.now place) }
{
    texts::word(texts::line_at(text, place), 2)
}

// Decodes the data of the line at a place into a buffer, and tells how many bytes of it they are. Data
// that is longer than the buffer isn't decoded: it stays as long as the buffer, a byte less where the
// number of its bytes is odd.
// A count and no part of the buffer: the promise says of the rest of it, too, what it holds.
pub fn load(text: &[u8], place: usize, into: &mut [u8]) -> usize
    ensures fact { ◌≡◌ {A = Decoded}
        (record { count = result; buffer = into.new })
        (loaded (bytes_of (word_at 2 (line_at text.now place))) into.old) }
    ensures upper_bound { result ≤ length into.new }
{
    let digits = digits_at(text, place);
    let count = digits.len() / 2;
    let room = into.len();
    let size = digits::decode(digits, into);
    if count <= room {
        size
    } else {
        room.saturating_sub(count % 2)
    }
}

// Makes a call with the data of the line at its place, on a board whose walk in hand was begun with that
// of the line at another. A walk that it begins is begun by the line at `begins`.
// Each parameter is what the engine's `make` has, or a place of the text for it; both pages lent for
// writing go side by side, as `pages::Pair` says.
pub fn make(
    text: &[u8],
    job: Job,
    hand: Option<Walk>,
    began: usize,
    left: &mut [u8],
    right: &mut [u8],
    out: &mut [u8],
) -> Turned
    ensures { (◌≡◌ {A = Made}
        (turn_in job.call (turn_of result)
        (data_at text.now began)
        (data_at text.now job.place)
        left.new
        right.new
        out.new)
        (made_on job.call
        (board_in hand (data_at text.now began) left.old right.old)
        (data_at text.now job.place)
        out.old))
        × (result.began ≡ began_after result.turn.answer job.begins began) }
{
    let mut held = blank();
    let mut data = blank();
    let held_size = load(text, began, &mut held);
    let data_size = load(text, job.place, &mut data);
    let turn = boards::make(
        job.call,
        hand,
        &held[..held_size],
        &data[..data_size],
        left,
        right,
        out,
    );
    let began = turn.answer.kept(job.begins, began);
    Turned { turn, began }
}

// What is done for a line at a place of a text with this end, by what it asks for, where the output has
// so much room. What has no data has that of the end, where there is none.
fn line_next(
    asked: Result<Option<asks::Call>, asks::Wrong>,
    at: usize,
    end: usize,
    room: usize,
) -> Next
    ensures { result ≡ next_for (asks_in asked) at end room }
{
    let Ok(Some(call)) = asked else {
        return Next::Steps(0);
    };
    let none = Job {
        call: Call::Cut,
        place: end,
        begins: end,
        size: 0,
    };
    match call {
        asks::Call::Save(offset) => Next::Make(Job {
            call: Call::Save(offset),
            place: at,
            begins: at,
            ..none
        }),
        asks::Call::Format => Next::Make(Job {
            call: Call::Format,
            ..none
        }),
        asks::Call::Steps(steps) => Next::Steps(steps),
        asks::Call::StepWith => Next::Make(Job {
            call: Call::Step(1),
            place: at,
            ..none
        }),
        asks::Call::Read(offset, len) => Next::Make(Job {
            call: Call::Read(offset, len),
            ..none
        }),
        asks::Call::Copy(offset, len) if len as usize <= room => Next::Make(Job {
            call: Call::ReadInto(offset),
            size: len as usize,
            ..none
        }),
        asks::Call::Copy(..) => Next::Steps(0),
        asks::Call::Cut => Next::Make(none),
    }
}

// What is done next where so many steps of a line are left, the walk in hand was begun by another, and
// the next line is at a place: a step, or what that line asks for.
#[tactic(auto, using(crate::proofs::Laws::line_planned, crate::proofs::Laws::step_planned))]
pub fn plan_next(text: &[u8], at: usize, began: usize, left: u32, room: usize) -> Plan
    ensures { result ≡ plan_of text.now at began left room }
{
    let end = text.len();
    if left == 0 {
        let asked = asks::parse(texts::line_at(text, at));
        return Plan {
            after: texts::next_line(text, at),
            next: line_next(asked, at, end, room),
        };
    }
    Plan {
        after: at,
        next: Next::Make(Job {
            call: Call::Step(1),
            place: began,
            begins: end,
            size: 0,
        }),
    }
}
