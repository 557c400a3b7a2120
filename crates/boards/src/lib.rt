// One call on a board: two lent pages, and the walk in hand by value. Every call of the model is
// made by one function, which answers as the model does and leaves the pages that the model leaves.
//
// It is total: any hand, any bytes and lengths. The data that a walk was begun with is lent too. What
// each answer means is in specs/Boards.antt.
#![tactic(auto)]

ghost use Rattle.std.specs.Prelude.{◌≡◌};
ghost use Rattle.reads.specs.Reads.{read_number};
ghost use Rattle.model.specs.Board.{handed};
ghost use Rattle.boards.specs.Boards.{
  board_in,
  kept_after,
  begun_turn,
  progress_answer,
  read_answer,
  Made,
  turn_in,
  made_on,
  Steps,
};

use pages::{PageOffset, Pair, State};
use plans::Request;
use requests::Refusal;
use walks::{Progress, Walk};

// The number of a step that doesn't fit.
const UNFIT: u8 = 6;

// A call: a save at a page offset with the data lent, a format, so many steps with the data lent, a
// read with page offset and length, a read into the output lent, or a cut.
#[derive(Clone, Copy, Debug, PartialEq, Eq)]
pub enum Call {
    Save(PageOffset),
    Format,
    Step(u32),
    Read(PageOffset, u32),
    ReadInto(PageOffset),
    Cut,
}

// An answer: none, a walk begun, a step made, the walk ended, document 01's number, a part of the
// live page by its page offset and length, or that the output holds the bytes, with the number of
// that read.
// The model has the same seven: none is an answer of its own, so it is `Nothing` and no Option, and a number
// is document 01's.
#[derive(Clone, Copy, Debug, PartialEq, Eq)]
pub enum Answer {
    Nothing,
    Begun,
    Made,
    Ended,
    Number(u8),
    Part(PageOffset, u32),
    Output(u8),
}

impl Answer {
    // What is kept after a call, of its own and of what was kept before: its own where it began a walk.
    pub fn kept<T: Copy>(self, own: T, before: T) -> T
        ensures { result ≡ kept_after self own before }
    {
        match self {
            Answer::Begun => own,
            _ => before,
        }
    }
}

// The hand after a call, how many steps were made, and the answer to the call, or to all steps after
// those.
#[derive(Clone, Copy)]
pub struct Turn {
    pub hand: Option<Walk>,
    pub made: u32,
    pub answer: Answer,
}

// ---- the hand
// The hand without its walk. Compiled code may look at a walk's fields before it has looked whether
// one is held; so an empty hand is made from another, whose fields stay as they were written.
fn emptied(hand: Option<Walk>) -> Option<Walk>
    ensures { result ≡ None }
{
    let mut next = hand;
    next = None;
    next
}

// No walk in hand, with every field set.
pub fn empty_hand() -> Option<Walk>
    ensures { result ≡ None }
{
    let unheld = Walk {
        request: Request::Save,
        start: State::S0,
        erased: false,
        page: 0,
        offset: PageOffset(0),
        len: 0,
        place: 0,
    };
    emptied(Some(unheld))
}

// ---- beginnings
// A walk that is begun replaces any former one.
fn begin(hand: Option<Walk>, begun: Result<Walk, Refusal>) -> Turn
    ensures { result ≡ begun_turn hand begun }
{
    match begun {
        Ok(walk) => Turn {
            hand: Some(walk),
            made: 0,
            answer: Answer::Begun,
        },
        Err(why) => answered(hand, Answer::Number(why.number())),
    }
}

// ---- steps
impl From<Progress> for Answer {
    ghost from_gives = { λ progress answer. answer ≡ progress_answer progress };

    fn from(progress: Progress) -> Answer {
        match progress {
            Progress::Made => Answer::Made,
            Progress::Ended => Answer::Ended,
            Progress::Unfit => Answer::Number(UNFIT),
        }
    }
}

// The data handed to a step: the held data where the lengths agree, else the data given.
fn handed<'a>(held: &'a [u8], given: &'a [u8]) -> &'a [u8]
    ensures { result.now ≡ handed held.now given.now }
{
    if given.len() == held.len() {
        held
    } else {
        given
    }
}

// So many steps of the walk in hand.
// The walk in hand and its data are one hand in the model; as one struct here both callers of `make` would take
// it apart again. Both pages lent for writing go side by side, as `pages::Pair` says.
fn step<'a>(
    hand: Option<Walk>,
    times: u32,
    held: &'a [u8],
    data: &'a [u8],
    left: &mut [u8],
    right: &mut [u8],
) -> Turn
    ensures { Steps times result hand
        held.now
        «data».now
        left.old
        right.old
        left.new
        right.new }
{
    match hand {
        None => answered(hand, Answer::Nothing),
        Some(walk) => {
            let ran = walk.run(times, left, right, handed(held, data));
            Turn {
                hand: Some(ran.walk),
                made: ran.steps,
                answer: Answer::from(ran.progress),
            }
        }
    }
}

// ---- reads
fn read(pair: Pair<'_>, offset: PageOffset, len: u32) -> Answer
    ensures { result
        ≡ read_answer
        (read_number pair.entry.left.now pair.entry.right.now offset len)
        offset len }
{
    match reads::check_read(pair, offset, len) {
        Ok(()) => Answer::Part(offset, len),
        Err(error) => Answer::Number(error.number()),
    }
}

// ---- a call
// A call that leaves the walk in hand where it is.
fn answered(hand: Option<Walk>, answer: Answer) -> Turn
    ensures { result ≡ (record { hand = hand; made = 0; answer = answer }) }
{
    Turn {
        hand,
        made: 0,
        answer,
    }
}

// Makes a call on the pages with this walk in hand, which was begun with the data held. The data is
// that of a save or of the steps; the output is filled by a read into it, and kept by any other call.
// The parts of the hand go apart, as in `step`. Both pages lent for writing go side by side, as `pages::Pair` says.
pub fn make<'a>(
    call: Call,
    hand: Option<Walk>,
    held: &'a [u8],
    data: &'a [u8],
    left: &mut [u8],
    right: &mut [u8],
    out: &mut [u8],
) -> Turn
    ensures { ◌≡◌ {A = Made}
        (turn_in call result
        held.now
        «data».now
        left.new
        right.new
        out.new)
        (made_on call
        (board_in hand held.now left.old right.old)
        «data».now
        out.old) }
{
    match call {
        Call::Save(offset) => begin(hand, Walk::save(Pair { left, right }, offset, data)),
        Call::Format => begin(hand, Walk::format(Pair { left, right })),
        Call::Step(times) => step(hand, times, held, data, left, right),
        Call::Read(offset, len) => answered(hand, read(Pair { left, right }, offset, len)),
        Call::ReadInto(offset) => {
            let reading = reads::read_into(Pair { left, right }, offset, out);
            answered(hand, Answer::Output(reads::number_of(reading)))
        }
        Call::Cut => answered(emptied(hand), Answer::Nothing),
    }
}
