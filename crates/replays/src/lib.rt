// A script of calls, replayed on two pages as a board would make them, with every answer written to
// a lent output. The layout is in docs/FORMATS.md; what comes out is in specs/Replays.antt: the
// answers are the book's, for any bytes in the pages and in the script.
//
// Total: any bytes, any lengths. The whole script is checked before the first call is made.
#![tactic(auto)]

ghost use Rattle.std.specs.Prelude.{◌+◌, ◌≤◌, ◌≡◌, length, replicate};
ghost use Rattle.model.specs.Board.{powered};
ghost use Rattle.model.specs.Orders.{held_in};
ghost use Rattle.boards.specs.Boards.{hand_in};
ghost use Rattle.scripts.specs.Scripts.{item_in, found, checked};
ghost use Rattle.replays.specs.Runs.{
  code_of,
  last_in,
  replies_in,
  once,
  making,
  making_of,
  Written,
  written,
  Run,
  run_in,
  ordered,
  running,
  orders_of,
};
ghost use Rattle.replays.specs.Replays.{Outcome, report_in, replayed};

use boards::{Answer, Call, Turn};
use pages::Pair;
use scripts::{Item, ScriptError};
use walks::Walk;

// The first byte of each answer that isn't a number, as the layout has it.
const NOTHING: u8 = 0x00;

const BEGUN: u8 = 0x10;

const MADE: u8 = 0x11;

const ENDED: u8 = 0x12;

const PART: u8 = 0x20;

const OUTPUT: u8 = 0x21;

// How many bytes of an answer stand before an output: the first and its number.
const BEFORE_OUTPUT: usize = 2;

// ---- bytes of the output
// Writes bytes from a place on; gives the place after them.
#[tactic(auto, using(crate::proofs::Output::put_written))]
fn put(out: &mut [u8], at: usize, bytes: &[u8]) -> usize
    requires { at + length bytes.now ≤ length out.old }
    ensures { ◌≡◌ {A = Written} (record { out = out.new; at = result })
        (written out.old at bytes.now) }
{
    let end = at + bytes.len();
    out[at..end].copy_from_slice(bytes);
    end
}

// Writes the same byte, so many times.
#[tactic(auto, using(crate::proofs::Output::filled_part, crate::proofs::Output::put_written))]
fn put_all(out: &mut [u8], at: usize, count: u32, byte: u8) -> usize
    requires { at + count ≤ length out.old }
    ensures { ◌≡◌ {A = Written} (record { out = out.new; at = result })
        (written out.old at (replicate count byte)) }
{
    let end = at + count as usize;
    out[at..end].fill(byte);
    end
}

// ---- answers
// The first byte of an answer.
fn code_of(answer: Answer) -> u8
    ensures { result ≡ code_of answer }
{
    match answer {
        Answer::Nothing => NOTHING,
        Answer::Begun => BEGUN,
        Answer::Made => MADE,
        Answer::Ended => ENDED,
        Answer::Number(number) => number,
        Answer::Part(..) => PART,
        Answer::Output(_) => OUTPUT,
    }
}

// The last of so many answers: that to each call after the steps made, or a step made where all were.
fn last_of(turn: Turn, times: u32) -> Answer
    ensures { result ≡ last_in turn times }
{
    if turn.made == times {
        Answer::Made
    } else {
        turn.answer
    }
}

// So many answers, of which the first are steps made and all others the last one.
#[derive(Clone, Copy)]
struct Replies {
    times: u32,
    made: u32,
    last: Answer,
}

// Writes answers up to an output, a part from these pages; gives the place after them.
fn put_answers(replies: Replies, pair: Pair<'_>, out: &mut [u8], at: usize) -> usize
    requires { (replies.made ≤ replies.times)
        × (at
        + length
        (replies_in replies.times replies.made replies.last pair.left.now pair.right.now)
        ≤ length out.old) }
    ensures { ◌≡◌ {A = Written} (record { out = out.new; at = result })
        (written out.old at
        (replies_in replies.times replies.made replies.last
        pair.entry.left.now
        pair.entry.right.now)) }
{
    let Replies { times, made, last } = replies;
    let rest = put_all(out, at, made, MADE);
    let end = put_all(out, rest, times - made, code_of(last));
    match last {
        Answer::Part(offset, len) => put(out, end, reads::read(pair, offset, len)),
        Answer::Output(number) => put(out, end, &[number]),
        _ => end,
    }
}

// ---- calls
// How a call of a script is made: the call of a board, how many answers it has, the bytes of the
// script that are lent to it and those that its output holds, and how many bytes of its answer stand
// before that output.
#[derive(Clone, Copy)]
struct Job<'a> {
    call: Call,
    times: u32,
    bytes: &'a [u8],
    output: &'a [u8],
    lead: usize,
}

impl<'a> Job<'a> {
    // A call that is made once, and is lent nothing.
    fn once(call: Call) -> Job<'a>
        ensures { making result ≡ once call }
    {
        Job {
            call,
            times: 1,
            bytes: &[],
            output: &[],
            lead: 0,
        }
    }

    // The call of an item, where the walk in hand was begun with this data.
    fn of(item: Item<'a>, held: &'a [u8]) -> Job<'a>
        ensures { making result ≡ making_of item.entry held.now }
    {
        match item {
            Item::Save(offset, bytes) => Job {
                bytes,
                ..Job::once(Call::Save(offset))
            },
            Item::Format => Job::once(Call::Format),
            Item::Steps(times) => Job {
                times,
                bytes: held,
                ..Job::once(Call::Step(times))
            },
            Item::StepWith(bytes) => Job {
                bytes,
                ..Job::once(Call::Step(1))
            },
            Item::Read(offset, len) => Job::once(Call::Read(offset, len)),
            Item::ReadInto(offset, output) => Job {
                output,
                lead: BEFORE_OUTPUT,
                ..Job::once(Call::ReadInto(offset))
            },
            Item::Cut => Job::once(Call::Cut),
        }
    }
}

// ---- a script
// What is kept from call to call: the walk in hand, the data it was begun with, and the place in the
// output.
#[derive(Clone, Copy)]
struct Ran<'a> {
    hand: Option<Walk>,
    held: &'a [u8],
    at: usize,
}

impl<'a> Ran<'a> {
    // The data of the walk in hand; none with no walk.
    fn data_in_hand(self) -> &'a [u8]
        ensures { result.now ≡ held_in (hand_in self.entry.hand self.entry.held.now) }
    {
        match self.hand {
            None => &[],
            Some(_) => self.held,
        }
    }

    // Makes the calls of an item and writes their answers. An output is laid in where it stands in
    // its answer, and lent from there.
    // Both pages lent for writing go side by side, as `pages::Pair` says.
    fn make(&mut self, item: Item<'a>, left: &mut [u8], right: &mut [u8], out: &mut [u8])
        requires { self.old.at + (item_in item).room ≤ length out.old }
        ensures { run_in self.new left.new right.new out.new
            ≡ ordered (item_in item.entry).order
            (run_in self.old left.old right.old out.old) }
    {
        let job = Job::of(item, self.data_in_hand());
        let start = self.at + job.lead;
        let end = put(out, start, job.output);
        let turn = boards::make(
            job.call,
            self.hand,
            self.held,
            job.bytes,
            left,
            right,
            &mut out[start..end],
        );
        let last = last_of(turn, job.times);
        self.hand = turn.hand;
        self.held = last.kept(job.bytes, self.held);
        let replies = Replies {
            times: job.times,
            made: turn.made,
            last,
        };
        let after = put_answers(replies, Pair { left, right }, out, self.at);
        self.at = after + job.output.len();
    }
}

// Makes the calls of a script that was found whole.
// Both pages lent for writing go side by side, as `pages::Pair` says.
fn run<'a>(left: &mut [u8], right: &mut [u8], script: &'a [u8], out: &mut [u8]) -> Ran<'a>
    requires { (found (checked script.now (length out.old))).status ≡ 0 }
    ensures { run_in result left.new right.new out.new
        ≡ running (orders_of (checked script.now (length out.old)))
        (record {
          board = powered left.old right.old;
          output = record { out = out.old; at = 0 };
        }) }
{
    let mut ran = Ran {
        hand: boards::empty_hand(),
        held: &[],
        at: 0,
    };
    let mut place = 0;
    // Calls differ in size, so no `for` and no `chunks` goes over them, and no iterator, as in `scripts::check`.
    while let Some(item) = scripts::item_at(script, place) {
        ran.make(item, left, right, out);
        place += item.size();
    }
    ran
}

// Checks a whole script and, where it is well formed and its answers have room, makes its calls on
// the pages one after another, as a board would, and writes their answers to the output. Gives how
// many bytes of the output they take.
// Both pages lent for writing go side by side, as `pages::Pair` says.
pub fn replay(
    left: &mut [u8],
    right: &mut [u8],
    script: &[u8],
    out: &mut [u8],
) -> Result<usize, ScriptError>
    ensures { ◌≡◌ {A = Outcome}
        (record {
          report = report_in result;
          left = left.new;
          right = right.new;
          out = out.new;
        })
        (replayed
        left.old
        right.old
        script.now
        out.old) }
{
    scripts::check(script, out.len())?;
    Ok(run(left, right, script, out).at)
}
