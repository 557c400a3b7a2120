// What the benchmark calls of the library, one call at a time: the beginning of a save and one step,
// with numbers and byte buffers at the boundary. bench/plain.h has the same signatures; bench/run
// builds and measures.
//
// Each has one place that calls what it stands for: so the compiler puts it there whole. The erased
// test and both reads stand in a library of their own, bench_reads, and walks as a whole in
// bench_walks. What each answer means is in specs/Calls.antt.
#![tactic(auto)]

ghost use Rattle.std.specs.Prelude.{◌≡◌};
ghost use Rattle.walks.specs.Walks.{begin_save};
ghost use Rattle.pages.specs.Pages.{state_from};
ghost use Rattle.bench.specs.Calls.{kept_in, start_in, code_of, Stepped, step_from};

use pages::{PageOffset, Pair, State};
use plans::Request;
use walks::{Progress, Walk};

// A beginning: the number, 0 where the walk is begun, and the line and erased-or-not that it then
// keeps. What else it keeps the caller gave.
// An exported function returns no enum, and bench/plain.h has these fields: so no Result, and a bool.
#[repr(C)]
#[derive(Clone, Copy)]
pub struct Start {
    pub number: u8,
    pub line: u8,
    pub erased: bool,
}

fn kept_in(walk: Walk) -> Start
    ensures { result ≡ kept_in walk }
{
    Start {
        number: 0,
        line: walk.start.line(),
        erased: walk.erased,
    }
}

// C hands over each page by itself.
#[unsafe(no_mangle)]
pub extern "C" fn bench_begin(left: &[u8], right: &[u8], offset: u32, data: &[u8]) -> Start
    ensures { result ≡ start_in (begin_save left.now right.now (record { 0 = offset })
        «data».now) }
{
    match Walk::save(Pair { left, right }, PageOffset(offset), data) {
        Ok(walk) => kept_in(walk),
        Err(why) => Start {
            number: why.number(),
            line: 0,
            erased: false,
        },
    }
}

// ---- one step
// The state of a line number, if one has it.
fn state_of(line: u32) -> Option<State>
    ensures { result ≡ state_from line }
{
    State::of_line(u8::try_from(line).ok()?)
}

// An exported function returns no enum: the codes are those of bench/plain.h.
fn code_of(progress: Progress) -> u32
    ensures { result ≡ code_of progress }
{
    match progress {
        Progress::Made => 0,
        Progress::Ended => 1,
        Progress::Unfit => 6,
    }
}

// One step of the save that keeps these numbers; its place moves on where the step is made. A line
// that isn't in the table is answered 6.
// C hands over each number by itself (c_step in bench/plain.c), so no struct holds them.
#[unsafe(no_mangle)]
pub extern "C" fn bench_step(
    line: u32,
    erased: bool,
    page: u32,
    offset: u32,
    len: u32,
    place: &mut u32,
    left: &mut [u8],
    right: &mut [u8],
    data: &[u8],
) -> u32
    ensures { ◌≡◌ {A = Stepped}
        (record {
          code = result;
          place = place.new;
          left = left.new;
          right = right.new;
        })
        (step_from line erased page (record { 0 = offset }) len
        place.old
        left.old
        right.old
        «data».now) }
{
    let Some(state) = state_of(line) else {
        return 6;
    };
    let walk = Walk {
        request: Request::Save,
        start: state,
        erased,
        page,
        offset: PageOffset(offset),
        len,
        place: *place,
    };
    let stepped = walk.step(left, right, data);
    *place = stepped.walk.place;
    code_of(stepped.progress)
}
