// Walks: a save or a format as a list of flash steps, begun from pages and a request and given one
// step at a time, so that a power cut can fall between any two.
//
// What holds of a walk at every moment (proved in the crates plans and model):
// 1. The list of steps is the same at every place; the walk keeps no image and no data.
// 2. The pages' line before a step is the one that the list names there.
// 3. Before the deciding store a read shows the old image, whole; from it on the new one, whole.
//
// Any walk may be made by hand and stepped on any pages: a step tests all that it relies on. What
// each beginning and each step are is in specs/Walks.antt, the list of steps in the crate plans.
#![tactic(auto)]

ghost use Rattle.std.specs.Prelude.{◌<◌, ◌≤◌, false, ◌≡◌, length, get_or};
ghost use Rattle.flash.specs.Flash.{number_in};
ghost use Rattle.requests.specs.Numbers.{number_in as check_number, request_number};
ghost use Rattle.steps.specs.Steps.{Tried};
ghost use Rattle.plans.specs.Plans.{nothing};
ghost use Rattle.plans.specs.Counts.{step_count};
ghost use Rattle.tries.specs.Tries.{attempt};
ghost use Rattle.walks.specs.Walks.{
  steps_of,
  first_walk,
  beginning_in,
  begin_save,
  begin_format,
  Outcome,
  said_in,
  wrong_format,
  wrong_numbers,
  advanced,
  step_of,
  at_place,
  Course,
  run_of,
};

use flash::StepError;
use pages::{PageOffset, Pair, State};
use plans::{Plan, Request, Spot};
use requests::Refusal;

// A walk: the request, the line and erased-or-not that it began with, P, page offset, length, and
// its place in the list.
#[derive(Clone, Copy)]
pub struct Walk {
    pub request: Request,
    pub start: State,
    // The paper's erased-or-not, with no value that goes with it.
    pub erased: bool,
    pub page: u32,
    pub offset: PageOffset,
    pub len: u32,
    pub place: u32,
}

// How a step is answered: made, no step is left, or it doesn't fit.
#[derive(Clone, Copy, PartialEq, Eq)]
pub enum Progress {
    Made,
    Ended,
    Unfit,
}

// The walk handed back, at its next place where the step was made, else as it was.
#[derive(Clone, Copy)]
pub struct Stepped {
    pub walk: Walk,
    pub progress: Progress,
}

// How far a walk was stepped: the walk handed back, how many steps were made, and what the last one
// said; Made where as many were made as were asked for.
#[derive(Clone, Copy)]
pub struct Ran {
    pub walk: Walk,
    pub steps: u32,
    pub progress: Progress,
}

// ---- beginning
// The walk of a request that is legal.
fn first_walk(request: Request, pair: Pair<'_>, offset: PageOffset, len: u32) -> Walk
    requires { length pair.left.now ≤ 4096 }
    ensures { result
        ≡ first_walk request pair.entry.left.now pair.entry.right.now offset len }
{
    let start = lines::start_of(request, pair);
    Walk {
        request,
        start: start.state,
        erased: start.erased,
        page: pair.left.len() as u32,
        offset,
        len,
        place: 0,
    }
}

// Number 1 to 4, with the lengths that a page may have as the walk's type has them.
fn check_numbers(left: usize, right: usize, offset: PageOffset, len: usize) -> Result<(), Refusal>
    ensures { check_number result ≡ request_number left right offset len 0 }
{
    requests::check_within(left, right, Walk::MIN_PAGE, Walk::MAX_PAGE, offset, len)
}

// ---- stepping
// The entry at the walk's place, tried on the pages. Image cells are asked for first, so that they take
// no turn through an entry; what else stands there is an entry, since the place lies in the list.
// Both pages lent for writing go side by side, as `pages::Pair` says.
fn try_step(walk: Walk, left: &mut [u8], right: &mut [u8], data: &[u8]) -> Result<(), StepError>
    requires { (wrong_numbers walk (length left.old) (length right.old) (length «data».now)
        ≡ false)
        × (walk.place < step_count walk.request walk.start walk.erased walk.page) }
    ensures { ◌≡◌ {A = Tried}
        (record { number = number_in result; left = left.new; right = right.new })
        (attempt
        (get_or (steps_of walk left.old right.old «data».now)
        walk.place nothing)
        left.old
        right.old) }
{
    let plan = walk.plan();
    if let Some(cell) = entries::cell_at(plan, walk.place) {
        let live = walk.start.live();
        return tries::try_cell(live, cell, walk.offset, data, left, right);
    }
    let Some(Spot::Fixed(entry)) = entries::spot_at(plan, walk.place) else {
        unreachable!()
    };
    tries::try_entry(entry, left, right)
}

// Whether a format has other than offset 4 and length 0.
fn wrong_format(request: Request, offset: PageOffset, len: u32) -> bool
    ensures { result ≡ wrong_format request offset len }
{
    match request {
        Request::Save => false,
        Request::Format => offset.0 != Walk::MANAGEMENT_SIZE || len != 0,
    }
}

// Whether the pages or the kept numbers meet 1 to 4, or P or the length of the data isn't the kept
// one, or a format's numbers are wrong.
fn wrong_numbers(walk: Walk, left: usize, right: usize, data: usize) -> bool
    ensures { result ≡ wrong_numbers walk left right «data» }
{
    let len = walk.len as usize;
    match check_numbers(left, right, walk.offset, len) {
        Err(_) => true,
        Ok(()) => {
            left != walk.page as usize
                || data != len
                || wrong_format(walk.request, walk.offset, walk.len)
        }
    }
}

impl Walk {
    // How many bytes of a page are management, and the least and greatest length of a page.
    pub const MANAGEMENT_SIZE: u32 = pages::MANAGEMENT_SIZE;

    pub const MIN_PAGE: usize = pages::MIN_PAGE;

    pub const MAX_PAGE: usize = pages::MAX_PAGE;

    // The list that a walk steps through.
    pub fn plan(self) -> Plan
        ensures { result ≡ (record {
          request = self.request;
          start = self.start;
          erased = self.erased;
          page = self.page;
        }) }
    {
        Plan {
            request: self.request,
            start: self.start,
            erased: self.erased,
            page: self.page,
        }
    }

    // How many steps a walk has.
    pub fn total(self) -> u32
        ensures { result ≡ step_count self.request self.start self.erased self.page }
    {
        self.plan().step_count()
    }

    // Begins a save of the data at a page offset: gives the walk at its first place, or says which
    // of 1 to 4 refuses it. No page byte is changed, and none is looked at before the numbers are
    // found right. Each page is looked through at most once, and only where erased-or-not counts.
    pub fn save(pair: Pair<'_>, offset: PageOffset, data: &[u8]) -> Result<Walk, Refusal>
        ensures { beginning_in result
            ≡ begin_save pair.entry.left.now pair.entry.right.now offset «data».now }
    {
        let size = data.len();
        check_numbers(pair.left.len(), pair.right.len(), offset, size)?;
        Ok(first_walk(Request::Save, pair, offset, size as u32))
    }

    // Begins a format, in the same way. Only the pages' lengths can refuse it.
    pub fn format(pair: Pair<'_>) -> Result<Walk, Refusal>
        ensures { beginning_in result
            ≡ begin_format pair.entry.left.now pair.entry.right.now }
    {
        let (left, right) = (pair.left.len(), pair.right.len());
        requests::check_lengths(left, right, Walk::MIN_PAGE, Walk::MAX_PAGE)?;
        let offset = PageOffset(Walk::MANAGEMENT_SIZE);
        Ok(first_walk(Request::Format, pair, offset, 0))
    }

    // Makes the one flash step at the walk's place and hands the walk back at the next place. At
    // the end of the list it says so, and where the step doesn't fit it says that; either way the
    // walk and both pages are as they were. The data is that of the save, and empty for a format.
    // The work doesn't grow with P, but for a step that erases a page.
    pub fn step(self, left: &mut [u8], right: &mut [u8], data: &[u8]) -> Stepped
        ensures { ◌≡◌ {A = Outcome}
            (record {
              said = said_in result.progress;
              walk = result.walk;
              left = left.new;
              right = right.new;
            })
            (step_of self left.old right.old «data».now) }
    {
        if wrong_numbers(self, left.len(), right.len(), data.len()) {
            return self.answered(Progress::Unfit);
        }
        let total = self.total();
        if total < self.place {
            return self.answered(Progress::Unfit);
        }
        if total == self.place {
            return self.answered(Progress::Ended);
        }
        match try_step(self, left, right, data) {
            Ok(()) => self.advanced().answered(Progress::Made),
            Err(StepError::Unfit) => self.answered(Progress::Unfit),
        }
    }

    // Steps the walk on until a step isn't made, at most so many times. The data is that of the save,
    // and empty for a format; a refused step and one at the end change nothing. Only the place moves,
    // so only that is carried from step to step: a walk carried whole would be loaded in one piece right
    // after its small fields were stored, for which the processor waits.
    pub fn run(self, most: u32, left: &mut [u8], right: &mut [u8], data: &[u8]) -> Ran
        ensures { ◌≡◌ {A = Course}
            (record {
              said = said_in result.progress;
              steps = result.steps;
              walk = result.walk;
              left = left.new;
              right = right.new;
            })
            (run_of most self
            left.old
            right.old
            «data».now) }
    {
        let mut place = self.place;
        // The number of steps is what is counted, and handed back.
        for steps in 0..most {
            let Stepped { walk, progress } = self.at(place).step(left, right, data);
            if progress != Progress::Made {
                return walk.ran(steps, progress);
            }
            place = walk.place;
        }
        self.at(place).ran(most, Progress::Made)
    }

    // The walk at a place of its list.
    fn at(self, place: u32) -> Walk
        ensures { result ≡ at_place self place }
    {
        Walk { place, ..self }
    }

    // The walk as far as it was stepped.
    fn ran(self, steps: u32, progress: Progress) -> Ran
        ensures { result ≡ (record { walk = self; steps = steps; progress = progress }) }
    {
        Ran {
            walk: self,
            steps,
            progress,
        }
    }

    // The walk with an answer.
    fn answered(self, progress: Progress) -> Stepped
        ensures { result ≡ (record { walk = self; progress = progress }) }
    {
        Stepped {
            walk: self,
            progress,
        }
    }

    // The walk at its next place.
    fn advanced(self) -> Walk
        requires { self.place < 4294967295 }
        ensures { result ≡ advanced self }
    {
        self.at(self.place + 1)
    }
}
