// Entries: what stands at a place of the list of steps of a save or a format.
//
// A place is looked up without going through the list: the steps before the image cells, the cells,
// and the marks after them each have their own. The list, and what an answer here means, is in
// specs/ of the crate plans.
#![tactic(auto)]

ghost use Rattle.std.specs.Prelude.{◌<◌, false, ◌≡◌, length, get_or};
ghost use Rattle.plans.specs.declared.Request.TheVariants.{Save};
ghost use Rattle.plans.specs.Plans.{
  mark,
  ready,
  erases_both,
  target,
  clean,
  marks,
  formatting,
  nothing,
};
ghost use Rattle.plans.specs.Counts.{step_count};
ghost use Rattle.plans.specs.Spots.{Stands, Programs, save_spot, cell_of};

use pages::{ImageOffset, PageOffset, Side, State};
use plans::{Entry, ImageCell, Plan, Request, Spot};
use steps::Step;

// ---- the entries of the list
// One of the erases of both pages.
fn erase_entry(place: u32) -> Entry
    ensures { result ≡ get_or erases_both place nothing }
{
    let side = if place == 1 { Side::Right } else { Side::Left };
    Entry {
        state: State::S0,
        step: Step::Erase(side),
        commits: false,
    }
}

// The first step before the image cells of a save that begins at a line, with nothing erased.
// An arm for each line, in the paper's order, so that it can be read beside the paper.
#[tactic(auto, unfolding(pages::specs::Pages::live_of))]
fn first_step(state: State) -> Step
    ensures { result ≡ (get_or (ready state false) 0 nothing).step }
{
    match state {
        State::S0 => Step::Mark(Side::Right, PageOffset(2), 0x0000),
        State::S1 => Step::Erase(Side::Right),
        State::S2 => Step::Mark(Side::Right, PageOffset(0), 0x0000),
        State::S3 => Step::Erase(Side::Right),
        State::S5 => Step::Mark(Side::Left, PageOffset(2), 0xFF00),
        State::S6 => Step::Mark(Side::Right, PageOffset(0), 0x0000),
        State::S7 => Step::Erase(Side::Left),
        State::S8 => Step::Erase(Side::Left),
        State::S9 => Step::Mark(Side::Right, PageOffset(2), 0xFF00),
        State::S10 => Step::Mark(Side::Left, PageOffset(0), 0x0000),
    }
}

// The line after it, where another step follows before the image cells.
// Its arms are in the paper's order, as those of `first_step`.
#[tactic(auto, unfolding(pages::specs::Pages::live_of))]
fn next_state(state: State) -> State
    ensures { result ≡ (get_or (ready state false) 1 nothing).state }
{
    match state {
        State::S0 => State::S0,
        State::S1 => State::S0,
        State::S2 => State::S3,
        State::S3 => State::S0,
        State::S5 => State::S6,
        State::S6 => State::S7,
        State::S7 => State::S0,
        State::S8 => State::S0,
        State::S9 => State::S10,
        State::S10 => State::S3,
    }
}

// That step as an entry.
#[tactic(auto, using(plans::proofs::Laws::head_entry))]
fn first_entry(state: State) -> Entry
    ensures { result ≡ get_or (ready state false) 0 nothing }
{
    Entry {
        state,
        step: first_step(state),
        commits: false,
    }
}

// A step before the image cells of a save, with nothing erased.
fn ready_entry(start: State, place: u32) -> Entry
    requires { place < length (ready start false) }
    ensures { result ≡ get_or (ready start false) place nothing }
{
    match place {
        0 => first_entry(start),
        _ if start == State::S0 => erase_entry(place - 1),
        1 => first_entry(next_state(start)),
        _ => first_entry(next_state(next_state(start))),
    }
}

// A step of a format that isn't empty.
#[tactic(auto, using(plans::proofs::Laws::format_first, plans::proofs::Laws::format_later))]
fn format_entry(start: State, place: u32) -> Entry
    ensures { result ≡ get_or (formatting start false) place nothing }
{
    if place == 0 {
        marking(start, Side::Right, 2, 0x0000, true)
    } else {
        erase_entry(place - 1)
    }
}

// The line while image cells are programmed, and the side whose page they are programmed on.
fn clean_state(live: Option<Side>) -> State
    ensures { result ≡ clean live }
{
    live.map_or(State::S0, |side| side.pick(State::S1, State::S8))
}

fn target_side(live: Option<Side>) -> Side
    ensures { result ≡ target live }
{
    live.map_or(Side::Left, Side::other)
}

// The entry of a management cell that is programmed to a number. Whether it is the deciding store is the
// entry's own yes or no, handed through.
fn marking(state: State, side: Side, cell: u32, value: u16, commits: bool) -> Entry
    ensures { result ≡ (record { state = state; step = mark side cell value; commits = commits }) }
{
    Entry {
        state,
        step: Step::Mark(side, PageOffset(cell), value),
        commits,
    }
}

// A mark after the image cells. Where no page was live: the deciding store on LEFT, then RIGHT Dead
// and out of use. Where the page of a side was: the deciding store, Dead on that page, Active on the
// new one.
fn mark_entry(live: Option<Side>, place: u32) -> Entry
    requires { place < 3 }
    ensures { result ≡ get_or (marks live) place nothing }
{
    let (state, side, cell, value) = match (live, place) {
        (None, 0) => (State::S0, Side::Left, 0, 0x0000),
        (None, 1) => (State::S1, Side::Right, 2, 0xFF00),
        (None, _) => (State::S2, Side::Right, 0, 0x0000),
        (Some(side), 0) => (side.pick(State::S1, State::S8), side.other(), 0, 0xFF00),
        (Some(side), 1) => (side.pick(State::S5, State::S9), side, 2, 0xFF00),
        (Some(side), _) => (side.pick(State::S6, State::S10), side.other(), 0, 0x0000),
    };
    marking(state, side, cell, value, place == 0)
}

// ---- what stands at a place
#[tactic(auto, using(plans::proofs::Counts::ready_length, plans::proofs::Laws::ready_inside, plans::proofs::Spots::spot_cell_lem, plans::proofs::Spots::spot_mark, plans::proofs::Spots::spot_ready))]
fn save_spot(plan: Plan, place: u32) -> Spot
    requires { place < step_count Save plan.start plan.erased plan.page }
    ensures { result ≡ save_spot plan.start plan.erased plan.page place }
{
    let before = plans::added_steps(plan.start, plan.erased) - 3;
    if place < before {
        return Spot::Fixed(ready_entry(plan.start, place));
    }
    let live = plan.start.live();
    let cell = place - before;
    let cells = plans::cell_count(plan.page);
    if cell < cells {
        let side = target_side(live);
        let at = ImageOffset(cell * 2);
        Spot::Cell(clean_state(live), ImageCell { side, at })
    } else {
        Spot::Fixed(mark_entry(live, cell - cells))
    }
}

// What stands at a place of a list on pages of P bytes, whatever the new image is; nothing at its end
// and beyond.
pub fn spot_at(plan: Plan, place: u32) -> Option<Spot>
    ensures { Stands plan.request plan.start plan.erased plan.page place result }
{
    if plan.step_count() <= place {
        return None;
    }
    match plan.request {
        Request::Save => Some(save_spot(plan, place)),
        Request::Format => Some(Spot::Fixed(format_entry(plan.start, place))),
    }
}

// The image cell at a place of a save's list.
#[tactic(auto, using(plans::proofs::Counts::ready_length, plans::proofs::Spots::spot_cell_lem, plans::proofs::Spots::spot_mark, plans::proofs::Spots::spot_ready))]
fn save_cell(plan: Plan, place: u32) -> Option<ImageCell>
    ensures { result ≡ cell_of (save_spot plan.start plan.erased plan.page place) }
{
    let cell = place.checked_sub(plans::added_steps(plan.start, plan.erased) - 3)?;
    if cell < plans::cell_count(plan.page) {
        let side = target_side(plan.start.live());
        let at = ImageOffset(cell * 2);
        Some(ImageCell { side, at })
    } else {
        None
    }
}

// The image cell that stands at a place of the list, if one does: nearly every step of a save is
// one, so a walk asks for it before it asks what else stands there.
pub fn cell_at(plan: Plan, place: u32) -> Option<ImageCell>
    ensures { Programs plan.request plan.start plan.erased plan.page place result }
{
    match plan.request {
        Request::Save => save_cell(plan, place),
        Request::Format => None,
    }
}
