// Lines, as walks ask for them: the line and erased-or-not that a walk begins with, and whether the
// pages are at the line that a step wants.
//
// Each page is looked through at most once, and only where erased-or-not counts. What each answer
// means is in specs/Starts.antt, and what a step wants in the crate plans.
#![tactic(auto)]

ghost use Rattle.std.specs.Prelude.{◌&&◌, ◌≡◌, eqb, nat_lt};
ghost use Rattle.pages.specs.declared.State.TheVariants.{S0};
ghost use Rattle.pages.specs.Pages.{word_of, row_of, status_of};
ghost use Rattle.plans.specs.Plans.{counts, others_erased, clean, meets};
ghost use Rattle.lines.specs.Starts.{start_of, begins_in};

use pages::{Pair, Side, State, Status};
use plans::Request;

// The line of two pages, and whether what has to be blank is erased already.
#[derive(Clone, Copy, Debug, PartialEq, Eq)]
pub struct Start {
    pub state: State,
    // The paper's erased-or-not, with no value that goes with it.
    pub erased: bool,
}

// Whether erased-or-not counts at a line.
fn counts_erased(request: Request, start: State) -> bool
    ensures { result ≡ counts request start }
{
    matches!(
        (request, start),
        (_, State::S0) | (Request::Save, State::S1 | State::S8)
    )
}

// Whether both pages are erased where none is live, else the page that isn't live.
fn others_erased(live: Option<Side>, pair: Pair<'_>) -> bool
    ensures { result ≡ others_erased live pair.entry.left.now pair.entry.right.now }
{
    match live {
        None => flash::erased(pair.left) && flash::erased(pair.right),
        Some(side) => flash::erased(pair.on(side.other())),
    }
}

// Erased or not, looked for only where it counts.
fn find_erased(request: Request, start: State, live: Option<Side>, pair: Pair<'_>) -> bool
    ensures { result ≡ (counts request start
        && others_erased live pair.entry.left.now pair.entry.right.now) }
{
    counts_erased(request, start) && others_erased(live, pair)
}

// The line of the pages and, where it counts for the request, whether both pages (at line 0) or the
// page that isn't live (elsewhere) are erased; else not.
pub fn start_of(request: Request, pair: Pair<'_>) -> Start
    ensures { begins_in result
        ≡ begins_in (start_of request pair.entry.left.now pair.entry.right.now) }
{
    let Status { state, live } = table::status_of(pair);
    Start {
        state,
        erased: find_erased(request, state, live, pair),
    }
}

// The words of LEFT and RIGHT in a state's row; of S0, which has none, zeros.
// An arm for each line, in the paper's order; from words to states goes the look-up of `table`.
fn row_words(state: State) -> (u32, u32)
    ensures left { result.0 ≡ (row_of state).left }
    ensures right { result.1 ≡ (row_of state).right }
{
    match state {
        State::S0 => (0, 0),
        State::S1 => (0xFFFF0000, 0xFFFFFFFF),
        State::S2 => (0xFFFF0000, 0xFF00FFFF),
        State::S3 => (0xFFFF0000, 0xFF000000),
        State::S5 => (0xFFFF0000, 0xFFFFFF00),
        State::S6 => (0xFF000000, 0xFFFFFF00),
        State::S7 => (0xFF000000, 0xFFFF0000),
        State::S8 => (0xFFFFFFFF, 0xFFFF0000),
        State::S9 => (0xFFFFFF00, 0xFFFF0000),
        State::S10 => (0xFFFFFF00, 0xFF000000),
    }
}

// Whether the pages hold the two words of a state's row.
fn has_words(pair: Pair<'_>, state: State) -> bool
    ensures { result ≡ (eqb (word_of pair.entry.left.now) (row_of state).left
        && eqb (word_of pair.entry.right.now) (row_of state).right) }
{
    let (left_word, right_word) = row_words(state);
    pages::word(pair.left) == left_word && pages::word(pair.right) == right_word
}

// Whether a page has another Spare than FF, or none at all.
fn lacks_spare(page: &[u8]) -> bool
    ensures { result ≡ nat_lt (word_of page.now) 4278190080 }
{
    page.get(3).copied().unwrap_or(0) != 0xFF
}

// Whether the pages are at line 0: no row has their words. Every row's RIGHT has Spare FF, so that
// one byte is asked first: where a step has just programmed it, the whole word would have to be
// waited for.
fn is_none(pair: Pair<'_>) -> bool
    ensures { result
        ≡ meets S0 (status_of pair.entry.left.now pair.entry.right.now).state }
{
    lacks_spare(pair.right) || table::status_of(pair).state == State::S0
}

// Whether the pages are at a line. The line is known, so its row's two words say it; only line 0
// needs the whole look-up.
pub fn is_at(pair: Pair<'_>, wanted: State) -> bool
    ensures { result
        ≡ meets wanted (status_of pair.entry.left.now pair.entry.right.now).state }
{
    if wanted == State::S0 {
        return is_none(pair);
    }
    has_words(pair, wanted)
}

// Whether the pages are at the line at which image cells are programmed, from the live side. It is
// `is_at` of that line with the row known: what nearly every step of a save asks.
pub fn is_clean(pair: Pair<'_>, live: Option<Side>) -> bool
    ensures { result
        ≡ meets (clean live)
        (status_of pair.entry.left.now pair.entry.right.now).state }
{
    match live {
        None => is_none(pair),
        Some(side) => has_words(pair, side.pick(State::S1, State::S8)),
    }
}
