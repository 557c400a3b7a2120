// The table of lines, and which line two pages are at: the look-up of their management words. The
// definitions, and what is proved of the table, are in the crate pages.
#![tactic(auto)]

ghost use Rattle.std.specs.Prelude.{◌≡◌, Some};
ghost use Rattle.pages.specs.Pages.{table, look, status_of, standing};

use pages::{Pair, Side, State, Status};

// A state with the side that is live.
fn live_at(state: State, side: Side) -> Status
    ensures { result ≡ (record { state = state; live = Some side }) }
{
    Status {
        state,
        live: Some(side),
    }
}

// The state of a pair of words, LEFT's and RIGHT's, and its live side: those of the table's row with
// these words, or S0. Compiled, a match is a search among constants, and no table in memory.
#[tactic(auto, unfolding(pages::specs::Pages::look))]
fn look_up(left: u32, right: u32) -> Status
    ensures { result ≡ look table left right }
{
    match (left, right) {
        (0xFFFF0000, 0xFFFFFFFF) => live_at(State::S1, Side::Left),
        (0xFFFF0000, 0xFF00FFFF) => live_at(State::S2, Side::Left),
        (0xFFFF0000, 0xFF000000) => live_at(State::S3, Side::Left),
        (0xFFFF0000, 0xFFFFFF00) => live_at(State::S5, Side::Right),
        (0xFF000000, 0xFFFFFF00) => live_at(State::S6, Side::Right),
        (0xFF000000, 0xFFFF0000) => live_at(State::S7, Side::Right),
        (0xFFFFFFFF, 0xFFFF0000) => live_at(State::S8, Side::Right),
        (0xFFFFFF00, 0xFFFF0000) => live_at(State::S9, Side::Left),
        (0xFFFFFF00, 0xFF000000) => live_at(State::S10, Side::Left),
        _ => Status {
            state: State::S0,
            live: None,
        },
    }
}

// The state of two pages, and which of them is live. Called, it would store its answer byte by byte, and
// the caller would know nothing of it: put where it is called, what depends on the line is decided at once.
#[inline]
pub fn status_of(pair: Pair<'_>) -> Status
    ensures { standing result
        ≡ standing (status_of pair.entry.left.now pair.entry.right.now) }
{
    look_up(pages::word(pair.left), pages::word(pair.right))
}
