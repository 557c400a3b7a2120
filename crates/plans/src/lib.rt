// Plans: the list of flash steps of a save or a format, from the line and erased-or-not that it
// begins with and P, and how many they are.
//
// What the list is, and why it is safe to cut between any two steps, is in specs/Plans.antt and
// proofs/Begins.antt. What stands at a place of it is looked up in the crate entries.
#![tactic(auto)]

ghost use Rattle.std.specs.Prelude.{◌≡◌};
ghost use Rattle.plans.specs.Counts.{cell_count, added, format_count, step_count};

use pages::{ImageOffset, Side, State};
use steps::Step;

#[derive(Clone, Copy, PartialEq, Eq)]
pub enum Request {
    Save,
    Format,
}

// An entry of the list of steps: the state of the pages before it, the flash step, and whether it
// is the deciding store.
#[derive(Clone, Copy)]
pub struct Entry {
    pub state: State,
    pub step: Step,
    // A plain yes or no of the paper, with no value that goes with it.
    pub commits: bool,
}

// An image cell: the side that it is programmed on and its image offset.
#[derive(Clone, Copy)]
pub struct ImageCell {
    pub side: Side,
    pub at: ImageOffset,
}

// What stands at a place of the list: an entry, or an image cell with the line before it.
#[derive(Clone, Copy)]
pub enum Spot {
    Fixed(Entry),
    Cell(State, ImageCell),
}

// A list of steps: the request, the line and erased-or-not that it begins with, and P.
#[derive(Clone, Copy)]
pub struct Plan {
    pub request: Request,
    pub start: State,
    // The paper's erased-or-not, with no value that goes with it.
    pub erased: bool,
    pub page: u32,
}

impl Plan {
    // How many steps the list has.
    #[tactic(auto, using(crate::proofs::Counts::bound))]
    pub fn step_count(self) -> u32
        ensures { result ≡ step_count self.request self.start self.erased self.page }
    {
        match self.request {
            Request::Save => cell_count(self.page) + added_steps(self.start, self.erased),
            Request::Format => format_steps(self.start, self.erased),
        }
    }
}

// ---- how many steps
// What a save's steps are more than its image cells, 3 of them after these and the others before.
// Erased or not stands first: compiled, that is a small table for each and no jump, which every step of
// a save would make twice. The paper counts by line and erased-or-not, so a yes or no is handed over.
pub fn added_steps(start: State, erased: bool) -> u32
    ensures { result ≡ added start erased }
{
    match (erased, start) {
        (true, State::S0 | State::S1 | State::S8) => 3,
        (_, State::S1 | State::S3 | State::S7 | State::S8) => 4,
        (_, State::S2 | State::S6 | State::S10) => 5,
        (_, State::S0 | State::S5 | State::S9) => 6,
    }
}

// The steps of a format: none where both pages are erased.
// As in `added_steps`, erased-or-not is the paper's yes or no.
fn format_steps(start: State, erased: bool) -> u32
    ensures { result ≡ format_count start erased }
{
    if erased && start == State::S0 { 0 } else { 3 }
}

// The image cells of a page.
pub fn cell_count(page: u32) -> u32
    ensures { result ≡ cell_count page }
{
    page.saturating_sub(pages::MANAGEMENT_SIZE) / 2
}
