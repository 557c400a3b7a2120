// Pages: the management word, the states of a pair of pages with their line numbers and live sides, and
// the two kinds of offset. Which state two pages are at is looked up in the crate table.
//
// A page is P bytes. Bytes 0 to 3 are management: Valid, Active, Dead, Spare, one 32-bit word with
// Valid lowest. Bytes 4 to P - 1 are the image. What each answer means is in specs/Pages.antt.
#![tactic(auto)]

ghost use Rattle.std.specs.Prelude.{◌≡◌, get_or, Some, codes};
ghost use Rattle.pages.specs.declared.Side.TheVariants.{Left, Right};
ghost use Rattle.pages.specs.Pages.{
  on_side,
  word_of,
  word_from,
  line_of,
  live_of,
  state_from,
};
ghost use Rattle.pages.specs.Offsets.{to_page};

use std::fmt;

// How many bytes of a page are management.
pub const MANAGEMENT_SIZE: u32 = 4;

// The least and the greatest length of a page, in bytes.
pub const MIN_PAGE: usize = 8;

pub const MAX_PAGE: usize = 4096;

#[derive(Clone, Copy, Debug, PartialEq, Eq)]
pub enum Side {
    Left,
    Right,
}

impl Side {
    // Of two things, one for each side, the one of this side.
    // Nearly all that depends on a side goes by this match.
    pub fn pick<T: Copy>(self, left: T, right: T) -> T
        ensures { result ≡ on_side self left right }
    {
        match self {
            Side::Left => left,
            Side::Right => right,
        }
    }

    // The other side.
    pub fn other(self) -> Side
        ensures { result ≡ on_side self Right Left }
    {
        self.pick(Side::Right, Side::Left)
    }
}

// Two lent pages, to be looked at. Pages that are lent for writing are handed on side by side: of a struct
// of two `&mut` every promise would have to say that it still leads to the same two pages
// (`pair.new.left.ghost_name ≡ pair.old.left.ghost_name`, and so of RIGHT), and no function can lend one
// of them by its side.
#[derive(Clone, Copy)]
pub struct Pair<'a> {
    pub left: &'a [u8],
    pub right: &'a [u8],
}

impl<'a> Pair<'a> {
    // The page of a side.
    pub fn on(self, side: Side) -> &'a [u8]
        ensures { result.now ≡ on_side side self.entry.left.now self.entry.right.now }
    {
        side.pick(self.left, self.right)
    }
}

impl fmt::Display for Side {
    ghost output = { λ side. Some (on_side side (codes "LEFT") (codes "RIGHT")) };

    fn fmt<W: fmt::Write>(&self, f: &mut fmt::Formatter<W>) -> fmt::Result {
        f.write_str(self.pick("LEFT", "RIGHT"))
    }
}

// The state of a pair of management words: a line of document 01, under its number. S1 is the lines
// 1 and 4, which hold the same words; S0 is every pair that is in no other line.
#[derive(Clone, Copy, Debug, PartialEq, Eq)]
pub enum State {
    S0 = 0,
    S1 = 1,
    S2 = 2,
    S3 = 3,
    S5 = 5,
    S6 = 6,
    S7 = 7,
    S8 = 8,
    S9 = 9,
    S10 = 10,
}

impl State {
    // Document 01's line number; 1 for the lines 1 and 4.
    pub fn line(self) -> u8
        ensures { result ≡ line_of self }
    {
        self as u8
    }

    // The state with a line number. No state has 4, which is line 1.
    pub fn of_line(line: u8) -> Option<State>
        ensures { result ≡ state_from line }
    {
        match line {
            0 => Some(State::S0),
            1 => Some(State::S1),
            2 => Some(State::S2),
            3 => Some(State::S3),
            5 => Some(State::S5),
            6 => Some(State::S6),
            7 => Some(State::S7),
            8 => Some(State::S8),
            9 => Some(State::S9),
            10 => Some(State::S10),
            _ => None,
        }
    }

    // The live side at this line, if there is one.
    #[tactic(auto, unfolding(crate::specs::Pages::live_of))]
    pub fn live(self) -> Option<Side>
        ensures { result ≡ live_of self }
    {
        match self {
            State::S0 => None,
            State::S1 | State::S2 | State::S3 | State::S9 | State::S10 => Some(Side::Left),
            State::S5 | State::S6 | State::S7 | State::S8 => Some(Side::Right),
        }
    }
}

// The state of two pages, and which of them is live, if one is.
#[derive(Clone, Copy, Debug, PartialEq, Eq)]
pub struct Status {
    pub state: State,
    pub live: Option<Side>,
}

// The byte at a place, or 0 past the end.
fn byte_at(page: &[u8], at: usize) -> u8
    ensures { result ≡ get_or page.now at 0 }
{
    page.get(at).copied().unwrap_or(0)
}

fn joined(valid: u8, active: u8, dead: u8, spare: u8) -> u32
    ensures { result ≡ word_from valid active dead spare }
{
    u32::from_le_bytes([valid, active, dead, spare])
}

// The management word of a slice that may lack some of its bytes.
#[tactic(auto, unfolding(crate::specs::Pages::word_of))]
fn short_word(page: &[u8]) -> u32
    ensures { result ≡ word_of page.now }
{
    joined(
        byte_at(page, 0),
        byte_at(page, 1),
        byte_at(page, 2),
        byte_at(page, 3),
    )
}

// The management word of a page. Bytes that a shorter slice lacks count as 0.
#[tactic(auto, unfolding(crate::specs::Pages::word_of))]
pub fn word(page: &[u8]) -> u32
    ensures { result ≡ word_of page.now }
{
    match page {
        [valid, active, dead, spare, ..] => joined(*valid, *active, *dead, *spare),
        _ => short_word(page),
    }
}

// An offset from byte 0 of a page: what requests give.
#[derive(Clone, Copy, Debug, PartialEq, Eq)]
pub struct PageOffset(pub u32);

// An offset from the first byte of the image.
#[derive(Clone, Copy, Debug, PartialEq, Eq)]
pub struct ImageOffset(pub u32);

impl ImageOffset {
    // The page offset of the same byte: the one place where 4 is added or taken. Past 32 bits it
    // stays at the last offset, where no page has a byte.
    #[tactic(auto, unfolding(crate::specs::Offsets::to_page))]
    pub fn to_page(self) -> PageOffset
        ensures { result ≡ to_page self }
    {
        PageOffset(self.0.saturating_add(MANAGEMENT_SIZE))
    }
}
