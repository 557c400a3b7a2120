// A script of calls as bytes: the call at a place of it, and the check of the whole. The layout is
// in docs/FORMATS.md, its definitions in specs/Scripts.antt.
//
// Both are total: any bytes, any place, any room.
#![tactic(auto)]

ghost use Rattle.std.specs.Prelude.{◌≡◌, drop, option_map};
ghost use Rattle.scripts.specs.Scripts.{
  item_in,
  kind_of,
  first_of,
  verdict_in,
  found,
  checked,
};

use pages::PageOffset;

// How many bytes a call takes, not counting those of its own.
pub const HEAD_SIZE: usize = 9;

// The kinds of calls, by their numbers in the layout. `item_of` alone matches them and gives the call, so no
// enum of kinds stands between.
const SAVE: u8 = 1;

const FORMAT: u8 = 2;

const STEPS: u8 = 3;

const STEP_WITH: u8 = 4;

const READ: u8 = 5;

const READ_INTO: u8 = 6;

const CUT: u8 = 7;

// No read of more bytes than this is legal.
const MAX_PART: u32 = 4092;

// A call of a script. A save and a step with bytes have their data, and a read into an output what
// that output holds: bytes of the script that follow the head.
#[derive(Clone, Copy)]
pub enum Item<'a> {
    Save(PageOffset, &'a [u8]),
    Format,
    Steps(u32),
    StepWith(&'a [u8]),
    Read(PageOffset, u32),
    ReadInto(PageOffset, &'a [u8]),
    Cut,
}

impl Item<'_> {
    // How many bytes of the script a call takes.
    pub fn size(self) -> usize
        ensures { result ≡ (item_in self.entry).size }
    {
        match self {
            Item::Save(_, own) | Item::StepWith(own) | Item::ReadInto(_, own) => {
                HEAD_SIZE + own.len()
            }
            Item::Format | Item::Steps(_) | Item::Read(..) | Item::Cut => HEAD_SIZE,
        }
    }

    // How many bytes of the output its answers take at most.
    pub fn room(self) -> usize
        ensures { result ≡ (item_in self.entry).room }
    {
        match self {
            Item::Steps(times) => times as usize,
            Item::Read(_, len) if len <= MAX_PART => 1 + len as usize,
            Item::ReadInto(_, output) => 2 + output.len(),
            Item::Save(..) | Item::Format | Item::StepWith(_) | Item::Read(..) | Item::Cut => 1,
        }
    }
}

// The call of a kind with its two numbers, of which the second says how many of the bytes after the
// head are its own, for the kinds that have such bytes.
#[tactic(auto, using(std::proofs::lemmas::Bool::Decides::nat_tests), unfolding(crate::specs::Scripts::kind_of))]
fn item_of(kind: u8, a: u32, b: u32, rest: &[u8]) -> Option<Item<'_>>
    ensures { option_map item_in result ≡ kind_of kind a b rest.now }
{
    let own = rest.get(..b as usize);
    match kind {
        SAVE => Some(Item::Save(PageOffset(a), own?)),
        FORMAT if a == 0 && b == 0 => Some(Item::Format),
        STEPS if b == 0 => Some(Item::Steps(a)),
        STEP_WITH if a == 0 => Some(Item::StepWith(own?)),
        READ => Some(Item::Read(PageOffset(a), b)),
        READ_INTO => Some(Item::ReadInto(PageOffset(a), own?)),
        CUT if a == 0 && b == 0 => Some(Item::Cut),
        _ => None,
    }
}

// The call that begins at a place of a script, where a well-formed one does.
#[tactic(auto, using(std::proofs::lemmas::Bool::Decides::nat_tests), unfolding(crate::specs::Scripts::first_of))]
pub fn item_at(script: &[u8], at: usize) -> Option<Item<'_>>
    ensures { option_map item_in result ≡ first_of (drop at script.now) }
{
    let call = script.get(at..)?;
    let rest = call.get(HEAD_SIZE..)?;
    item_of(
        call[0],
        pages::word(&call[1..]),
        pages::word(&call[5..]),
        rest,
    )
}

// Why a script is refused, with the byte at which the first such call begins: the call is malformed,
// or its answers have no room.
#[derive(Clone, Copy, Debug, PartialEq, Eq)]
pub enum ScriptError {
    Malformed(usize),
    NoRoom(usize),
}

// Checks a whole script against the room for its answers.
#[tactic(auto, using(crate::proofs::Laws::check_bad, crate::proofs::Laws::check_end, crate::proofs::Laws::check_full))]
pub fn check(script: &[u8], room: usize) -> Result<(), ScriptError>
    ensures { verdict_in result ≡ found (checked script.now room) }
{
    let mut at = 0;
    let mut left = room;
    // Calls differ in size, so no `for` and no `chunks` goes over them. An iterator's `next` would have to say
    // of the script what `first_of` says, and hand out each place, which a refusal tells: more than is here.
    while at < script.len() {
        let item = item_at(script, at).ok_or(ScriptError::Malformed(at))?;
        let need = item.room();
        if left < need {
            return Err(ScriptError::NoRoom(at));
        }
        at += item.size();
        left -= need;
    }
    Ok(())
}
