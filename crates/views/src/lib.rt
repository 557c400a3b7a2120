// What the programs print alike: the words and the line of two pages, flash steps, how many a walk has
// and which decides, what a read shows, and the rows of an image. The layouts are in docs/FORMATS.md.
//
// What is printed of a read is in specs/Views.antt. Nothing here prints the end of a line, but the rows
// of an image.
#![tactic(auto)]

ghost use Rattle.std.specs.Prelude.{◌≡◌, Some};
ghost use Rattle.views.specs.Views.{event_of, event_name, shown_text, tally_text, cut_tally_text};

use pages::{ImageOffset, Pair, Status};
use plans::{Entry, Request, Spot};
use prints::Printable;
use std::{fmt, str};
use steps::Step;
use verdicts::{Tally, Verdict};
use walks::Walk;

// ---- the pages
// The line of two pages, and which of them is live.
#[derive(Clone, Copy)]
pub struct Line<'a>(pub Pair<'a>);

impl fmt::Display for Line<'_> {
    fn fmt<W: fmt::Write>(&self, f: &mut fmt::Formatter<W>) -> fmt::Result {
        let Status { state, live } = table::status_of(self.0);
        let line = state.line();
        match live {
            None => write!(f, "line {line}, no page is live"),
            Some(side) => write!(f, "line {line}, {side} is live"),
        }
    }
}

// The words of two pages, and their line.
#[derive(Clone, Copy)]
pub struct Words<'a>(pub Pair<'a>);

impl fmt::Display for Words<'_> {
    fn fmt<W: fmt::Write>(&self, f: &mut fmt::Formatter<W>) -> fmt::Result {
        let Words(pair) = *self;
        write!(
            f,
            "LEFT {:08X}, RIGHT {:08X}: {}",
            pages::word(pair.left),
            pages::word(pair.right),
            Line(pair)
        )
    }
}

// ---- flash steps
// A value as the programs say it in words.
#[derive(Clone, Copy)]
pub struct InWords<T>(pub T);

impl fmt::Display for InWords<Step> {
    fn fmt<W: fmt::Write>(&self, f: &mut fmt::Formatter<W>) -> fmt::Result {
        match self.0 {
            Step::Mark(side, at, value) => {
                write!(f, "program cell {} of {side} to {value:04X}", at.0)
            }
            Step::Image(side, at, value) => write!(
                f,
                "program the image cell at {} of {side} to {value:04X}",
                at.to_page().0
            ),
            Step::Erase(side) => write!(f, "erase {side}"),
        }
    }
}

// A step of a walk, with what it is to the walk.
impl fmt::Display for InWords<Entry> {
    fn fmt<W: fmt::Write>(&self, f: &mut fmt::Formatter<W>) -> fmt::Result {
        let Entry { step, commits, .. } = self.0;
        let deciding = if commits { ", the deciding store" } else { "" };
        write!(f, "{}{deciding}", InWords(step))
    }
}

// ---- walks
// What stands at a place of a walk.
pub fn spot(walk: Walk, place: u32) -> Option<Spot> {
    entries::spot_at(walk.plan(), place)
}

fn decides(walk: Walk, place: u32) -> bool {
    matches!(
        spot(walk, place),
        Some(Spot::Fixed(Entry { commits: true, .. }))
    )
}

// Which step of a walk is its deciding store, from 1, if it has one.
pub fn deciding(walk: Walk) -> Option<u32> {
    (1..=walk.total()).find(|step| decides(walk, step - 1))
}

// How many steps a walk has, and which of them decides. Only a walk with no steps has none that does.
#[derive(Clone, Copy)]
pub struct Counts(pub Walk);

impl fmt::Display for Counts {
    fn fmt<W: fmt::Write>(&self, f: &mut fmt::Formatter<W>) -> fmt::Result {
        match deciding(self.0) {
            Some(step) => write!(
                f,
                "{} steps, the deciding store is step {step}",
                self.0.total()
            ),
            None => write!(f, "0 steps, none is needed"),
        }
    }
}

// ---- what a read shows
// What was under way: a save, a format, or nothing, and then the power was cut.
#[derive(Clone, Copy)]
pub enum Event {
    Save,
    Format,
    Cut,
}

impl From<Request> for Event {
    ghost from_gives = { λ request event. event ≡ event_of request };

    fn from(request: Request) -> Event {
        match request {
            Request::Save => Event::Save,
            Request::Format => Event::Format,
        }
    }
}

impl fmt::Display for Event {
    ghost output = { λ event. Some (event_name event) };

    fn fmt<W: fmt::Write>(&self, f: &mut fmt::Formatter<W>) -> fmt::Result {
        match self {
            Event::Save => write!(f, "save"),
            Event::Format => write!(f, "format"),
            Event::Cut => write!(f, "cut"),
        }
    }
}

// What a read does, after `a read `.
#[derive(Clone, Copy)]
pub struct Shown {
    pub verdict: Verdict,
    pub event: Event,
}

impl fmt::Display for Shown {
    ghost output = { λ shown. Some (shown_text shown.verdict shown.event) };

    fn fmt<W: fmt::Write>(&self, f: &mut fmt::Formatter<W>) -> fmt::Result {
        match self.verdict {
            Verdict::NoImage => write!(f, "is answered 5, as before the {}", self.event),
            Verdict::Old => write!(f, "shows the old image, whole"),
            Verdict::Both => write!(f, "shows the old image, whole, which is the new one too"),
            Verdict::New => write!(f, "shows the new image, whole"),
            Verdict::Gone => write!(f, "is answered 5, as the format has it"),
            Verdict::Another => write!(f, "shows ANOTHER IMAGE"),
        }
    }
}

// How often a read showed what.
impl fmt::Display for InWords<Tally> {
    ghost output = { λ tally. Some (tally_text tally.0) };

    fn fmt<W: fmt::Write>(&self, f: &mut fmt::Formatter<W>) -> fmt::Result {
        let Tally { old, new, another } = self.0;
        write!(f, "old image: {old}, new image: {new}, another: {another}")
    }
}

// The last line of a run that cuts a walk so many times.
#[derive(Clone, Copy)]
pub struct CutTally {
    pub cuts: u64,
    pub tally: Tally,
}

impl fmt::Display for CutTally {
    ghost output = { λ it. Some (cut_tally_text it.cuts it.tally) };

    fn fmt<W: fmt::Write>(&self, f: &mut fmt::Formatter<W>) -> fmt::Result {
        let CutTally { cuts, tally } = *self;
        let start = if tally.has_another() { "failed" } else { "ok" };
        let unit = if cuts == 1 { "cut" } else { "cuts" };
        write!(f, "{start}: {cuts} {unit}, {}", InWords(tally))
    }
}

// ---- bytes
// A hexadecimal digit.
fn digit(value: u8) -> u8 {
    b"0123456789ABCDEF"[usize::from(value % 16)]
}

// Bytes in hexadecimal, two digits each.
#[derive(Clone, Copy)]
pub struct Hex<'a> {
    pub bytes: &'a [u8],
    // A plain yes or no: whether a blank stands before each.
    pub parted: bool,
}

impl fmt::Display for Hex<'_> {
    // The digits are handed on for some bytes together: byte by byte that takes several times as long.
    fn fmt<W: fmt::Write>(&self, f: &mut fmt::Formatter<W>) -> fmt::Result {
        for part in self.bytes.chunks(ROW) {
            let mut text = [0u8; 3 * ROW];
            let mut end = 0;
            for byte in part {
                for shown in [b' ', digit(*byte / 16), digit(*byte)] {
                    if self.parted || shown != b' ' {
                        if let Some(place) = text.get_mut(end) {
                            *place = shown;
                            end += 1;
                        }
                    }
                }
            }
            f.write_str(str::from_utf8(text.get(..end).unwrap_or(b"")).unwrap_or(""))?;
        }
        Ok(())
    }
}

// ---- rows of an image
// How many bytes a row has.
const ROW: usize = 16;

// The rows of an image, each with the end of its line: by itself, with the rows that hold FF only
// folded; or beside an earlier one, with the bytes in brackets that the earlier one doesn't have, and
// the rows with none folded. An earlier image of another length counts as none.
#[derive(Clone, Copy)]
pub struct Rows<'a> {
    pub image: &'a [u8],
    pub before: Option<&'a [u8]>,
}

// The page offset of a byte of an image.
fn page_offset(at: usize) -> u32 {
    ImageOffset(u32::try_from(at).unwrap_or(u32::MAX))
        .to_page()
        .0
}

// Which rows are folded: those that hold FF only, or those in which no byte changed.
#[derive(Clone, Copy)]
enum Fold {
    Erased,
    Unchanged,
}

impl Fold {
    fn takes(self, row: &[u8], before: &[u8]) -> bool {
        match self {
            Fold::Erased => flash::erased(row),
            Fold::Unchanged => row == before,
        }
    }
}

// What all rows of a run have that is folded.
impl fmt::Display for Fold {
    fn fmt<W: fmt::Write>(&self, f: &mut fmt::Formatter<W>) -> fmt::Result {
        match self {
            Fold::Erased => write!(f, "all FF"),
            Fold::Unchanged => write!(f, "as before"),
        }
    }
}

// A run of rows that is folded, from an image offset up to another; nothing where it is empty.
#[derive(Clone, Copy)]
struct Folded {
    from: usize,
    to: usize,
    fold: Fold,
}

impl fmt::Display for Folded {
    fn fmt<W: fmt::Write>(&self, f: &mut fmt::Formatter<W>) -> fmt::Result {
        let Folded { from, to, fold } = *self;
        if to <= from {
            return Ok(());
        }
        writeln!(
            f,
            "{:>6} to {}  {fold}",
            page_offset(from),
            page_offset(to - 1)
        )
    }
}

// A row from an image offset on, beside the earlier one.
#[derive(Clone, Copy)]
struct Row<'a> {
    at: usize,
    bytes: &'a [u8],
    before: &'a [u8],
}

impl fmt::Display for Row<'_> {
    fn fmt<W: fmt::Write>(&self, f: &mut fmt::Formatter<W>) -> fmt::Result {
        write!(f, "{:>6} ", page_offset(self.at))?;
        for (byte, before) in self.bytes.iter().zip(self.before) {
            if byte == before {
                write!(f, " {byte:02X} ")?;
            } else {
                write!(f, "[{byte:02X}]")?;
            }
        }
        // Four blanks for each byte that a short row lacks: nothing but their number is counted.
        for _ in self.bytes.len()..ROW {
            write!(f, "    ")?;
        }
        writeln!(f, " |{}|", Printable(self.bytes))
    }
}

impl fmt::Display for Rows<'_> {
    fn fmt<W: fmt::Write>(&self, f: &mut fmt::Formatter<W>) -> fmt::Result {
        let Rows { image, before } = *self;
        let (earlier, fold) = match before {
            Some(before) if before.len() == image.len() => (before, Fold::Unchanged),
            _ => (image, Fold::Erased),
        };
        let rows = image.chunks(ROW).zip(earlier.chunks(ROW));
        let mut from = 0;
        for (at, (bytes, before)) in (0..image.len()).step_by(ROW).zip(rows) {
            if !fold.takes(bytes, before) {
                let to = at;
                write!(
                    f,
                    "{}{}",
                    Folded { from, to, fold },
                    Row { at, bytes, before }
                )?;
                from = at.saturating_add(bytes.len());
            }
        }
        let to = image.len();
        write!(f, "{}", Folded { from, to, fold })
    }
}
