// What a read shows after a save or a format was cut: the image before it, what it was to leave, or
// another. What each verdict means is in specs/Verdicts.antt.
#![tactic(auto)]

ghost use Rattle.std.specs.Prelude.{◌≡◌, ◌≤◌, length, nat_lt};
ghost use Rattle.texts.specs.Texts.{same};
ghost use Rattle.verdicts.specs.Verdicts.{
  shown,
  old_byte,
  new_byte,
  is_new,
  is_saved,
  is_asked,
  lost_shows,
  image_verdict,
  verdict_in,
  verdict_of,
  no_cuts,
  counted,
};

use pages::{ImageOffset, MAX_PAGE, PageOffset, Pair};
use plans::Request;

// What a read shows after a cut: no image, as before; the image before, which may be the new one too;
// the new one; no image, as a format is to leave; or another.
#[derive(Clone, Copy, Debug, PartialEq, Eq)]
pub enum Verdict {
    NoImage,
    Old,
    Both,
    New,
    Gone,
    Another,
}

// How often a read showed what.
#[derive(Clone, Copy, Debug, PartialEq, Eq)]
pub struct Tally {
    pub old: u64,
    pub new: u64,
    pub another: u64,
}

// ---- what a read shows
// What a read of the whole image gives: nothing where no page is live.
// No Option: `shown` has no bytes where no page is live.
#[tactic(auto, using(crate::proofs::Laws::too_long))]
pub fn image(pair: Pair<'_>) -> &[u8]
    ensures { result.now ≡ shown pair.entry.left.now pair.entry.right.now }
{
    let size = pair.left.len();
    if MAX_PAGE < size {
        return &[];
    }
    let start = ImageOffset(0).to_page();
    reads::read(pair, start, plans::cell_count(size as u32) * 2)
}

// A byte of an image, FF where there is none.
fn old_byte(image: &[u8], at: ImageOffset) -> u8
    ensures { result ≡ old_byte image.now at }
{
    image.get(at.0 as usize).copied().unwrap_or(255)
}

// A byte of an image into which data is laid from a page offset on.
fn new_byte(image: &[u8], offset: PageOffset, data: &[u8], at: ImageOffset) -> u8
    ensures { result ≡ new_byte image.now offset «data».now at }
{
    let place = at.to_page().0;
    let old = old_byte(image, at);
    if place < offset.0 {
        return old;
    }
    let inside = (place - offset.0) as usize;
    data.get(inside).copied().unwrap_or(old)
}

fn is_new(image: &[u8], old: &[u8], offset: PageOffset, data: &[u8]) -> bool
    requires { length image.now ≤ 4096 }
    ensures { result ≡ is_new image.now old.now offset «data».now 0 }
{
    (0..image.len() as u32).zip(image).all(|(at, byte)| *byte
        == new_byte(old, offset, data, ImageOffset(at)))
}

// Whether an image is the one before the save with the data laid in at a page offset. None is longer
// than a page.
fn is_saved(image: &[u8], old: &[u8], offset: PageOffset, data: &[u8]) -> bool
    ensures { result ≡ is_saved image.now old.now offset «data».now }
{
    image.len() <= MAX_PAGE && is_new(image, old, offset, data)
}

// The verdict by two tests: whether the image is the old one, and whether it is the new one. Each is a plain
// yes or no.
#[tactic(auto, using(crate::proofs::Laws::same_pointwise))]
fn judge_image(image: &[u8], old: &[u8], new: bool) -> Verdict
    ensures { verdict_in result ≡ image_verdict (same image.now old.now) new }
{
    match (image == old, new) {
        (true, true) => Verdict::Both,
        (true, false) => Verdict::Old,
        (false, true) => Verdict::New,
        (false, false) => Verdict::Another,
    }
}

// Whether an image is the one that a request is to leave: a format leaves none.
fn is_asked(request: Request, image: &[u8], old: &[u8], offset: PageOffset, data: &[u8]) -> bool
    ensures { result
        ≡ is_asked request image.now old.now offset «data».now }
{
    match request {
        Request::Save => is_saved(image, old, offset, data),
        Request::Format => false,
    }
}

// What it is that no image is there where there was one.
fn judge_lost(request: Request) -> Verdict
    ensures { verdict_in result ≡ lost_shows request }
{
    match request {
        Request::Save => Verdict::Another,
        Request::Format => Verdict::Gone,
    }
}

// What an image that a read shows is beside the one before a format, or before a save of the data at
// a page offset. No bytes stand for no image.
#[tactic(auto, using(crate::proofs::Laws::shows, crate::proofs::Laws::lost, crate::proofs::Laws::never_there))]
pub fn judge(request: Request, image: &[u8], old: &[u8], offset: PageOffset, data: &[u8]) -> Verdict
    ensures { verdict_in result
        ≡ verdict_of request image.now old.now offset «data».now }
{
    match (image, old) {
        ([], []) => Verdict::NoImage,
        ([], _) => judge_lost(request),
        _ => judge_image(image, old, is_asked(request, image, old, offset, data)),
    }
}

impl Tally {
    pub fn new() -> Tally
        ensures { result ≡ no_cuts }
    {
        Tally {
            old: 0,
            new: 0,
            another: 0,
        }
    }

    // Whether a read showed another image.
    pub fn has_another(self) -> bool
        ensures { result ≡ nat_lt 0 self.another }
    {
        0 < self.another
    }

    // With one verdict more. No save has so many steps that a count wraps.
    pub fn with(self, verdict: Verdict) -> Tally
        ensures { result ≡ counted self (verdict_in verdict) }
    {
        match verdict {
            Verdict::NoImage | Verdict::Old | Verdict::Both => Tally {
                old: self.old.wrapping_add(1),
                ..self
            },
            Verdict::New | Verdict::Gone => Tally {
                new: self.new.wrapping_add(1),
                ..self
            },
            Verdict::Another => Tally {
                another: self.another.wrapping_add(1),
                ..self
            },
        }
    }
}
