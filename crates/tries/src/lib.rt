// Entries of the list of steps, tried on the pages: the line first, then the flash step. One that
// isn't made leaves both pages as they were.
//
// Any entry may be tried on any pages. What a try is, is in specs/Tries.antt; the list of steps is the
// crate plans'.
#![tactic(auto)]

ghost use Rattle.std.specs.Prelude.{◌≡◌};
ghost use Rattle.flash.specs.Flash.{number_in};
ghost use Rattle.pages.specs.Offsets.{image_of};
ghost use Rattle.steps.specs.Steps.{Tried};
ghost use Rattle.images.specs.Images.{image_on, or_blank};
ghost use Rattle.tries.specs.Tries.{attempt, cell_entry};

use flash::StepError;
use pages::{PageOffset, Pair, Side};
use plans::{Entry, ImageCell};

// An entry of the list, tried on the pages: its line first, then its flash step.
// Both pages lent for writing go side by side, as `pages::Pair` says.
pub fn try_entry(x: Entry, left: &mut [u8], right: &mut [u8]) -> Result<(), StepError>
    ensures { ◌≡◌ {A = Tried}
        (record { number = number_in result; left = left.new; right = right.new })
        (attempt x left.old right.old) }
{
    if lines::is_at(Pair { left, right }, x.state) {
        return steps::make(x.step, left, right);
    }
    Err(StepError::Unfit)
}

// The image of a page: all of it from byte 4 on.
fn image_of(page: &[u8]) -> &[u8]
    ensures { result.now ≡ image_of page.now }
{
    page.get(pages::MANAGEMENT_SIZE as usize..).unwrap_or(&[])
}

// The image that the new one is made from: nothing where no page is live.
fn old_image(live: Option<Side>, pair: Pair<'_>) -> &[u8]
    ensures { result.now
        ≡ or_blank 0 (image_on live pair.entry.left.now pair.entry.right.now) }
{
    match live {
        None => &[],
        Some(side) => image_of(pair.on(side)),
    }
}

// An image cell of the page of a side, tried on the pages: the entry that a save of the data has for
// it, with its number made from the image on the live side. It is apart from `try_entry` since nearly
// every step of a save is one: no entry is built.
// The six parameters are what `cell_entry` has.
pub fn try_cell(
    live: Option<Side>,
    cell: ImageCell,
    offset: PageOffset,
    data: &[u8],
    left: &mut [u8],
    right: &mut [u8],
) -> Result<(), StepError>
    ensures { ◌≡◌ {A = Tried}
        (record { number = number_in result; left = left.new; right = right.new })
        (attempt
        (cell_entry live cell.side cell.at offset
        «data».now
        left.old
        right.old)
        left.old
        right.old) }
{
    let pair = Pair { left, right };
    if !lines::is_clean(pair, live) {
        return Err(StepError::Unfit);
    }
    let value = images::new_cell(old_image(live, pair), offset, data, cell.at);
    steps::make_image(cell.side, cell.at, value, left, right)
}
