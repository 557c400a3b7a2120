// Flash steps on a pair of pages: a management cell marked, an image cell programmed, or a page
// erased, on one side.
//
// A step happens whole or not at all. What each step does is in specs/Steps.antt.
#![tactic(auto)]

ghost use Rattle.std.specs.Prelude.{◌≡◌};
ghost use Rattle.flash.specs.Flash.{Outcome, number_in, programmed};
ghost use Rattle.steps.specs.declared.Step.TheVariants.{Image};
ghost use Rattle.steps.specs.Steps.{Tried, marked, imaged, tried};

use flash::StepError;
use pages::{ImageOffset, PageOffset, Side};

// A flash step and the side whose page it is made on. A mark is named by its page offset, an image
// cell by its image offset.
#[derive(Clone, Copy)]
pub enum Step {
    Mark(Side, PageOffset, u16),
    Image(Side, ImageOffset, u16),
    Erase(Side),
}

// Programs a cell of the image. It is lent the image alone and never sees a management byte.
fn program_image(image: &mut [u8], at: ImageOffset, value: u16) -> Result<(), StepError>
    ensures { ◌≡◌ {A = Outcome}
        (record { number = number_in result; bytes = image.new })
        (programmed image.old at.0 value) }
{
    flash::program(image, at.0 as usize, value)
}

fn program_cell(page: &mut [u8], at: ImageOffset, value: u16) -> Result<(), StepError>
    ensures { ◌≡◌ {A = Outcome}
        (record { number = number_in result; bytes = page.new })
        (imaged page.old at value) }
{
    let (_, image) = page
        .split_at_mut_checked(pages::MANAGEMENT_SIZE as usize)
        .ok_or(StepError::Unfit)?;
    program_image(image, at, value)
}

fn program_mark(page: &mut [u8], at: PageOffset, value: u16) -> Result<(), StepError>
    ensures { ◌≡◌ {A = Outcome}
        (record { number = number_in result; bytes = page.new })
        (marked page.old at value) }
{
    flash::program(page, at.0 as usize, value)
}

// Programs an image cell of the page of a side: the step that a save makes most, apart from the others.
// Both arms stand, here and in `make`: of two pages lent for writing `Side::pick` can't hand on one.
// Both pages lent for writing go side by side, as `pages::Pair` says.
pub fn make_image(
    side: Side,
    at: ImageOffset,
    value: u16,
    left: &mut [u8],
    right: &mut [u8],
) -> Result<(), StepError>
    ensures { ◌≡◌ {A = Tried}
        (record { number = number_in result; left = left.new; right = right.new })
        (tried (Image side at value) left.old right.old) }
{
    match side {
        Side::Left => program_cell(left, at, value),
        Side::Right => program_cell(right, at, value),
    }
}

// Makes a step on the pages, or leaves both as they were where it doesn't fit.
pub fn make(step: Step, left: &mut [u8], right: &mut [u8]) -> Result<(), StepError>
    ensures { ◌≡◌ {A = Tried}
        (record { number = number_in result; left = left.new; right = right.new })
        (tried step left.old right.old) }
{
    match step {
        Step::Mark(side, at, value) => match side {
            Side::Left => program_mark(left, at, value),
            Side::Right => program_mark(right, at, value),
        },
        Step::Image(side, at, value) => make_image(side, at, value, left, right),
        Step::Erase(side) => match side {
            Side::Left => {
                flash::erase(left);
                Ok(())
            }
            Side::Right => {
                flash::erase(right);
                Ok(())
            }
        },
    }
}
