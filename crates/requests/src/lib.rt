// Requests and their numbers: the tests of lengths, offset and length that every request meets
// before a byte of a page is looked at.
//
// What each answer means, and each number's case, is in specs/Numbers.antt.
#![tactic(auto)]

ghost use Rattle.std.specs.Prelude.{◌≡◌};
ghost use Rattle.requests.specs.Numbers.{
  number_of,
  number_in,
  lengths_number,
  pages_number,
  end_number,
  span_number,
  number_within,
  request_number,
};

use pages::PageOffset;

// Why a request is refused, whatever the pages hold: document 01's numbers 1 to 4.
#[derive(Clone, Copy, Debug, PartialEq, Eq)]
pub enum Refusal {
    PageLength = 1,
    OddRequest = 2,
    InManagement = 3,
    PastEnd = 4,
}

impl Refusal {
    // Document 01's number.
    pub fn number(self) -> u8
        ensures { result ≡ number_of self }
    {
        self as u8
    }
}

// Number 1, from the lengths of the two pages and the least and the greatest that a page may have.
#[tactic(auto, unfolding(crate::specs::Numbers::wrong_lengths))]
pub fn check_lengths(
    left: usize,
    right: usize,
    least: usize,
    greatest: usize,
) -> Result<(), Refusal>
    ensures { number_in result ≡ lengths_number least greatest left right }
{
    if left != right || left % 2 != 0 || left < least || greatest < left {
        return Err(Refusal::PageLength);
    }
    Ok(())
}

// Number 1.
#[tactic(auto, unfolding(crate::specs::Numbers::pages_number))]
pub fn check_pages(left: usize, right: usize) -> Result<(), Refusal>
    ensures { number_in result ≡ pages_number left right }
{
    check_lengths(left, right, pages::MIN_PAGE, pages::MAX_PAGE)
}

// Number 4, with no sum that could wrap.
#[tactic(auto, unfolding(crate::specs::Numbers::end_number, crate::specs::Numbers::past_end))]
fn check_end(page: usize, offset: PageOffset, len: usize) -> Result<(), Refusal>
    ensures { number_in result ≡ end_number page offset len 0 }
{
    let start = offset.0 as usize;
    if page <= start || page - start < len {
        return Err(Refusal::PastEnd);
    }
    Ok(())
}

// Numbers 2 to 4, in their order, of a request to pages of one length.
#[tactic(auto, unfolding(crate::specs::Numbers::span_number, crate::specs::Numbers::odd_request, crate::specs::Numbers::below_image))]
fn check_span(page: usize, offset: PageOffset, len: usize) -> Result<(), Refusal>
    ensures { number_in result ≡ span_number page offset len 0 }
{
    let start = offset.0;
    if start % 2 != 0 || len % 2 != 0 {
        return Err(Refusal::OddRequest);
    }
    if start < pages::MANAGEMENT_SIZE {
        return Err(Refusal::InManagement);
    }
    check_end(page, offset, len)
}

// Numbers 1 to 4, in their order, from the lengths of the pages, the least and the greatest that a
// page may have, the offset and the length asked for. No byte of a page is looked at.
#[tactic(auto, unfolding(crate::specs::Numbers::wrong_lengths))]
// Two limits by themselves, as the definition of number 1 has them.
pub fn check_within(
    left: usize,
    right: usize,
    least: usize,
    greatest: usize,
    offset: PageOffset,
    len: usize,
) -> Result<(), Refusal>
    ensures { number_in result ≡ number_within least greatest left right offset len }
{
    check_lengths(left, right, least, greatest)?;
    check_span(left, offset, len)
}

// Numbers 1 to 4.
#[tactic(auto, unfolding(crate::specs::Numbers::request_number))]
pub fn check_request(
    left: usize,
    right: usize,
    offset: PageOffset,
    len: usize,
) -> Result<(), Refusal>
    ensures { number_in result ≡ request_number left right offset len 0 }
{
    check_within(left, right, pages::MIN_PAGE, pages::MAX_PAGE, offset, len)
}
