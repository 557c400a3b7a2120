// The two reads: one hands back the asked part of the live page itself, the other fills a lent
// output.
//
// Both are total: any bytes, any lengths, any offset. Neither changes a page. The numbers are
// tested before a byte of a page is looked at, and only a copy goes through the asked bytes. What
// each answer means is in specs/Reads.antt.
#![tactic(auto)]

ghost use Rattle.std.specs.Prelude.{◌≡◌, ◌+◌, ◌≤◌, length, take, drop};
ghost use Rattle.flash.specs.Flash.{Outcome};
ghost use Rattle.pages.specs.Pages.{on_side};
ghost use Rattle.reads.specs.declared.ReadError.TheVariants.{Refused};
ghost use Rattle.reads.specs.Reads.{
  error_number,
  number_in,
  Located,
  found_in,
  located,
  read_number,
  read_part,
  filled,
};

use pages::{PageOffset, Pair, Side};
use requests::Refusal;

// Why a read gives nothing: the request is refused, or no page is live.
#[derive(Clone, Copy, Debug, PartialEq, Eq)]
pub enum ReadError {
    Refused(Refusal),
    NoLive,
}

impl ReadError {
    // Document 01's number.
    pub fn number(self) -> u8
        ensures { result ≡ error_number self }
    {
        match self {
            ReadError::Refused(why) => why.number(),
            ReadError::NoLive => 5,
        }
    }
}

impl From<Refusal> for ReadError {
    ghost from_gives = { λ why error. error ≡ Refused why };

    fn from(why: Refusal) -> ReadError {
        ReadError::Refused(why)
    }
}

// Document 01's number for how a read is answered, or 0 where the bytes are given.
pub fn number_of(reading: Result<(), ReadError>) -> u8
    ensures { result ≡ number_in reading }
{
    match reading {
        Ok(()) => 0,
        Err(error) => error.number(),
    }
}

// The side on which a read of so many bytes from the page offset on finds them; no byte is copied.
pub fn locate(pair: Pair<'_>, offset: PageOffset, len: usize) -> Result<Side, ReadError>
    ensures { ◌≡◌ {A = Located} (found_in result)
        (located pair.entry.left.now pair.entry.right.now offset len) }
{
    requests::check_request(pair.left.len(), pair.right.len(), offset, len)?;
    table::status_of(pair).live.ok_or(ReadError::NoLive)
}

// The asked bytes of the page on a side.
fn part(pair: Pair<'_>, side: Side, offset: PageOffset, len: usize) -> &[u8]
    requires { (offset.0 + len ≤ length pair.left.now)
        × (offset.0 + len ≤ length pair.right.now) }
    ensures { result.now
        ≡ take len
        (drop offset.0 (on_side side pair.entry.left.now pair.entry.right.now)) }
{
    let start = offset.0 as usize;
    let end = start + len;
    &pair.on(side)[start..end]
}

// How a read of a part is answered; no byte is copied.
pub fn check_read(pair: Pair<'_>, offset: PageOffset, len: u32) -> Result<(), ReadError>
    ensures { number_in result
        ≡ read_number pair.entry.left.now pair.entry.right.now offset len }
{
    locate(pair, offset, len as usize)?;
    Ok(())
}

// The asked part of the live page itself, with no copy; empty on every refusal.
pub fn read(pair: Pair<'_>, offset: PageOffset, len: u32) -> &[u8]
    ensures { result.now
        ≡ read_part pair.entry.left.now pair.entry.right.now offset len }
{
    let size = len as usize;
    match locate(pair, offset, size) {
        Ok(side) => part(pair, side, offset, size),
        Err(_) => &[],
    }
}

// Fills a lent output with the bytes from the offset on, as many as it has. Numbers 1 to 4 leave it
// as it was; 5 fills it with FF.
pub fn read_into(pair: Pair<'_>, offset: PageOffset, out: &mut [u8]) -> Result<(), ReadError>
    ensures { ◌≡◌ {A = Outcome} (record { number = number_in result; bytes = out.new })
        (filled pair.entry.left.now pair.entry.right.now offset out.old) }
{
    let size = out.len();
    match locate(pair, offset, size) {
        Ok(side) => {
            copies::copy(part(pair, side, offset, size), out);
            Ok(())
        }
        Err(error) => {
            if let ReadError::NoLive = error {
                flash::erase(out);
            }
            Err(error)
        }
    }
}
