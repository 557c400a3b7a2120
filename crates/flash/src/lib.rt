// Flash leaves: cells and flash steps over the bytes of a page, or of any part of one that is lent.
//
// A cell is 16 bits at an even place, low byte first, and is named by that place. A step happens
// whole or not at all; one that is refused changes no byte. What each answer means is in
// specs/Flash.antt.
#![tactic(auto)]

ghost use Rattle.std.specs.Prelude.{◌≡◌, eqb};
ghost use Rattle.flash.specs.Flash.{
  Outcome,
  cell_number,
  cell_of,
  number_in,
  programmed,
  erasure,
  is_erased,
};

// How many bytes the erased test looks at before it can stop.
const BLOCK: usize = 64;

// Why a step isn't made: it would turn a 0 bit into a 1, or names no cell.
#[derive(Clone, Copy, Debug, PartialEq, Eq)]
pub enum StepError {
    Unfit,
}

// The number of two bytes, low byte first.
fn joined(low: u8, high: u8) -> u16
    ensures { result ≡ cell_number low high }
{
    u16::from_le_bytes([low, high])
}

// The number of the cell at a place; none where the place is odd or a byte of the cell lies past the end.
#[tactic(auto, unfolding(crate::specs::Flash::cell_of, crate::specs::Flash::is_cell))]
pub fn cell_at(page: &[u8], at: usize) -> Option<u16>
    ensures { result ≡ cell_of page.now at }
{
    if at % 2 != 0 || page.len() <= at || page.len() <= at + 1 {
        return None;
    }
    Some(joined(page[at], page[at + 1]))
}

// Programs the cell at a place: every bit becomes old AND new. A step that would turn a 0 bit into
// a 1, or that names no cell, isn't made and changes nothing.
#[tactic(auto, using(crate::proofs::Laws::holds_inside, crate::proofs::Laws::step_unfit, crate::proofs::Laws::step_nowhere, crate::proofs::Laws::refused, crate::proofs::Laws::step_laid))]
pub fn program(page: &mut [u8], at: usize, value: u16) -> Result<(), StepError>
    ensures { ◌≡◌ {A = Outcome}
        (record { number = number_in result; bytes = page.new })
        (programmed page.old at value) }
{
    let old = cell_at(page, at).ok_or(StepError::Unfit)?;
    let kept = old & value;
    if kept != value {
        return Err(StepError::Unfit);
    }
    page[at..at + 2].copy_from_slice(&kept.to_le_bytes());
    Ok(())
}

// Erases the page, or the part lent: every byte becomes FF.
pub fn erase(page: &mut [u8])
    ensures { page.new ≡ erasure page.old }
{
    // (slower: `page.fill(255)`, which stores the last byte by itself)
    for byte in page.iter_mut() {
        *byte = 255;
    }
}

// Eight bytes as one number, which has every bit set exactly if each byte is FF. Compiled, it is one load.
#[tactic(auto, using(crate::proofs::Laws::eight_full))]
fn number(eight: &[u8; 8]) -> u64
    ensures { eqb result 18446744073709551615 ≡ is_erased eight.now }
{
    u64::from_le_bytes(*eight)
}

// Whether a block is all FF: its eights are joined by AND, with no way out between them.
#[tactic(auto, using(crate::proofs::Laws::and_true, crate::proofs::Laws::eight_joined), unfolding(crate::specs::Flash::is_erased))]
fn block_erased(block: &[u8; BLOCK]) -> bool
    ensures { result ≡ is_erased block.now }
{
    let (eights, _) = block.as_chunks::<8>();
    let mut all = u64::MAX;
    for eight in eights {
        all &= number(eight);
    }
    all == u64::MAX
}

// Whether every byte is FF, one by one.
fn bytes_erased(page: &[u8]) -> bool
    ensures { result ≡ is_erased page.now }
{
    // (slower: `page.iter().all(|byte| *byte == 255)`, at pages used near the start)
    for byte in page {
        if *byte != 255 {
            return false;
        }
    }
    true
}

// Whether every byte is FF, eight at a time and any rest one by one.
fn eights_erased(page: &[u8]) -> bool
    ensures { result ≡ is_erased page.now }
{
    let (eights, rest) = page.as_chunks::<8>();
    eights.iter().all(|eight| number(eight) == u64::MAX) && bytes_erased(rest)
}

// Whether every byte is FF; of no bytes, yes. It stops after the first block that isn't all FF.
fn blocks_erased(page: &[u8]) -> bool
    ensures { result ≡ is_erased page.now }
{
    let (blocks, rest) = page.as_chunks::<BLOCK>();
    blocks.iter().all(|block| block_erased(block)) && eights_erased(rest)
}

// Whether every byte is FF; of no bytes, yes. The first byte is looked at by itself: most pages in use
// show by it, and a wider load would wait for one that was just stored.
#[tactic(auto, using(crate::proofs::Laws::first_used, crate::proofs::Laws::none_erased))]
pub fn erased(page: &[u8]) -> bool
    ensures { result ≡ is_erased page.now }
{
    page.is_empty() || page[0] == 255 && blocks_erased(page)
}
