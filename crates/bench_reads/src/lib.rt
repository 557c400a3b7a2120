// What the benchmark calls of the library, one call at a time: the erased test and both reads, with
// numbers and byte buffers at the boundary. bench/plain.h has the same signatures; bench/run builds and
// measures.
//
// Each has one place that calls what it stands for: so the compiler puts it there whole. What each
// answer means is in specs/Parts.antt.
#![tactic(auto)]

ghost use Rattle.std.specs.Prelude.{◌≡◌, get_or};
ghost use Rattle.flash.specs.Flash.{Outcome, is_erased};
ghost use Rattle.reads.specs.Reads.{read_part, filled};
ghost use Rattle.bench_reads.specs.Parts.{seen};

use pages::{PageOffset, Pair};

// A part that was read: how many bytes, and the first of them; 0 where there is none.
// An exported function returns no enum, and bench/plain.h has these fields: so no Option.
#[repr(C)]
#[derive(Clone, Copy)]
pub struct Part {
    pub len: usize,
    pub first: u8,
}

// The byte at the start, or 0.
fn first_of(part: &[u8]) -> u8
    ensures { result ≡ get_or part.now 0 0 }
{
    part.first().copied().unwrap_or(0)
}

#[unsafe(no_mangle)]
pub extern "C" fn bench_erased(page: &[u8]) -> bool
    ensures { result ≡ is_erased page.now }
{
    flash::erased(page)
}

// C hands over each page by itself.
#[unsafe(no_mangle)]
pub extern "C" fn bench_part<'a>(left: &'a [u8], right: &'a [u8], offset: u32, len: u32) -> Part
    ensures { result ≡ seen (read_part left.now right.now (record { 0 = offset }) len) }
{
    let part = reads::read(Pair { left, right }, PageOffset(offset), len);
    Part {
        len: part.len(),
        first: first_of(part),
    }
}

// C hands over each page by itself.
#[unsafe(no_mangle)]
pub extern "C" fn bench_copy<'a>(
    left: &'a [u8],
    right: &'a [u8],
    offset: u32,
    out: &mut [u8],
) -> u32
    ensures { ◌≡◌ {A = Outcome} (record { number = result; bytes = out.new })
        (filled
        left.now
        right.now
        (record { 0 = offset })
        out.old) }
{
    let reading = reads::read_into(Pair { left, right }, PageOffset(offset), out);
    reads::number_of(reading) as u32
}
