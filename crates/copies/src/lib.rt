// Copies of bytes from one lent slice to another, as fast as the machine's own; and the first bytes
// of a slice. What a copy is, is in specs/Copies.antt.
#![tactic(auto)]

ghost use Rattle.std.specs.Prelude.{◌≡◌, take};
ghost use Rattle.copies.specs.Copies.{copied};

// Copies from the start of a slice to the start of another, as many bytes as both have.
#[tactic(auto, unfolding(crate::specs::Copies::copied))]
pub fn copy(src: &[u8], dst: &mut [u8])
    ensures { dst.new ≡ copied src.now dst.old }
{
    let count = src.len().min(dst.len());
    dst[..count].copy_from_slice(&src[..count]);
}

// The first bytes of a buffer, all where it has fewer: for a length that no promise says fits.
pub fn first(buffer: &[u8], count: usize) -> &[u8]
    ensures { result.now ≡ take count buffer.now }
{
    &buffer[..count.min(buffer.len())]
}
