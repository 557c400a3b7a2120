// Images: bytes 4 to P - 1 of a page, and the image that a save makes of an old one.
//
// What the new image is, and what each of its cells holds, is in specs/Images.antt.
#![tactic(auto)]

ghost use Rattle.std.specs.Prelude.{◌≡◌};
ghost use Rattle.images.specs.Images.{data_cell, new_cell};

use pages::{ImageOffset, PageOffset};

// The cell of the data, saved at a page offset, that lies at an image offset; none where the data
// doesn't reach.
#[tactic(auto, using(crate::proofs::Laws::data_before, crate::proofs::Laws::data_from))]
fn data_cell(offset: PageOffset, data: &[u8], at: ImageOffset) -> Option<u16>
    ensures { result ≡ data_cell offset «data».now at }
{
    let inside = at.to_page().0.checked_sub(offset.0)?;
    flash::cell_at(data, inside as usize)
}

// The number of a cell of the new image: that of the data laid in, else that of the old image, else
// FFFF.
#[tactic(auto, using(crate::proofs::Laws::new_data, crate::proofs::Laws::new_old))]
pub fn new_cell(old: &[u8], offset: PageOffset, data: &[u8], at: ImageOffset) -> u16
    ensures { result ≡ new_cell old.now offset «data».now at }
{
    match data_cell(offset, data, at) {
        Some(new) => new,
        None => flash::cell_at(old, at.0 as usize).unwrap_or(65535),
    }
}
