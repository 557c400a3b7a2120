// The erased test by itself, for hosts that try it at every length and measure it. No board links it.
#![tactic(auto)]

ghost use Rattle.std.specs.Prelude.{◌≡◌};
ghost use Rattle.flash.specs.Flash.{is_erased};

// Whether every byte is FF; of no bytes, yes.
#[unsafe(no_mangle)]
pub extern "C" fn flash_erased(page: &[u8]) -> bool
    ensures { result ≡ is_erased page.now }
{
    flash::erased(page)
}
