// A whole save by one call, for the benchmark. bench/plain.h has the same signature; bench/run builds
// and measures.
#![tactic(auto)]

ghost use Rattle.std.specs.Prelude.{◌≡◌};
ghost use Rattle.bench_walks.specs.Whole.{Walked, walked};
ghost use Rattle.walks.specs.Walks.{begin_save};

use bench_walks::Whole;
use pages::{PageOffset, Pair};
use walks::Walk;

// Saves the data at a page offset.
// C hands over each page by itself.
#[unsafe(no_mangle)]
pub extern "C" fn bench_save(left: &mut [u8], right: &mut [u8], offset: u32, data: &[u8]) -> Whole
    ensures { ◌≡◌ {A = Walked}
        (record {
          number = result.number;
          steps = result.steps;
          left = left.new;
          right = right.new;
        })
        (walked
        (begin_save
        left.old
        right.old
        (record { 0 = offset })
        «data».now)
        left.old
        right.old
        «data».now) }
{
    let begun = Walk::save(Pair { left, right }, PageOffset(offset), data);
    bench_walks::walk(begun, left, right, data)
}
