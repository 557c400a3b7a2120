// A whole format by one call, for the benchmark. bench/plain.h has the same signature; bench/run
// builds and measures.
#![tactic(auto)]

ghost use Rattle.std.specs.Prelude.{[], ◌≡◌};
ghost use Rattle.bench_walks.specs.Whole.{Walked, walked};
ghost use Rattle.walks.specs.Walks.{begin_format};

use bench_walks::Whole;
use pages::Pair;
use walks::Walk;

// Formats the pages; a format has no data.
// C hands over each page by itself.
#[unsafe(no_mangle)]
pub extern "C" fn bench_format(left: &mut [u8], right: &mut [u8]) -> Whole
    ensures { ◌≡◌ {A = Walked}
        (record {
          number = result.number;
          steps = result.steps;
          left = left.new;
          right = right.new;
        })
        (walked
        (begin_format left.old right.old)
        left.old
        right.old
        []) }
{
    let begun = Walk::format(Pair { left, right });
    bench_walks::walk(begun, left, right, &[])
}
