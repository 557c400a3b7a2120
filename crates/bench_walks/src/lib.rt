// Whole walks, for the benchmark: what is begun, stepped to its end. The crates bench_saves and
// bench_formats each have one call of it, so that each part of it stands in one place of their
// compiled code and is made part of the loop.
//
// What each answer means is in specs/Whole.antt.
#![tactic(auto)]

ghost use Rattle.std.specs.Prelude.{◌≡◌};
ghost use Rattle.walks.specs.Walks.{said_in, beginning_in};
ghost use Rattle.bench_walks.specs.Whole.{number_said, Walked, walked};

use requests::Refusal;
use walks::{Progress, Walk};

// More steps than any walk makes: (P - 4) / 2 + 6 at P = 4,096, and one to be told the end.
const MOST_STEPS: u32 = 2053;

// A whole walk: the number, 0 where it was walked to its end, and how many steps were made.
// An exported function returns no enum, and bench/plain.h has these fields: so no Result.
#[repr(C)]
#[derive(Clone, Copy)]
pub struct Whole {
    pub number: u32,
    pub steps: u32,
}

// The number of a walk by what its last step said: 0 where it has ended.
fn last_number(progress: Progress) -> u32
    ensures { result ≡ number_said (said_in progress) }
{
    match progress {
        Progress::Ended => 0,
        Progress::Made | Progress::Unfit => 6,
    }
}

// Steps what is begun to its end; a refused request has its number and changes nothing.
// Both pages lent for writing go side by side, as `pages::Pair` says.
pub fn walk(begun: Result<Walk, Refusal>, left: &mut [u8], right: &mut [u8], data: &[u8]) -> Whole
    ensures { ◌≡◌ {A = Walked}
        (record {
          number = result.number;
          steps = result.steps;
          left = left.new;
          right = right.new;
        })
        (walked (beginning_in begun)
        left.old
        right.old
        «data».now) }
{
    match begun {
        Ok(walk) => {
            let ran = walk.run(MOST_STEPS, left, right, data);
            Whole {
                number: last_number(ran.progress),
                steps: ran.steps,
            }
        }
        Err(why) => Whole {
            number: why.number() as u32,
            steps: 0,
        },
    }
}
