// A script made call by call on copies of two pages, with what the board answers to each. The lines
// are in docs/FORMATS.md.
//
// What is printed is printed from the answers and from the pages as they are then; that they are the
// model's is in specs/Timelines.antt and in the crate sessions. It goes to an `Output`, which never
// fails, so its results are passed over.
#![tactic(auto)]

ghost use Rattle.std.specs.Prelude.{◌≡◌};
ghost use Rattle.timelines.specs.Timelines.{ends_with};

use answers::{Report, Scene, Steps};
use pages::Pair;
use prints::Output;
use sessions::Session;
use walks::Walk;

// ---- the script
// Makes the calls of a script whose lines are right on copies of the pages, and prints the pages at
// first, each call with its answer, and how often a read showed what. It begins with the end of the
// line of P. The walk that is in hand in the end is handed back. Pages that differ in length, or are
// longer than any page, have no calls. It is never put where it is called, so that nothing else needs the
// room of its pages.
#[inline(never)]
pub fn run(out: &mut Output, text: &[u8], pair: Pair<'_>, steps: Steps) -> Option<Walk>
    ensures { result ≡ ends_with text.now pair.entry.left.now pair.entry.right.now }
{
    let Pair { left, right } = pair;
    let page = left.len();
    if pages::MAX_PAGE < page || right.len() != page {
        return None;
    }
    let mut left_room = turns::blank();
    let mut right_room = turns::blank();
    let now_left = &mut left_room[..page];
    let now_right = &mut right_room[..page];
    copies::copy(pair.left, now_left);
    copies::copy(pair.right, now_right);
    let mut session = Session::new();
    let mut report = Report::new();
    let _ = report.start(out, Scene { text, pair });
    // Each call changes the lent pages, which an iterator over the calls would hold, so no `for`.
    while session.is_on(text) {
        let pair = Pair {
            left: now_left,
            right: now_right,
        };
        let scene = Scene { text, pair };
        let _ = report.before(out, scene, session, steps);
        let mut output = turns::blank();
        let answered = sessions::next(text, session, now_left, now_right, &mut output);
        let pair = Pair {
            left: now_left,
            right: now_right,
        };
        let scene = Scene { text, pair };
        let _ = report.after(out, scene, session, answered, &output);
        session = answered.session;
    }
    let pair = Pair {
        left: now_left,
        right: now_right,
    };
    let scene = Scene { text, pair };
    let _ = report.end(out, scene, session);
    session.hand
}
