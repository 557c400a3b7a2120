// A script as text, made call by call: where it stands, and the next of its calls. Every call is made
// by the engine of the crate boards. Nothing here prints.
//
// The data of the walk in hand is that of the line that began it. What each call leaves is in
// specs/Sessions.antt.
#![tactic(auto)]

ghost use Rattle.std.specs.Prelude.{◌≡◌};
ghost use Rattle.boards.specs.Boards.{times_of, own_of};
ghost use Rattle.turns.specs.Turns.{data_at};
ghost use Rattle.sessions.specs.Sessions.{
  next_of,
  stand_in,
  next_in,
  begins,
  is_on,
  MadeOne,
};

use boards::Answer;
use turns::{Job, Next, Turned};
use walks::Walk;

// The walk in hand, where the line is that began it, where the next line is, and how many steps of the
// line before that are still to be made.
#[derive(Clone, Copy)]
pub struct Session {
    pub hand: Option<Walk>,
    pub began: usize,
    pub at: usize,
    pub left: u32,
}

// The session after a call, and the answer to it or, where a step isn't made, to it and all that are
// left; of a line with no call, to none. The answer to a copy has so many bytes of the output.
#[derive(Clone, Copy)]
pub struct Answered {
    pub session: Session,
    pub times: u32,
    pub answer: Answer,
    pub len: usize,
}

impl Session {
    // A session before its first line, with no walk in hand.
    pub fn new() -> Session
        ensures { result ≡ begins }
    {
        Session {
            hand: None,
            began: 0,
            at: 0,
            left: 0,
        }
    }

    // Whether a script has a next call, or a line that has none.
    pub fn is_on(self, text: &[u8]) -> bool
        ensures { result ≡ is_on text.now self }
    {
        self.left != 0 || self.at < text.len()
    }
}

// ---- one call
// Makes a call, which has one answer, with this output; the line after it is at `after`. What the engine
// counts as made is made.
// Each parameter is what `MadeOne` speaks of; both pages lent for writing go side by side, as
// `pages::Pair` says.
fn make_one(
    text: &[u8],
    job: Job,
    after: usize,
    session: Session,
    left: &mut [u8],
    right: &mut [u8],
    out: &mut [u8],
) -> Answered
    requires { (times_of job.call ≡ 1)
        × (data_at text.now job.begins ≡ own_of job.call (data_at text.now job.place)) }
    ensures { MadeOne text.now job.call job.place session after result
        left.old
        right.old
        left.new
        right.new
        out.old
        out.new }
{
    let len = out.len();
    let Turned { turn, began } = turns::make(
        text,
        job,
        session.hand,
        session.began,
        left,
        right,
        out,
    );
    Answered {
        session: Session {
            hand: turn.hand,
            began,
            at: after,
            left: 0,
        },
        times: 1,
        answer: if turn.made == 0 {
            turn.answer
        } else {
            Answer::Made
        },
        len,
    }
}

// ---- the next call
// Makes the next call of a script, which may have any bytes, or passes a line that has none. A copy
// reads into the first bytes of the output.
// Both pages lent for writing go side by side, as `pages::Pair` says.
#[tactic(auto, using(crate::proofs::Laws::passed))]
pub fn next(
    text: &[u8],
    session: Session,
    left: &mut [u8],
    right: &mut [u8],
    out: &mut [u8],
) -> Answered
    ensures { next_in text.now result left.new right.new out.new
        ≡ next_of
        text.now
        (stand_in text.now session left.old right.old)
        out.old }
{
    let plan = turns::plan_next(text, session.at, session.began, session.left, out.len());
    let job = match plan.next {
        Next::Make(job) => job,
        Next::Steps(left) => {
            return Answered {
                session: Session {
                    at: plan.after,
                    left,
                    ..session
                },
                times: 0,
                answer: Answer::Nothing,
                len: 0,
            };
        }
    };
    let made = make_one(
        text,
        job,
        plan.after,
        session,
        left,
        right,
        &mut out[..job.size],
    );
    if session.left == 0 {
        return made;
    }
    match made.answer {
        Answer::Made => Answered {
            session: Session {
                left: session.left - 1,
                ..made.session
            },
            times: 1,
            len: 0,
            ..made
        },
        _ => Answered {
            times: session.left,
            len: 0,
            ..made
        },
    }
}
