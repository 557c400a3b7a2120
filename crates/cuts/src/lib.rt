// The last save or format of a script that is begun, cut after each number of its steps, all on copies
// of the pages. The lines are in docs/FORMATS.md; what is counted is in specs/Cuts.antt.
//
// What is printed goes to an `Output`, which never fails, so its results are passed over where a
// function hands back what it counted.
#![tactic(auto)]

ghost use Rattle.std.specs.Prelude.{◌≤◌, ◌≡◌, length, ◌+◌, is_some, unwrap_or};
ghost use Rattle.model.specs.Board.{powered};
ghost use Rattle.sessions.specs.Sessions.{script_calls};
ghost use Rattle.verdicts.specs.Verdicts.{verdict_in, no_cuts};
ghost use Rattle.cuts.specs.Cuts.{
  begun_last,
  last_in,
  last_walk,
  cut_shown,
  tallied,
  total_of,
  is_begun_in,
  script_tally,
};

use boards::Answer;
use listings::Listing;
use loads::Source;
use pages::Pair;
use plans::Request;
use prints::Output;
use sessions::{Answered, Session};
use std::fmt;
use std::fmt::Write;
use verdicts::{Tally, Verdict};
use views::{Counts, CutTally, Event, Line, Shown};
use walks::Walk;

// The last walk that is begun, and where the line is that began it.
#[derive(Clone, Copy)]
struct Last {
    walk: Walk,
    at: usize,
}

// A walk, its data, and the pages that it is begun on.
#[derive(Clone, Copy)]
struct Start<'a> {
    walk: Walk,
    data: &'a [u8],
    pair: Pair<'a>,
    ghost fits: { (length pair.left.now ≤ 4096) × (length pair.right.now ≤ 4096) },
}

// ---- the last walk
// The walk that a call began, if it began one.
fn begun(answered: Answered) -> Option<Last>
    ensures { result ≡ begun_last answered }
{
    match (answered.times, answered.answer, answered.session.hand) {
        (1, Answer::Begun, Some(walk)) => Some(Last {
            walk,
            at: answered.session.began,
        }),
        _ => None,
    }
}

// Makes a script on copies of the pages, and keeps those on which its last walk is begun.
// The pages that are kept are lent for writing, so they go side by side, as `pages::Pair` says.
fn find_last(
    rt: HostRuntime,
    text: &[u8],
    pair: Pair<'_>,
    kept_left: &mut [u8],
    kept_right: &mut [u8],
) -> Option<Last>
    requires { (length pair.left.now ≤ 4096)
        × (length pair.right.now ≡ length pair.left.now)
        × (length kept_left.old ≡ length pair.left.now)
        × (length kept_right.old ≡ length pair.left.now) }
    ensures { last_in text.now result kept_left.new kept_right.new
        ≡ last_walk
        (powered pair.entry.left.now pair.entry.right.now)
        (script_calls text.now pair.entry.left.now pair.entry.right.now) }
{
    let page = pair.left.len();
    let mut left_room = turns::blank();
    let mut right_room = turns::blank();
    let now_left = &mut left_room[..page];
    let now_right = &mut right_room[..page];
    copies::copy(pair.left, now_left);
    copies::copy(pair.right, now_right);
    let mut session = Session::new();
    let mut last = None;
    let mut listing = Listing::new();
    // Each call changes the lent pages, which an iterator over the calls would hold, so no `for`.
    while session.is_on(text) {
        if session.left == 0 {
            listing.count(rt);
        }
        let mut output = turns::blank();
        let answered = sessions::next(text, session, now_left, now_right, &mut output);
        session = answered.session;
        if let Some(found) = begun(answered) {
            last = Some(found);
            copies::copy(now_left, kept_left);
            copies::copy(now_right, kept_right);
        }
    }
    last
}

// ---- the cuts
impl Start<'_> {
    // Prints the walk that is cut, of the line at a place, after where two pages come from and P. A save has
    // its data at that line, and no format is refused where a walk can be begun.
    fn print(&self, out: &mut Output, source: Source, text: &[u8], at: usize) -> fmt::Result {
        let page = self.pair.left.len();
        writeln!(out, "{source}\nP = {page}")?;
        let line = match self.walk.request {
            Request::Save => listings::line_at(text, at),
            Request::Format => listings::last_format(text),
        };
        if let Some(line) = line {
            writeln!(out, "{line}")?;
        }
        let number = self.walk.start.line();
        writeln!(out, "  begun at line {number}: {}", Counts(self.walk))
    }

    // Prints a cut after so many steps, and what a read of the pages then shows.
    fn print_cut(
        &self,
        out: &mut Output,
        count: u32,
        pair: Pair<'_>,
        verdict: Verdict,
    ) -> fmt::Result {
        let total = self.walk.total();
        let event = Event::from(self.walk.request);
        let line = Line(pair);
        let shown = Shown { verdict, event };
        writeln!(
            out,
            "  cut after {count} of {total} steps: {line}; a read {shown}"
        )
    }

    // Makes a number of the walk's steps on copies of the pages, after which the walk is lost, and prints
    // what a read shows.
    fn cut_after(&self, out: &mut Output, count: u32) -> Verdict
        ensures { verdict_in result
            ≡ cut_shown count self.now.walk self.now.«data».now
            self.now.pair.left.now
            self.now.pair.right.now }
    {
        let mut left_room = turns::blank();
        let mut right_room = turns::blank();
        let left = &mut left_room[..self.pair.left.len()];
        let right = &mut right_room[..self.pair.right.len()];
        copies::copy(self.pair.left, left);
        copies::copy(self.pair.right, right);
        self.walk.run(count, left, right, self.data);
        let pair = Pair { left, right };
        let verdict = verdicts::judge(
            self.walk.request,
            verdicts::image(pair),
            verdicts::image(self.pair),
            self.walk.offset,
            self.data,
        );
        let _ = self.print_cut(out, count, pair, verdict);
        verdict
    }

    // Cuts the walk after each number of its steps.
    fn cut_each(&self, out: &mut Output) -> Tally
        ensures { result
            ≡ tallied (total_of self.now.walk + 1) self.now.walk
            self.now.«data».now
            self.now.pair.left.now
            self.now.pair.right.now }
    {
        let mut tally = Tally::new();
        // The number is what differs from cut to cut; there is no list to go over.
        for count in 0..=self.walk.total() {
            tally = tally.with(self.cut_after(out, count));
        }
        tally
    }
}

// Makes a script, and prints the last save or format in it that is begun and its cuts, or nothing where
// there is none. Pages that differ in length, or are longer than any page, have no calls. It is never put
// where it is called, so that nothing else needs the room of its pages.
#[inline(never)]
pub fn run(out: &mut Output, source: Source, text: &[u8], pair: Pair<'_>) -> Option<Tally>
    ensures tally { unwrap_or result no_cuts
        ≡ script_tally text.now pair.entry.left.now pair.entry.right.now }
    ensures found { is_some result
        ≡ is_begun_in text.now pair.entry.left.now pair.entry.right.now }
{
    let Pair { left, right } = pair;
    let page = left.len();
    if pages::MAX_PAGE < page || right.len() != page {
        return None;
    }
    let mut left_room = turns::blank();
    let mut right_room = turns::blank();
    let kept_left = &mut left_room[..page];
    let kept_right = &mut right_room[..page];
    let last = find_last(out.runtime(), text, pair, kept_left, kept_right)?;
    let mut data_room = turns::blank();
    let size = turns::load(text, last.at, &mut data_room);
    let start = Start {
        walk: last.walk,
        data: &data_room[..size],
        pair: Pair {
            left: kept_left,
            right: kept_right,
        },
    };
    let _ = start.print(out, source, text, last.at);
    let tally = start.cut_each(out);
    let cuts = last.walk.total() as u64 + 1;
    let _ = writeln!(out, "{}", CutTally { cuts, tally });
    Some(tally)
}
