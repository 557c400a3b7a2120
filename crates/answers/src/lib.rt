// What the board answers to the calls of a script, in words: the lines of the script, each answer over
// the pages after it, a run of image cells as one line, and what a read shows after cuts and at the end
// of walks. The lines are in docs/FORMATS.md. Nothing here is lent a page for writing.
#![tactic(auto)]

use asks::Call;
use boards::Answer;
use copies::first;
use listings::Listing;
use pages::{ImageOffset, Pair, Side};
use plans::{ImageCell, Spot};
use prints::Output;
use sessions::{Answered, Session};
use std::fmt;
use std::fmt::Write;
use steps::Step;
use verdicts::{Tally, Verdict};
use views::{Counts, Event, Hex, InWords, Rows, Shown, Words};
use walks::Walk;

// Which lines the steps that program image cells have: a run of them has one, or each has its own.
#[derive(Clone, Copy)]
pub enum Steps {
    Folded,
    Each,
}

// A script, and the pages as they are while it is made.
#[derive(Clone, Copy)]
pub struct Scene<'t, 'p> {
    pub text: &'t [u8],
    pub pair: Pair<'p>,
}

// An image that a read showed; no bytes where the read was answered 5. No ArrayVec, which is not Copy, as
// `Report` is.
#[derive(Clone, Copy)]
struct Image {
    bytes: [u8; pages::MAX_PAGE],
    len: usize,
}

impl Image {
    fn new() -> Image {
        Image {
            bytes: turns::blank(),
            len: 0,
        }
    }

    // Keeps an image in place of this one. None is longer than a page, so it fits.
    fn keep(&mut self, image: &[u8]) {
        copies::copy(image, &mut self.bytes);
        self.len = image.len();
    }

    fn as_slice(&self) -> &[u8] {
        first(&self.bytes, self.len)
    }
}

// How often a read was judged, and what it showed.
#[derive(Clone, Copy)]
struct Judged {
    times: u64,
    tally: Tally,
}

// What a replay has printed so far: its lines; what a read showed before the call, and before the walk
// in hand; whether the next step is one of a run that is printed as one line, and how many such steps
// are made and not printed; and what a read showed after cuts and at the end of walks.
#[derive(Clone, Copy)]
pub struct Report {
    listing: Listing,
    shown: Image,
    old: Image,
    // A plain yes or no of the next step: how many steps are folded is counted beside it.
    folds: bool,
    folded: u32,
    cuts: Judged,
    ends: Judged,
}

// ---- the pages
// What a read shows beside what it showed before, of which no bytes count as another: the end of a line,
// and the rows of an image that isn't the same.
#[derive(Clone, Copy)]
struct Seen<'a> {
    image: &'a [u8],
    before: &'a [u8],
}

impl fmt::Display for Seen<'_> {
    fn fmt<W: fmt::Write>(&self, f: &mut fmt::Formatter<W>) -> fmt::Result {
        let Seen { image, before } = *self;
        if image.is_empty() {
            writeln!(f, "; a read is answered 5")
        } else if image == before {
            writeln!(f, "; a read shows the same")
        } else {
            let before = Some(before);
            write!(f, "; a read shows\n{}", Rows { image, before })
        }
    }
}

impl<'p> Scene<'_, 'p> {
    // What a read of the whole image shows.
    fn image(self) -> &'p [u8] {
        verdicts::image(self.pair)
    }

    // Prints the pages and what a read shows, beside what it showed before.
    fn print(self, out: &mut Output, before: &[u8]) -> fmt::Result {
        let image = self.image();
        write!(out, "  {}{}", Words(self.pair), Seen { image, before })
    }

    // What the next line of a session asks for, where it is right.
    fn asks(self, session: Session) -> Option<Call> {
        asks::parse(texts::line_at(self.text, session.at))
            .ok()
            .flatten()
    }

    // The number of an image cell, FFFF where there is none.
    fn value(self, side: Side, at: ImageOffset) -> u16 {
        flash::cell_at(self.pair.on(side), at.to_page().0 as usize).unwrap_or(0xFFFF)
    }

    // What a read shows of the walk in hand beside the image before it. The walk's data is that of the
    // line that began it.
    fn judge(self, session: Session, walk: Walk, old: &[u8]) -> Shown {
        let mut room = turns::blank();
        let size = turns::load(self.text, session.began, &mut room);
        let data = &room[..size];
        Shown {
            verdict: verdicts::judge(walk.request, self.image(), old, walk.offset, data),
            event: Event::from(walk.request),
        }
    }

    // What a read shows beside the image before a cut with nothing under way.
    fn judge_idle(self, before: &[u8]) -> Shown {
        let image = self.image();
        let verdict = if image != before {
            Verdict::Another
        } else if image.is_empty() {
            Verdict::NoImage
        } else {
            Verdict::Old
        };
        Shown {
            verdict,
            event: Event::Cut,
        }
    }
}

// ---- what a read shows
impl Judged {
    fn new() -> Judged {
        Judged {
            times: 0,
            tally: Tally::new(),
        }
    }

    // Prints what a read shows, and counts it.
    fn count(&mut self, out: &mut Output, shown: Shown) -> fmt::Result {
        self.tally = self.tally.with(shown.verdict);
        self.times = self.times.wrapping_add(1);
        writeln!(out, "  a read {shown}")
    }
}

impl fmt::Display for Judged {
    fn fmt<W: fmt::Write>(&self, f: &mut fmt::Formatter<W>) -> fmt::Result {
        let Judged { times, tally } = *self;
        write!(f, "{times}, {}", InWords(tally))
    }
}

// ---- steps
// Prints the step at a walk's place, which was made on the pages: an image cell by the number that it
// then has.
fn print_step(out: &mut Output, scene: Scene<'_, '_>, walk: Walk) -> fmt::Result {
    let total = walk.total();
    write!(out, "  step {} of {total}: ", walk.place as u64 + 1)?;
    match views::spot(walk, walk.place) {
        Some(Spot::Fixed(entry)) => write!(out, "{}", InWords(entry))?,
        Some(Spot::Cell(_, ImageCell { side, at })) => {
            let value = scene.value(side, at);
            write!(out, "{}", InWords(Step::Image(side, at, value)))?;
        }
        None => {}
    }
    writeln!(out)
}

// Prints the last steps of a walk, so many, which program image cells, as one line.
fn print_run(out: &mut Output, walk: Walk, count: u32) -> fmt::Result {
    let last = walk.place;
    let total = walk.total();
    if count == 1 {
        write!(out, "  step {last} of {total}: program an image cell of ")?;
    } else {
        let from = (last as u64 + 1).wrapping_sub(count as u64);
        write!(
            out,
            "  steps {from} to {last} of {total}: program image cells of "
        )?;
    }
    match views::spot(walk, last.wrapping_sub(1)) {
        Some(Spot::Cell(_, cell)) => write!(out, "{}", cell.side),
        _ => Ok(()),
    }
}

// Whether the next call of a session is a step that programs an image cell.
fn is_next_cell(session: Session) -> bool {
    match session.hand {
        Some(walk) if session.left != 0 => {
            matches!(views::spot(walk, walk.place), Some(Spot::Cell(..)))
        }
        _ => false,
    }
}

// ---- answers
// The meaning of a refusal's number.
fn meaning(number: u8) -> &'static str {
    match number {
        1 => "the pages have no legal length",
        2 => "the offset or the length is odd",
        3 => "the offset is below 4",
        4 => "past the end of the page",
        5 => "no page is live",
        6 => "the step doesn't fit, nothing is changed",
        _ => "",
    }
}

// Bytes in hexadecimal, parted by blanks.
#[derive(Clone, Copy)]
struct Bytes<'a>(&'a [u8]);

impl fmt::Display for Bytes<'_> {
    fn fmt<W: fmt::Write>(&self, f: &mut fmt::Formatter<W>) -> fmt::Result {
        let Some((first, rest)) = self.0.split_first() else {
            return write!(f, "no bytes");
        };
        let rest = Hex {
            bytes: rest,
            parted: true,
        };
        write!(f, "{first:02X}{rest}")
    }
}

// What a cut does to a walk: where in it the power is cut, and what then stays.
#[derive(Clone, Copy)]
struct Cut(Walk);

impl fmt::Display for Cut {
    fn fmt<W: fmt::Write>(&self, f: &mut fmt::Formatter<W>) -> fmt::Result {
        let walk = self.0;
        // Both have names, since the tests and the texts below name them.
        let place = walk.place;
        let total = walk.total();
        let event = Event::from(walk.request);
        let undecided = views::deciding(walk).is_some_and(|step| place < step);
        if place == total {
            write!(f, "after the {event}'s end")?;
        } else if place == 0 {
            write!(f, "before step 1 of {total}")?;
        } else {
            let side = if undecided { "before" } else { "at or after" };
            write!(
                f,
                "after step {place} of {total}, {side} the deciding store"
            )?;
        }
        if undecided {
            write!(f, ": all stays as before the {event}")
        } else {
            write!(f, ": the {event} stays")
        }
    }
}

// Prints that a step which has data of its own was handed the held data.
fn print_handed(out: &mut Output, session: Session) -> fmt::Result {
    if session.left == 0 {
        writeln!(
            out,
            "  the held data was handed over in place of these bytes"
        )?;
    }
    Ok(())
}

fn print_idle(out: &mut Output) -> fmt::Result {
    writeln!(out, "  no walk is in hand: nothing happens")
}

fn print_cut(out: &mut Output, scene: Scene<'_, '_>, hand: Option<Walk>) -> fmt::Result {
    match hand {
        None => write!(out, "  the power is cut: no save or format is under way")?,
        Some(walk) => write!(out, "  the power is cut {}", Cut(walk))?,
    }
    writeln!(out)?;
    scene.print(out, scene.image())
}

// Prints what has no answer: a step with no walk, a cut, or a line with no call.
fn print_nothing(out: &mut Output, scene: Scene<'_, '_>, session: Session) -> fmt::Result {
    if session.left != 0 {
        return print_idle(out);
    }
    match scene.asks(session) {
        Some(Call::Cut) => print_cut(out, scene, session.hand),
        Some(Call::StepWith) => print_idle(out),
        _ => Ok(()),
    }
}

// ---- a report
impl Report {
    pub fn new() -> Report {
        Report {
            listing: Listing::new(),
            shown: Image::new(),
            old: Image::new(),
            folds: false,
            folded: 0,
            cuts: Judged::new(),
            ends: Judged::new(),
        }
    }

    // Prints the pages before the first call, after the end of a line.
    pub fn start(&self, out: &mut Output, scene: Scene<'_, '_>) -> fmt::Result {
        writeln!(out, "\nat first")?;
        scene.print(out, self.shown.as_slice())
    }

    // Prints what comes before the next call of a session, over the pages before it, and keeps what a
    // read shows.
    pub fn before(
        &mut self,
        out: &mut Output,
        scene: Scene<'_, '_>,
        session: Session,
        steps: Steps,
    ) -> fmt::Result {
        self.folds = matches!(steps, Steps::Folded) && is_next_cell(session);
        if !self.folds {
            self.end_run(out, scene, session.hand)?;
        }
        if self.folded == 0 {
            self.shown.keep(scene.image());
        }
        if self.folds || session.left != 0 {
            return Ok(());
        }
        self.listing.print_next(out, scene.text, session.at)
    }

    // Prints the answer to a call of a session, over the pages after it, and what a read then shows.
    pub fn after(
        &mut self,
        out: &mut Output,
        scene: Scene<'_, '_>,
        session: Session,
        answered: Answered,
        output: &[u8],
    ) -> fmt::Result {
        if self.folds && matches!(answered.answer, Answer::Made) {
            self.folded = self.folded.wrapping_add(1);
            return Ok(());
        }
        self.print_answer(out, scene, session, answered, output)?;
        self.judge(out, scene, session, answered)
    }

    // Prints what stands at the end of a script that was made.
    pub fn end(&mut self, out: &mut Output, scene: Scene<'_, '_>, session: Session) -> fmt::Result {
        self.end_run(out, scene, session.hand)?;
        writeln!(out, "cuts: {}", self.cuts)?;
        writeln!(out, "ended: {}", self.ends)?;
        if self.cuts.tally.has_another() || self.ends.tally.has_another() {
            writeln!(out, "failed: a read showed another image")
        } else {
            writeln!(
                out,
                "ok: replayed, calls: {}",
                listings::calls_in(scene.text)
            )
        }
    }

    // Prints the run of image cells that isn't printed yet.
    fn end_run(
        &mut self,
        out: &mut Output,
        scene: Scene<'_, '_>,
        hand: Option<Walk>,
    ) -> fmt::Result {
        let count = self.folded;
        self.folded = 0;
        match hand {
            Some(walk) if count != 0 => {
                print_run(out, walk, count)?;
                let image = scene.image();
                let before = self.shown.as_slice();
                write!(out, "{}", Seen { image, before })
            }
            _ => Ok(()),
        }
    }

    fn print_answer(
        &self,
        out: &mut Output,
        scene: Scene<'_, '_>,
        session: Session,
        answered: Answered,
        output: &[u8],
    ) -> fmt::Result {
        match answered.answer {
            Answer::Nothing => print_nothing(out, scene, session),
            Answer::Begun => match answered.session.hand {
                Some(walk) => writeln!(out, "  begun: {}", Counts(walk)),
                None => Ok(()),
            },
            Answer::Made => {
                print_handed(out, session)?;
                if let Some(walk) = session.hand {
                    print_step(out, scene, walk)?;
                }
                scene.print(out, self.shown.as_slice())
            }
            Answer::Ended => {
                print_handed(out, session)?;
                writeln!(out, "  ended: no step is left")
            }
            Answer::Number(number) => writeln!(out, "  number {number}: {}", meaning(number)),
            Answer::Part(offset, len) => {
                let part = reads::read(scene.pair, offset, len);
                writeln!(out, "  given: {}", Bytes(part))
            }
            Answer::Output(number) => {
                // Nothing promises that so many bytes fit, so `first`.
                let output = Bytes(first(output, answered.len));
                match number {
                    0 => writeln!(out, "  given: {output}"),
                    _ => {
                        let meaning = meaning(number);
                        writeln!(
                            out,
                            "  number {number}: {meaning}; the output holds {output}"
                        )
                    }
                }
            }
        }
    }

    // Prints and counts what a read shows after a cut and at the end of a walk.
    fn judge(
        &mut self,
        out: &mut Output,
        scene: Scene<'_, '_>,
        session: Session,
        answered: Answered,
    ) -> fmt::Result {
        match answered.answer {
            Answer::Begun => {
                self.old.keep(scene.image());
                self.judge_end(out, scene, answered.session)
            }
            Answer::Made => self.judge_end(out, scene, answered.session),
            Answer::Nothing if session.left == 0 => match scene.asks(session) {
                Some(Call::Cut) => self.judge_cut(out, scene, session),
                _ => Ok(()),
            },
            _ => Ok(()),
        }
    }

    // After the walk in hand was begun or stepped: where it has no step left, what a read shows.
    fn judge_end(
        &mut self,
        out: &mut Output,
        scene: Scene<'_, '_>,
        session: Session,
    ) -> fmt::Result {
        match session.hand {
            Some(walk) if walk.place == walk.total() => {
                let shown = scene.judge(session, walk, self.old.as_slice());
                self.ends.count(out, shown)
            }
            _ => Ok(()),
        }
    }

    // After a cut: what a read shows.
    fn judge_cut(
        &mut self,
        out: &mut Output,
        scene: Scene<'_, '_>,
        session: Session,
    ) -> fmt::Result {
        let shown = match session.hand {
            None => scene.judge_idle(self.shown.as_slice()),
            Some(walk) => scene.judge(session, walk, self.old.as_slice()),
        };
        self.cuts.count(out, shown)
    }
}
