// Shows what two dumps of pages hold: their words, their line, the steps that a save from there
// takes, what the page that isn't live holds, and the image of the live page, or of both where none is.
// As text, or as one JSON object. What it prints is in docs/FORMATS.md.
#![tactic(auto)]

ghost use Rattle.std.specs.Prelude.{◌≤◌};

use arguments::{Argument, Name, Word};
use loads::{Origin, Source};
use pages::{ImageOffset, PageOffset, Pair, Side};
use plans::{ImageCell, Spot};
use prints::{Output, VERSION};
use std::fmt;
use std::fmt::Write;
use views::{Hex, InWords, Rows};
use walks::Walk;

// ---- what is wrong
// Why nothing is shown.
#[derive(Clone, Copy)]
enum Error {
    Usage,
    Pages(loads::Error),
}

impl From<loads::Error> for Error {
    fn from(error: loads::Error) -> Error {
        Error::Pages(error)
    }
}

impl From<arguments::Error> for Error {
    fn from(error: arguments::Error) -> Error {
        Error::Pages(loads::Error::Argument(error))
    }
}

impl fmt::Display for Error {
    fn fmt<W: fmt::Write>(&self, f: &mut fmt::Formatter<W>) -> fmt::Result {
        match self {
            Error::Usage => write!(
                f,
                "usage: show [--json] LEFT RIGHT, or show [--json] --one FILE LEFT-AT RIGHT-AT LENGTH"
            ),
            Error::Pages(error) => write!(f, "{error}"),
        }
    }
}

// ---- the pages
// Where an image begins.
fn image_start() -> PageOffset {
    ImageOffset(0).to_page()
}

// The bytes of a page from its image on.
fn image_of(page: &[u8]) -> &[u8] {
    page.get(image_start().0 as usize..).unwrap_or(page)
}

// The word of a page that is erased.
const ERASED_WORD: u32 = 0xFFFFFFFF;

// What the page that isn't live holds.
#[derive(Clone, Copy)]
enum Held {
    Erased,
    Undecided,
    NoSettings,
    Before,
}

impl Held {
    // By the page's word and its bytes.
    fn by(page: &[u8]) -> Held {
        if flash::erased(page) {
            Held::Erased
        } else if pages::word(page) == ERASED_WORD {
            Held::Undecided
        } else if flash::erased(image_of(page)) {
            Held::NoSettings
        } else {
            Held::Before
        }
    }

    // Its name in JSON.
    fn key(self) -> &'static str {
        match self {
            Held::Erased => "erased",
            Held::Undecided => "undecided",
            Held::NoSettings => "no settings",
            Held::Before => "before",
        }
    }
}

impl fmt::Display for Held {
    fn fmt<W: fmt::Write>(&self, f: &mut fmt::Formatter<W>) -> fmt::Result {
        match self {
            Held::Erased => write!(f, "is erased"),
            Held::Undecided => write!(f, "holds a save not yet decided"),
            Held::NoSettings => write!(f, "holds no settings: its image is all FF"),
            Held::Before => write!(f, "holds the settings before"),
        }
    }
}

// Why two pages may be one by mistake.
#[derive(Clone, Copy)]
enum Alike {
    OneFile,
    SharedBytes,
    SameBytes,
}

impl Alike {
    // Its name in JSON.
    fn key(self) -> &'static str {
        match self {
            Alike::OneFile => "one file",
            Alike::SharedBytes => "shared bytes",
            Alike::SameBytes => "same bytes",
        }
    }
}

impl fmt::Display for Alike {
    fn fmt<W: fmt::Write>(&self, f: &mut fmt::Formatter<W>) -> fmt::Result {
        match self {
            Alike::OneFile => write!(f, "are one file"),
            Alike::SharedBytes => write!(f, "share bytes of the file"),
            Alike::SameBytes => write!(f, "hold the same bytes, are they one file?"),
        }
    }
}

// Two pages whose lengths are right, where they come from, and a save that is begun on them.
#[derive(Clone, Copy)]
struct Dump<'a> {
    source: Source,
    pair: Pair<'a>,
    save: Walk,
}

fn line_of(pair: Pair<'_>) -> u8 {
    table::status_of(pair).state.line()
}

impl Dump<'_> {
    // Which page is live, if one is.
    fn live(&self) -> Option<Side> {
        table::status_of(self.pair).live
    }

    // Whether the pages may be one.
    fn alike(&self) -> Option<Alike> {
        match self.source {
            Source::Files { left, right } if left.is_same(right) => Some(Alike::OneFile),
            Source::Parts(parts) if parts.left_at == parts.right_at => Some(Alike::OneFile),
            Source::Parts(parts) if parts.left_at.abs_diff(parts.right_at) < parts.length => {
                Some(Alike::SharedBytes)
            }
            _ if self.pair.left == self.pair.right && !flash::erased(self.pair.left) => {
                Some(Alike::SameBytes)
            }
            _ => None,
        }
    }

    // The line of the pages the other way round, where they have one that way only.
    fn swapped_line(&self) -> Option<u8> {
        let Pair { left, right } = self.pair;
        let swapped = Pair {
            left: right,
            right: left,
        };
        match (line_of(self.pair), line_of(swapped)) {
            (0, line) if line != 0 => Some(line),
            _ => None,
        }
    }
}

// ---- as text
// The word of a page, and its bytes.
#[derive(Clone, Copy)]
struct ManagementWord(u32);

impl fmt::Display for ManagementWord {
    fn fmt<W: fmt::Write>(&self, f: &mut fmt::Formatter<W>) -> fmt::Result {
        let word = self.0;
        let [valid, active, dead, spare] = word.to_le_bytes();
        write!(
            f,
            "{word:08X}: Valid {valid:02X}, Active {active:02X}, Dead {dead:02X}, Spare {spare:02X}"
        )
    }
}

impl Dump<'_> {
    // Prints where the pages come from, and their words.
    fn print_words(&self, out: &mut Output) -> fmt::Result {
        let size = image_of(self.pair.left).len();
        writeln!(
            out,
            "{}\nP = {}: an image of {size} bytes from page offset 4 on, {} cells",
            self.source,
            self.pair.left.len(),
            size / 2
        )?;
        writeln!(
            out,
            "LEFT  word {}\nRIGHT word {}",
            ManagementWord(pages::word(self.pair.left)),
            ManagementWord(pages::word(self.pair.right))
        )
    }

    // Prints the line of the pages, and what the page holds that isn't live.
    fn print_line(&self, out: &mut Output) -> fmt::Result {
        write!(out, "line {}: ", self.save.start.line())?;
        match self.live() {
            Some(side) => {
                let other = side.other();
                writeln!(
                    out,
                    "{side} is live\nthe other page, {other}, {}",
                    Held::by(self.pair.on(other))
                )
            }
            None => writeln!(
                out,
                "no page is live, a read is answered 5\n{}",
                if self.save.erased {
                    "both pages are erased"
                } else {
                    "the pages are not both erased"
                }
            ),
        }
    }

    fn print_notes(&self, out: &mut Output) -> fmt::Result {
        if let Some(alike) = self.alike() {
            writeln!(out, "note: LEFT and RIGHT {alike}")?;
        }
        if let Some(line) = self.swapped_line() {
            writeln!(
                out,
                "note: with LEFT and RIGHT changed over this is line {line}"
            )?;
        }
        Ok(())
    }

    // Prints the step at a place of the save; the image cells at their first place only.
    fn print_step(&self, out: &mut Output, place: u32) -> fmt::Result {
        let step = u64::from(place) + 1;
        match views::spot(self.save, place) {
            Some(Spot::Fixed(entry)) => writeln!(out, "  step {step}: {}", InWords(entry)),
            Some(
                Spot::Cell(
                    _,
                    ImageCell {
                        side,
                        at: ImageOffset(0),
                    },
                ),
            ) => {
                let last = u64::from(place) + u64::from(plans::cell_count(self.save.page));
                writeln!(
                    out,
                    "  steps {step} to {last}: program the image cells of {side}"
                )
            }
            _ => Ok(()),
        }
    }

    fn print_steps(&self, out: &mut Output) -> fmt::Result {
        let total = self.save.total();
        writeln!(out, "a save from here takes {total} steps:")?;
        // A step is looked up by its place: no list of them stands in memory.
        for place in 0..total {
            self.print_step(out, place)?;
        }
        Ok(())
    }

    fn print_image(&self, out: &mut Output, side: Side, note: &str) -> fmt::Result {
        let rows = Rows {
            image: image_of(self.pair.on(side)),
            before: None,
        };
        write!(out, "the image of {side}{note}:\n{rows}")
    }

    // Prints the image of the live page; where none is live, both, unless all is erased.
    fn print_images(&self, out: &mut Output) -> fmt::Result {
        match self.live() {
            Some(side) => self.print_image(out, side, ""),
            None if self.save.erased => Ok(()),
            None => {
                self.print_image(out, Side::Left, ", which is not live")?;
                self.print_image(out, Side::Right, ", which is not live")
            }
        }
    }

    // No Display: a dump has two texts, this one and JSON.
    fn print(&self, out: &mut Output) -> fmt::Result {
        self.print_words(out)?;
        self.print_line(out)?;
        self.print_notes(out)?;
        self.print_steps(out)?;
        self.print_images(out)?;
        writeln!(out, "ok: shown")
    }
}

// ---- as JSON
// What writes the text of a string: with a backslash before a quote and a backslash.
#[derive(Drop)]
struct InString<W>(W);

impl<W: fmt::Write> fmt::Write for InString<W> {
    fn write_str(&mut self, s: &str) -> fmt::Result {
        for c in s.chars() {
            if matches!(c, '"' | '\\') {
                self.0.write_char('\\')?;
            }
            self.0.write_char(c)?;
        }
        Ok(())
    }
}

// A string.
#[derive(Clone, Copy)]
struct Quoted<T>(T);

impl<T: fmt::Display> fmt::Display for Quoted<T> {
    fn fmt<W: fmt::Write>(&self, f: &mut fmt::Formatter<W>) -> fmt::Result {
        write!(f, "\"")?;
        write!(InString(&mut *f), "{}", self.0)?;
        write!(f, "\"")
    }
}

// A string, or null.
#[derive(Clone, Copy)]
struct OrNull<T>(Option<T>);

impl<T: fmt::Display> fmt::Display for OrNull<T> {
    fn fmt<W: fmt::Write>(&self, f: &mut fmt::Formatter<W>) -> fmt::Result {
        match &self.0 {
            Some(value) => write!(f, "{}", Quoted(value)),
            None => write!(f, "null"),
        }
    }
}

// A page, and where it comes from.
#[derive(Clone, Copy)]
struct JsonPage<'a> {
    origin: Origin,
    page: &'a [u8],
}

impl fmt::Display for JsonPage<'_> {
    fn fmt<W: fmt::Write>(&self, f: &mut fmt::Formatter<W>) -> fmt::Result {
        let JsonPage { origin, page } = *self;
        let image = Hex {
            bytes: image_of(page),
            parted: false,
        };
        write!(
            f,
            "{{\"file\": {}, \"from\": {}, \"word\": \"{:08X}\", \"erased\": {}, \"image\": \"{image}\"}}",
            Quoted(origin.name),
            origin.from.unwrap_or(0),
            pages::word(page),
            flash::erased(page)
        )
    }
}

impl Dump<'_> {
    fn print_json_line(&self, out: &mut Output) -> fmt::Result {
        let live = self.live();
        let held = live.map(|side| Held::by(self.pair.on(side.other())).key());
        write!(
            out,
            "\"line\": {}, \"live\": {}, \"other\": {}, \"steps\": {}, \"deciding\": {}",
            self.save.start.line(),
            OrNull(live),
            OrNull(held),
            self.save.total(),
            views::deciding(self.save).unwrap_or(0)
        )
    }

    fn print_json_notes(&self, out: &mut Output) -> fmt::Result {
        let alike = self.alike().map(|alike| alike.key());
        let swapped = self.swapped_line().map(|_| "changed over");
        for (i, note) in [alike, swapped].into_iter().flatten().enumerate() {
            let between = if i == 0 { "" } else { ", " };
            write!(out, "{between}{}", Quoted(note))?;
        }
        Ok(())
    }

    fn print_json(&self, out: &mut Output) -> fmt::Result {
        let page = |side: Side| JsonPage {
            origin: self.source.origin(side),
            page: self.pair.on(side),
        };
        let left = page(Side::Left);
        let right = page(Side::Right);
        write!(
            out,
            "{{\"ok\": true, \"version\": \"{VERSION}\", \"page\": {}, \"left\": {left}, \"right\": {right}, ",
            self.save.page
        )?;
        self.print_json_line(out)?;
        write!(out, ", \"notes\": [")?;
        self.print_json_notes(out)?;
        writeln!(out, "]}}")
    }
}

// ---- the run
// The form that a run prints in.
#[derive(Clone, Copy)]
enum Form {
    Text,
    Json,
}

impl Form {
    // Where the arguments begin that say what is shown: behind its option, if it has one.
    fn first_argument(self) -> usize
        ensures { result ≤ 2 }
    {
        match self {
            Form::Text => 1,
            Form::Json => 2,
        }
    }

    fn print(self, out: &mut Output, dump: Dump) -> fmt::Result {
        match self {
            Form::Text => dump.print(out),
            Form::Json => dump.print_json(out),
        }
    }

    // Prints why nothing is shown.
    fn print_error(self, out: &mut Output, error: Error) -> fmt::Result {
        match self {
            Form::Text => writeln!(out, "failed: {error}"),
            Form::Json => writeln!(
                out,
                "{{\"ok\": false, \"version\": \"{VERSION}\", \"failed\": {}}}",
                Quoted(error)
            ),
        }
    }
}

// Where the pages come from that the arguments name.
fn source_of(rt: HostRuntime, form: Form) -> Result<Source, Error> {
    let at = form.first_argument();
    let first = Argument { rt, at };
    match (first.word(), arguments::count(rt).saturating_sub(at)) {
        (Word::Plain, 2) => Ok(Source::files(rt, at, None)?),
        (Word::One, 5) => Ok(Source::parts(rt, at + 1, None)?),
        (Word::Plain | Word::One, _) => Err(Error::Usage),
        _ => Err(arguments::Error::UnknownOption(first).into()),
    }
}

// Shows the pages that the arguments name. Their lengths are right, so a save of nothing isn't refused.
// What is printed always goes through.
fn show(out: &mut Output, form: Form) -> Result<(), Error> {
    let rt = out.runtime();
    let source = source_of(rt, form)?;
    let mut left = loads::page_buffer();
    let mut right = loads::page_buffer();
    let pair = source.load(rt, &mut left, &mut right)?;
    if let Ok(save) = Walk::save(pair, image_start(), b"") {
        let _ = form.print(out, Dump { source, pair, save });
    }
    Ok(())
}

// Shows the pages, or prints why it doesn't.
fn run_form(out: &mut Output, form: Form) -> fmt::Result {
    show(out, form).or_else(|error| form.print_error(out, error))
}

fn help(out: &mut Output) -> fmt::Result {
    writeln!(
        out,
        "show [--json] LEFT RIGHT\nshow [--json] --one FILE LEFT-AT RIGHT-AT LENGTH\n  what two dumps of pages hold; --json: as one JSON object"
    )?;
    writeln!(
        out,
        "  --one: both pages are in FILE, LENGTH bytes each, from the bytes LEFT-AT and RIGHT-AT on\n  a file - is standard input\nok: help"
    )
}

fn run(out: &mut Output) -> fmt::Result {
    let rt = out.runtime();
    match (Argument { rt, at: 1 }).word() {
        Word::Help => help(out),
        Word::Version => arguments::print_version(out),
        Word::Crowded => Form::Text.print_error(out, Error::Usage),
        Word::Json => run_form(out, Form::Json),
        _ => run_form(out, Form::Text),
    }
}

fn main(rt: HostRuntime) {
    let mut out = Output::new(rt);
    let _ = run(&mut out);
    out.flush();
}
