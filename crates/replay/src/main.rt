// Replays a script of calls on two dumps, and prints what the board answers and what its pages then
// hold; or cuts the script's last save or format after each number of its steps. What it reads and
// prints is in docs/FORMATS.md.
#![tactic(auto)]

ghost use Rattle.std.specs.Prelude.{◌≤◌};

use answers::Steps;
use arguments::{Argument, Name, Word};
use loads::Source;
use pages::Pair;
use prints::Output;
use std::fmt;
use std::fmt::Write;

// How many bytes a script has at most, and a byte more, so that a longer one is seen.
const ROOM: usize = 262144;

const USAGE: &str = "replay [--all | --cuts] [LEFT RIGHT SCRIPT]";

const USAGE_ONE: &str = "replay [--all | --cuts] --one FILE LEFT-AT RIGHT-AT LENGTH SCRIPT";

// What a run is asked for: the help, the version, or a replay.
#[derive(Clone, Copy)]
enum Task {
    Help,
    Version,
    Replay(Lines, Files),
}

// Which lines a replay has: those of the calls, or the cuts.
#[derive(Clone, Copy)]
enum Lines {
    Calls(Steps),
    Cuts,
}

// Where the pages and the script come from.
#[derive(Clone, Copy)]
struct Files {
    source: Source,
    script: Name,
}

// ---- what is wrong
// Why a run fails.
#[derive(Clone, Copy)]
enum Error<'a> {
    Usage,
    Arguments(arguments::Error),
    Loads(loads::Error),
    TooLong(Name),
    Script(listings::Error<'a>),
    NoWalk(Name),
}

impl From<arguments::Error> for Error<'_> {
    fn from(error: arguments::Error) -> Self {
        Error::Arguments(error)
    }
}

impl From<loads::Error> for Error<'_> {
    fn from(error: loads::Error) -> Self {
        Error::Loads(error)
    }
}

impl<'a> From<listings::Error<'a>> for Error<'a> {
    fn from(error: listings::Error<'a>) -> Self {
        Error::Script(error)
    }
}

impl fmt::Display for Error<'_> {
    fn fmt<W: fmt::Write>(&self, f: &mut fmt::Formatter<W>) -> fmt::Result {
        match self {
            Error::Usage => write!(f, "usage: {USAGE}, or {USAGE_ONE}"),
            Error::Arguments(error) => write!(f, "{error}"),
            Error::Loads(error) => write!(f, "{error}"),
            Error::TooLong(script) => write!(f, "{script}: more than 262143 bytes"),
            Error::Script(error) => write!(f, "{error}"),
            Error::NoWalk(script) => write!(f, "{script}: no save or format in it is begun"),
        }
    }
}

// ---- the arguments
impl Files {
    // The files that the arguments from one on name, or the sample where there are no more.
    fn from_arguments<'a>(rt: HostRuntime, at: usize) -> Result<Files, Error<'a>>
        requires { at ≤ 2 }
    {
        let count = arguments::count(rt);
        let first = Argument { rt, at };
        match first.word() {
            Word::Plain if count <= at => Ok(Files {
                source: Source::story(),
                script: Name::Sample("samples/story.txt"),
            }),
            Word::Plain if count == at + 3 => Ok(Files {
                source: Source::files(rt, at, Some(at + 2))?,
                script: Name::Argument(Argument { rt, at: at + 2 }),
            }),
            Word::One if count == at + 6 => Ok(Files {
                source: Source::parts(rt, at + 1, Some(at + 5))?,
                script: Name::Argument(Argument { rt, at: at + 5 }),
            }),
            Word::Plain | Word::One => Err(Error::Usage),
            _ => Err(arguments::Error::UnknownOption(first).into()),
        }
    }
}

impl Task {
    fn from_arguments<'a>(rt: HostRuntime) -> Result<Task, Error<'a>> {
        let first = Argument { rt, at: 1 };
        match first.word() {
            Word::Help => Ok(Task::Help),
            Word::Version => Ok(Task::Version),
            Word::Crowded => Err(Error::Usage),
            Word::All => Ok(Task::Replay(Lines::Calls(Steps::Each), Files::from_arguments(rt, 2)?)),
            Word::Cuts => Ok(Task::Replay(Lines::Cuts, Files::from_arguments(rt, 2)?)),
            _ => Ok(Task::Replay(Lines::Calls(Steps::Folded), Files::from_arguments(rt, 1)?)),
        }
    }
}

// ---- the run
// Loads a script, whose lines are right, without the mark with which UTF-8 may begin.
fn load_script(rt: HostRuntime, script: Name, room: &mut [u8]) -> Result<&[u8], Error<'_>> {
    let bytes = loads::load_file(rt, script, room)?;
    if ROOM <= bytes.len() {
        return Err(Error::TooLong(script));
    }
    let text = bytes.strip_prefix(b"\xEF\xBB\xBF").unwrap_or(bytes);
    listings::check(script, text)?;
    Ok(text)
}

// Loads the script, and runs it on the pages.
fn run_script<'a>(
    out: &mut Output,
    lines: Lines,
    files: Files,
    pair: Pair<'_>,
    room: &'a mut [u8],
) -> Result<(), Error<'a>> {
    let Files { source, script } = files;
    let text = load_script(out.runtime(), script, room)?;
    match lines {
        Lines::Calls(steps) => {
            let _ = write!(out, "{source}\nP = {}", pair.left.len());
            timelines::run(out, text, pair, steps);
        }
        Lines::Cuts => {
            cuts::run(out, source, text, pair).ok_or(Error::NoWalk(script))?;
        }
    }
    Ok(())
}

fn print_error(out: &mut Output, error: Error<'_>) {
    let _ = writeln!(out, "failed: {error}");
}

// Runs the script in a room of its own, or prints what is wrong, of which the script may be a part. It is
// never put where it is called, so that nothing else needs the room of the script.
#[inline(never)]
fn run_in_room(out: &mut Output, lines: Lines, files: Files, pair: Pair<'_>) {
    let mut room = [0; ROOM];
    if let Err(error) = run_script(out, lines, files, pair, &mut room) {
        print_error(out, error);
    }
}

// Loads the pages, and runs the script on them. It is never put where it is called, so that nothing else
// needs the room of the pages.
#[inline(never)]
fn replay(out: &mut Output, lines: Lines, files: Files) -> Result<(), loads::Error> {
    let mut left_room = loads::page_buffer();
    let mut right_room = loads::page_buffer();
    let pair = files
        .source
        .load(out.runtime(), &mut left_room, &mut right_room)?;
    run_in_room(out, lines, files, pair);
    Ok(())
}

fn print_help(out: &mut Output) -> fmt::Result {
    writeln!(out, "{USAGE}")?;
    writeln!(out, "{USAGE_ONE}")?;
    writeln!(
        out,
        "  a script of calls and power cuts on copies of two dumps of pages"
    )?;
    writeln!(
        out,
        "  --all: every step has its lines; --cuts: the last save or format is cut after each of its steps"
    )?;
    writeln!(
        out,
        "  --one: both pages are in FILE, LENGTH bytes each, from the bytes LEFT-AT and RIGHT-AT on"
    )?;
    writeln!(
        out,
        "  a file - is standard input; with no files the sample in samples/ is replayed"
    )?;
    writeln!(
        out,
        "  a line of SCRIPT: save OFFSET HEX, format, step, step N, step all, step with HEX,"
    )?;
    writeln!(
        out,
        "  read OFFSET LENGTH, copy OFFSET LENGTH, cut; # and what follows is a comment"
    )?;
    writeln!(out, "ok: help")
}

// What is printed goes to an `Output`, which never fails, so its results are passed over.
fn run<'a>(out: &mut Output) -> Result<(), Error<'a>> {
    match Task::from_arguments(out.runtime())? {
        Task::Help => {
            let _ = print_help(out);
        }
        Task::Version => {
            let _ = arguments::print_version(out);
        }
        Task::Replay(lines, files) => replay(out, lines, files)?,
    }
    Ok(())
}

fn main(rt: HostRuntime) {
    let mut out = Output::new(rt);
    if let Err(error) = run(&mut out) {
        print_error(&mut out, error);
    }
    out.flush();
}
