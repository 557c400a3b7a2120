// Loading the files that a program is given: a file or two pages into lent buffers, and what is wrong
// where one of them can't be used. The lines are in docs/FORMATS.md.
//
// No contract can say what is read.
#![tactic(auto)]

ghost use Rattle.std.specs.Prelude.{◌≡◌, ◌≤◌, length, IfOk};
ghost use Rattle.requests.specs.Numbers.{pages_number};

use arguments::{Argument, Name, Opened};
use copies::first;
use pages::{Pair, Side};
use std::io::Read;
use std::{fmt, io};

// The system's numbers for errors that have lines of their own: no such file, may not be read, and a
// directory. No ErrorKind: 1 and 13 are one kind and have two lines, and the other lines print the number.
const NO_FILE: i32 = 2;

const NO_ACCESS: i32 = 13;

const IS_DIRECTORY: i32 = 21;

// The number of a call that signals cut short again and again: std gives that error without one, and its
// line prints one.
const CUT_SHORT: i32 = 4;

// Where two pages come from.
#[derive(Clone, Copy)]
pub enum Source {
    Files { left: Name, right: Name },
    Parts(Parts),
}

// Two pages in one file: from which byte on each is, and how long both are.
#[derive(Clone, Copy)]
pub struct Parts {
    pub file: Name,
    pub left_at: u32,
    pub right_at: u32,
    pub length: u32,
}

// Where a page comes from: a file, or the part of one from a byte on.
#[derive(Clone, Copy)]
pub struct Origin {
    pub name: Name,
    pub from: Option<u32>,
}

// What is wrong with the files of a run, or with the arguments that name them.
#[derive(Clone, Copy)]
pub enum Error {
    Argument(arguments::Error),
    // Reading a file failed with one of the system's numbers.
    Unread(Name, i32),
    // Two files whose bytes, so many each, are no pages.
    Lengths(Name, usize, Name, usize),
    // A length that no page has.
    Length(u32),
    // A file of so many bytes ends before one of its parts.
    Past(Parts, usize, Side),
}

// A buffer for a page, with a byte more than a page may have, so that a longer file is seen.
pub fn page_buffer() -> [u8; 4097]
    ensures { 4097 ≡ length result }
{
    [0; 4097]
}

// ---- what is wrong
impl From<arguments::Error> for Error {
    fn from(error: arguments::Error) -> Error {
        Error::Argument(error)
    }
}

// A number of bytes as it is printed.
#[derive(Clone, Copy)]
struct Bytes(usize);

impl fmt::Display for Bytes {
    fn fmt<W: fmt::Write>(&self, f: &mut fmt::Formatter<W>) -> fmt::Result {
        let count = self.0;
        match count {
            1 => write!(f, "1 byte"),
            _ => write!(f, "{count} bytes"),
        }
    }
}

// The length of a file that should be a page. Of one that is longer than any page no more is known.
#[derive(Clone, Copy)]
struct Length(usize);

impl fmt::Display for Length {
    fn fmt<W: fmt::Write>(&self, f: &mut fmt::Formatter<W>) -> fmt::Result {
        if pages::MAX_PAGE < self.0 {
            write!(f, "more than 4096 bytes")
        } else {
            write!(f, "{}", Bytes(self.0))
        }
    }
}

// What is wrong with lengths of number 1.
fn fault_of(left: usize, right: usize) -> &'static str {
    if left != right {
        "the pages differ in length"
    } else if pages::MAX_PAGE < left {
        "P is above 4096"
    } else if left % 2 != 0 {
        "P is odd"
    } else {
        "P is below 8"
    }
}

// The text of an error that has one, as it follows the error's number.
fn text_of(number: i32) -> &'static str {
    match number {
        1 => ": not permitted",
        5 => ": the device failed",
        6 => ": no such device",
        11 => ": nothing to read yet",
        12 => ": no memory is left",
        20 => ": a part of the name is no directory",
        22 => ": not a name or not readable",
        23 | 24 => ": too many open files",
        36 => ": file name too long",
        40 => ": too many links",
        75 => ": the file is too large",
        _ => "",
    }
}

// How a file of the sample that isn't there can be found.
fn hint_of(name: &Name) -> &'static str {
    match name {
        Name::Argument(_) => "",
        Name::Sample(_) => {
            "; run replay in the folder of README.md, or name LEFT, RIGHT and SCRIPT"
        }
    }
}

impl fmt::Display for Error {
    fn fmt<W: fmt::Write>(&self, f: &mut fmt::Formatter<W>) -> fmt::Result {
        match self {
            Error::Argument(error) => write!(f, "{error}"),
            Error::Unread(name, number) => {
                match *number {
                    NO_FILE => write!(f, "{name}: no such file")?,
                    IS_DIRECTORY => write!(f, "{name}: it is a directory")?,
                    NO_ACCESS => write!(f, "{name}: it may not be read")?,
                    // No number is below 0.
                    number => write!(
                        f,
                        "{name}: reading it failed with error {}{}",
                        number.max(0),
                        text_of(number)
                    )?,
                }
                write!(f, "{}", hint_of(name))
            }
            Error::Lengths(left_name, left, right_name, right) => write!(
                f,
                "number 1: {left_name} has {} and {right_name} has {}: {}",
                Length(*left),
                Length(*right),
                fault_of(*left, *right)
            ),
            Error::Length(length) => {
                let page = *length as usize;
                write!(f, "number 1: LENGTH is {page}: {}", fault_of(page, page))
            }
            Error::Past(parts, size, side) => {
                let at = parts.start(*side);
                let Parts { file, length, .. } = *parts;
                write!(
                    f,
                    "{file} has {}: {side}, {length} bytes from byte {at} on, goes past its end",
                    Bytes(*size)
                )
            }
        }
    }
}

// The error of a file that isn't read.
fn unread(name: Name, error: io::Error) -> Error {
    Error::Unread(name, error.raw_os_error().unwrap_or(CUT_SHORT))
}

// ---- files
// Reads from an open file until the buffer is full or the file ends, and gives how many bytes were read.
fn fill(file: &mut Opened, into: &mut [u8]) -> io::Result<usize>
    ensures { IfOk result (λ count. count ≤ length into.new) }
{
    let mut done = 0;
    // How many bytes a read gives is the file's to say, so no `for` goes over them.
    while done < into.len() {
        match file.read(&mut into[done..])? {
            0 => break,
            count => done += count,
        }
    }
    Ok(done)
}

fn read_file(rt: HostRuntime, name: Name, into: &mut [u8]) -> io::Result<usize>
    ensures { IfOk result (λ count. count ≤ length into.new) }
{
    fill(&mut arguments::open(rt, name)?, into)
}

// Reads the file of a name into a buffer, up to the buffer's length, and gives what was read.
pub fn load_file<'a>(rt: HostRuntime, name: Name, into: &'a mut [u8]) -> Result<&'a [u8], Error>
    ensures { IfOk result (λ bytes. length bytes.now ≤ length into.entry.now) }
{
    let size = read_file(rt, name, into).map_err(|error| unread(name, error))?;
    Ok(&into[..size])
}

// ---- two pages
impl Parts {
    // From which byte on the part of a side is.
    fn start(self, side: Side) -> u32 {
        side.pick(self.left_at, self.right_at)
    }

    // Where the part of a side ends.
    fn end_of(self, side: Side) -> usize
        ensures { result ≤ 8589934590 }
    {
        self.start(side) as usize + self.length as usize
    }

    // Where the later of the two ends.
    fn end(self) -> usize
        ensures { result ≤ 8589934590 }
    {
        self.end_of(Side::Left).max(self.end_of(Side::Right))
    }
}

// Keeps of bytes that stand at a place of a file those that a part has, which begins at another.
fn keep(bytes: &[u8], at: usize, start: u32, part: &mut [u8]) {
    let start = start as usize;
    let kept = bytes.iter().skip(start.saturating_sub(at));
    for (to, from) in part.iter_mut().skip(at.saturating_sub(start)).zip(kept) {
        *to = *from;
    }
}

// Reads a file up to the end of the later part or its own, keeps both parts of it, and gives how many
// bytes were read. It is never put where it is called, so that nothing else needs the room of its chunk.
// Here and below both buffers, lent for writing, go side by side, as `pages::Pair` says.
#[inline(never)]
fn fill_parts(
    file: &mut Opened,
    parts: Parts,
    left: &mut [u8],
    right: &mut [u8],
) -> io::Result<usize> {
    let mut chunk = [0u8; 4096];
    let end = parts.end();
    let mut done = 0;
    // As in `fill`, no `for` goes over reads.
    while done < end {
        let count = file.read(&mut chunk)?;
        if count == 0 {
            break;
        }
        keep(&chunk[..count], done, parts.left_at, left);
        keep(&chunk[..count], done, parts.right_at, right);
        done += count;
    }
    Ok(done)
}

fn read_parts(
    rt: HostRuntime,
    parts: Parts,
    left: &mut [u8],
    right: &mut [u8],
) -> io::Result<usize> {
    fill_parts(&mut arguments::open(rt, parts.file)?, parts, left, right)
}

// Reads two pages from one file.
fn load_parts(
    rt: HostRuntime,
    parts: Parts,
    left: &mut [u8],
    right: &mut [u8],
) -> Result<(), Error> {
    let size = read_parts(rt, parts, left, right).map_err(|error| unread(parts.file, error))?;
    // The first side that the file has no room for is told.
    for side in [Side::Left, Side::Right] {
        if size < parts.end_of(side) {
            return Err(Error::Past(parts, size, side));
        }
    }
    Ok(())
}

impl Source {
    // The sample's pages.
    pub fn story() -> Source {
        Source::Files {
            left: Name::Sample("samples/story-left.bin"),
            right: Name::Sample("samples/story-right.bin"),
        }
    }

    // Two files that an argument and the next name, with a script, if there is one, that another names. Where
    // there is none the program's own name, argument 0, is looked at in its place.
    pub fn files(rt: HostRuntime, at: usize, script: Option<usize>) -> Result<Source, Error> {
        let argument = |at: usize| Argument { rt, at };
        let left = argument(at);
        let right = argument(at.wrapping_add(1));
        let third = argument(script.unwrap_or(0));
        arguments::check_names(&[Some(left), Some(right), Some(third)])?;
        Ok(Source::Files {
            left: Name::Argument(left),
            right: Name::Argument(right),
        })
    }

    // Two parts of one file that an argument names, with LEFT-AT, RIGHT-AT and LENGTH behind it, and with a
    // script, if there is one, that another names. The program's own name, argument 0, is looked at in place of
    // a second file, and of a script where there is none.
    pub fn parts(rt: HostRuntime, at: usize, script: Option<usize>) -> Result<Source, Error> {
        let argument = |at: usize| Argument { rt, at };
        let file = argument(at);
        let third = argument(script.unwrap_or(0));
        arguments::check_names(&[Some(file), Some(argument(0)), Some(third)])?;
        let left_at = argument(at.wrapping_add(1)).number("LEFT-AT")?;
        let right_at = argument(at.wrapping_add(2)).number("RIGHT-AT")?;
        let length = argument(at.wrapping_add(3)).number("LENGTH")?;
        let page = length as usize;
        requests::check_pages(page, page).map_err(|_| Error::Length(length))?;
        Ok(Source::Parts(Parts {
            file: Name::Argument(file),
            left_at,
            right_at,
            length,
        }))
    }

    // Where the page of a side comes from.
    pub fn origin(self, side: Side) -> Origin {
        match self {
            Source::Files { left, right } => Origin {
                name: side.pick(left, right),
                from: None,
            },
            Source::Parts(parts) => Origin {
                name: parts.file,
                from: Some(parts.start(side)),
            },
        }
    }

    // Reads the two pages into buffers. A file that is too long is seen where its buffer has more than
    // 4,096 bytes.
    pub fn load<'a>(
        self,
        rt: HostRuntime,
        left: &'a mut [u8],
        right: &'a mut [u8],
    ) -> Result<Pair<'a>, Error>
        ensures { IfOk result (λ pair. pages_number (length pair.left.now) (length pair.right.now) ≡ 0) }
    {
        let (left, right) = match self {
            Source::Files {
                left: left_name,
                right: right_name,
            } => (
                load_file(rt, left_name, left)?,
                load_file(rt, right_name, right)?,
            ),
            Source::Parts(parts) => {
                load_parts(rt, parts, left, right)?;
                // Nothing promises here that LENGTH fits, so `first`.
                let page = parts.length as usize;
                (first(left, page), first(right, page))
            }
        };
        let checked = requests::check_pages(left.len(), right.len());
        checked.map_err(|_| self.wrong_lengths(left.len(), right.len()))?;
        Ok(Pair { left, right })
    }

    // The error of pages that were read and have no legal length.
    fn wrong_lengths(self, left: usize, right: usize) -> Error {
        match self {
            Source::Files {
                left: left_name,
                right: right_name,
            } => { Error::Lengths(left_name, left, right_name, right) }
            Source::Parts(parts) => Error::Length(parts.length),
        }
    }
}

impl fmt::Display for Origin {
    fn fmt<W: fmt::Write>(&self, f: &mut fmt::Formatter<W>) -> fmt::Result {
        let Origin { name, from } = *self;
        match from {
            Some(from) => write!(f, "{name} from byte {from} on"),
            None => write!(f, "{name}"),
        }
    }
}

// A line for each of the two pages, the second with no end.
impl fmt::Display for Source {
    fn fmt<W: fmt::Write>(&self, f: &mut fmt::Formatter<W>) -> fmt::Result {
        write!(
            f,
            "LEFT  {}\nRIGHT {}",
            self.origin(Side::Left),
            self.origin(Side::Right)
        )
    }
}
