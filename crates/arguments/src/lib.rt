// The arguments of a program: options, names of files and numbers, how they are printed, and what is
// wrong where one isn't right. The lines are in docs/FORMATS.md.
//
// No contract can say what an argument or a file holds.
#![tactic(auto)]

use digits::Fault;
use prints::{Escaped, Output, VERSION};
use std::env::{Env, FillError};
use std::fmt::Write;
use std::fs::File;
use std::io::{Read, Stdin};
use std::{fmt, io};

// The room that an argument needs so that every name which may be opened fits.
const NAME_SIZE: usize = 4095;

// How many bytes of an argument that is wrong are printed.
const SHOWN: usize = 40;

// The system's number for a name that is none: a number, since the line of such an error prints it.
const NO_NAME: i32 = 22;

// An argument of the program: the first is its own name.
#[derive(Clone, Copy)]
pub struct Argument {
    pub rt: HostRuntime,
    pub at: usize,
}

// An argument that is an option, begins as one, or is none. The help and the version stand alone; with
// other arguments they are crowded.
// Each program takes some of these words and refuses the others in one arm, so `Unknown` is no None.
#[derive(Clone, Copy, PartialEq, Eq, Debug)]
pub enum Word {
    Help,
    Version,
    Crowded,
    Json,
    All,
    Cuts,
    One,
    Unknown,
    Plain,
}

// Where the name of a file stands: an argument, or the sample, of which it is a file.
#[derive(Clone, Copy)]
pub enum Name {
    Argument(Argument),
    Sample(&'static str),
}

// What is wrong with an argument. (Its runtime has no Debug, so this is no `std::error::Error`.)
#[derive(Clone, Copy)]
pub enum Error {
    UnknownOption(Argument),
    TooLong(usize),
    InputTwice,
    NoNumber(&'static str, Argument),
    PastBits(&'static str, Argument),
}

// How many arguments there are, the program's own name among them.
pub fn count(rt: HostRuntime) -> usize {
    (0..usize::MAX)
        .find(|i| matches!(rt.arg(*i, &mut [0; 1]), Err(FillError::NotPresent)))
        .unwrap_or(usize::MAX)
}

// Prints the last line of a run that prints the version.
pub fn print_version(out: &mut Output) -> fmt::Result {
    writeln!(out, "ok: Fretgalaxy {VERSION}")
}

impl Argument {
    // Its first bytes, as many as there is room for.
    fn start(self, space: &mut [u8]) -> &[u8] {
        let size = match self.rt.arg(self.at, space) {
            Ok(size) => size,
            Err(FillError::TooLong) => space.len(),
            Err(FillError::NotPresent) => 0,
        };
        &space[..size]
    }

    // Its bytes where there is room for all, else none.
    fn whole(self, space: &mut [u8]) -> &[u8] {
        let size = self.rt.arg(self.at, space).unwrap_or(0);
        &space[..size]
    }

    // What it is as an option.
    pub fn word(self) -> Word {
        let is_alone = count(self.rt) == 2;
        match self.whole(&mut [0; 10]) {
            b"--help" if is_alone => Word::Help,
            b"--version" if is_alone => Word::Version,
            b"--help" | b"--version" => Word::Crowded,
            b"--json" => Word::Json,
            b"--all" => Word::All,
            b"--cuts" => Word::Cuts,
            b"--one" => Word::One,
            _ if matches!(self.start(&mut [0; 2]), b"--") => Word::Unknown,
            _ => Word::Plain,
        }
    }

    // Whether it is longer than any name of a file.
    fn is_too_long(self) -> bool {
        matches!(
            self.rt.arg(self.at, &mut [0; NAME_SIZE]),
            Err(FillError::TooLong)
        )
    }

    // Whether it names standard input.
    fn is_input(self) -> bool {
        matches!(self.whole(&mut [0; 2]), b"-")
    }

    // The number that it is, of a label.
    pub fn number(self, label: &'static str) -> Result<u32, Error> {
        parse(self.start(&mut [0; NAME_SIZE])).map_err(|fault| match fault {
            Fault::PastBits => Error::PastBits(label, self),
            _ => Error::NoNumber(label, self),
        })
    }
}

impl fmt::Display for Argument {
    fn fmt<W: fmt::Write>(&self, f: &mut fmt::Formatter<W>) -> fmt::Result {
        write!(f, "{}", Escaped(self.start(&mut [0; SHOWN])))
    }
}

impl fmt::Display for Error {
    fn fmt<W: fmt::Write>(&self, f: &mut fmt::Formatter<W>) -> fmt::Result {
        match self {
            Error::UnknownOption(word) => {
                write!(f, "unknown option '{word}', --help says which there are")
            }
            Error::TooLong(at) => write!(f, "argument {at} is too long for a file name"),
            Error::InputTwice => write!(f, "standard input is named twice"),
            Error::NoNumber(label, word) => write!(f, "{label}: '{word}' is no number"),
            Error::PastBits(label, word) => write!(f, "{label}: the number {word} is past 32 bits"),
        }
    }
}

// ---- names
impl Name {
    // Whether two names are those of one file. It reads the arguments, of which no contract can say
    // anything, so no law of `PartialEq` could be proved of it.
    pub fn is_same(self, other: Name) -> bool {
        match (self, other) {
            (Name::Argument(left), Name::Argument(right)) => {
                left.whole(&mut [0; NAME_SIZE]) == right.whole(&mut [0; NAME_SIZE])
            }
            _ => false,
        }
    }
}

impl fmt::Display for Name {
    fn fmt<W: fmt::Write>(&self, f: &mut fmt::Formatter<W>) -> fmt::Result {
        match self {
            Name::Argument(name) if name.is_input() => write!(f, "standard input"),
            Name::Argument(name) => write!(f, "{}", Escaped(name.start(&mut [0; NAME_SIZE]))),
            Name::Sample(path) => write!(f, "{path}"),
        }
    }
}

// Whether arguments may be names of files: none is too long, and standard input isn't named twice.
pub fn check_names(names: &[Option<Argument>]) -> Result<(), Error> {
    if let Some(name) = names.iter().flatten().find(|name| name.is_too_long()) {
        return Err(Error::TooLong(name.at));
    }
    if names
        .iter()
        .flatten()
        .filter(|name| name.is_input())
        .count()
        > 1
    {
        return Err(Error::InputTwice);
    }
    Ok(())
}

// ---- files
// An open file, or standard input.
#[derive(Drop)]
pub enum Opened {
    Input(Stdin),
    File(File),
}

impl Read for Opened {
    fn read(&mut self, into: &mut [u8]) -> io::Result<usize> {
        match self {
            Opened::Input(input) => input.read(into),
            Opened::File(file) => file.read(into),
        }
    }
}

// Opens the file of a path. The system's paths are text here, so bytes that are none name no file.
fn open_path(rt: HostRuntime, path: &[u8]) -> io::Result<Opened> {
    let path = std::str::from_utf8(path).map_err(|_| io::Error::from_raw_os_error(NO_NAME))?;
    Ok(Opened::File(File::open(&rt, path)?))
}

// Opens the file of a name, or takes standard input.
pub fn open(rt: HostRuntime, name: Name) -> io::Result<Opened> {
    match name {
        Name::Argument(name) if name.is_input() => Ok(Opened::Input(rt.stdin())),
        Name::Argument(name) => open_path(rt, name.whole(&mut [0; NAME_SIZE])),
        Name::Sample(path) => Ok(Opened::File(File::open(&rt, path)?)),
    }
}

// ---- numbers
// The number of hexadecimal digits. One that is past 32 bits is read on all the same: a byte that is no
// digit is the fault to be told. Not one function with `digits::parse_number`, whose contract and whose laws
// are those of base ten.
fn parse_hex(word: &[u8]) -> Result<u32, Fault> {
    let mut number = Some(0u32);
    for byte in word {
        let digit = char::from(*byte).to_digit(16).ok_or(Fault::NotNumber)?;
        number = number.and_then(|value| value.checked_mul(16)?.checked_add(digit));
    }
    number.ok_or(Fault::PastBits)
}

// The number of a word: hexadecimal where it has `0x` and more behind it, else decimal.
fn parse(word: &[u8]) -> Result<u32, Fault> {
    match word.strip_prefix(b"0x") {
        Some(digits) if !digits.is_empty() => parse_hex(digits),
        _ => digits::parse_number(word),
    }
}
