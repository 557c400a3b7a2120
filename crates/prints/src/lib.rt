// Printing to standard output: bytes as they are, formatted text by `write!`, and bytes from outside,
// escaped.
//
// What is printed is gathered in an `Output`, and written in one piece where the next bytes don't fit,
// and by `flush`. A write that fails is passed over.
#![tactic(auto)]

ghost use Rattle.std.specs.Prelude.{◌≡◌, ◌<◌, ◌≤◌, ℕ, List, [], ◌∷◌, length, take, true, Some, IsTrue, MatchOption};
ghost use Rattle.std.specs.Fmt.{digit_glyph};
ghost use Rattle.std.specs.List.{flat_map};
ghost use Rattle.std.specs.Result.{IsOk};
ghost use Rattle.prints.specs.Prints.{gathered_after, escaped, dotted};

use std::marker::Model;
use std::time::CpuClock;
use std::{fmt, str};

// The version of the project, which include/fretgalaxy.h has too.
pub const VERSION: &str = "0.6.0";

// How many bytes are written in one piece at most.
const SIZE: usize = 65533;

// How many bytes from outside are printed in one piece at most.
const PART: usize = 64;

// How many bytes one from outside is printed as at most.
const WIDTH: usize = 4;

// How many bytes such a piece is printed as at most.
const ROOM: usize = WIDTH * PART;

// What a program prints to, and what is gathered for it. Memory is fixed, so the bytes gathered are the
// first `len` of a buffer.
#[derive(Drop)]
pub struct Output {
    rt: HostRuntime,
    buffer: [u8; SIZE],
    len: usize,
}

impl Model for Output {
    ghost Value = { List ℕ };

    ghost view = { λ out. take out.len out.buffer };

    ghost invariant = { λ out. out.len ≤ 65533 };
}

impl Output {
    // With nothing gathered.
    pub fn new(rt: HostRuntime) -> Output
        ensures { result ≡ [] }
    {
        Output {
            rt,
            buffer: [0; SIZE],
            len: 0,
        }
    }

    // The runtime that it prints by.
    pub fn runtime(&self) -> HostRuntime {
        self.rt
    }

    // What is gathered.
    pub fn gathered(&self) -> &[u8]
        ensures { result.now ≡ self.now }
    {
        &self.buffer[..self.len]
    }

    // Prints bytes as they are.
    pub fn bytes(&mut self, bytes: &[u8])
        ensures { self.new ≡ gathered_after self.old bytes.now }
    {
        if SIZE < bytes.len() {
            self.flush();
            let _ = self.rt.write_all(bytes);
            return;
        }
        if SIZE - self.len < bytes.len() {
            self.flush();
        }
        let end = self.len + bytes.len();
        self.buffer[self.len..end].copy_from_slice(bytes);
        self.len = end;
    }

    // Writes what is gathered.
    pub fn flush(&mut self)
        ensures { self.new ≡ [] }
    {
        let _ = self.rt.write_all(self.gathered());
        self.len = 0;
    }
}

impl fmt::Write for Output {
    ghost write_str_gives = { λ old text new. new ≡ gathered_after old text };

    fn write_str(&mut self, s: &str) -> fmt::Result
        ensures ends_well { IsOk result }
        ensures gathers { self.new ≡ gathered_after self.old s.now }
    {
        self.bytes(s.as_bytes());
        Ok(())
    }
}

// ---- bytes from outside
// A digit of a number in hexadecimal.
fn hex_digit(n: u8) -> u8
    requires { n < 16 }
    ensures { result ≡ digit_glyph true n }
{
    if n < 10 { b'0' + n } else { b'A' + (n - 10) }
}

// A byte as `Escaped` prints it: the first of these bytes, and how many.
fn escaped_byte(b: u8) -> ([u8; WIDTH], usize)
    ensures fits { result.1 ≤ 4 }
    ensures text { take result.1 result.0 ≡ escaped b }
{
    match b {
        b'\\' => ([b'\\', b'\\', 0, 0], 2),
        b' '..=b'~' => ([b, 0, 0, 0], 1),
        _ => ([b'\\', b'x', hex_digit(b / 16), hex_digit(b % 16)], 4),
    }
}

// Puts bytes as `Escaped` prints them in a room, and says how many they are there.
fn escape(bytes: &[u8], room: &mut [u8; ROOM]) -> usize
    requires { length bytes.now ≤ 64 }
    ensures fits { result ≤ 256 }
    ensures text { take result room.new ≡ flat_map escaped bytes.now }
{
    let mut len = 0;
    for b in bytes {
        let (shown, count) = escaped_byte(*b);
        room[len..len + WIDTH].copy_from_slice(&shown);
        len += count;
    }
    len
}

// Whether a byte is printed as it is by `Escaped`.
fn is_plain(b: u8) -> bool
    ensures { IsTrue result → escaped b ≡ b ∷ [] }
{
    matches!(b, b' '..=b'~') && b != b'\\'
}

// Bytes as the text that `Escaped` prints, where that is the bytes as they are.
fn plain_text(bytes: &[u8]) -> Option<&str>
    ensures { MatchOption result (Unit {0}) (λ text. text.now ≡ flat_map escaped bytes.now) }
{
    if bytes.iter().all(|b| is_plain(*b)) {
        str::from_utf8(bytes).ok()
    } else {
        None
    }
}

// A few bytes as the text that `Escaped` prints, which is put in a room unless it is the bytes as they are.
fn part_text<'a>(part: &'a [u8], room: &'a mut [u8; ROOM]) -> &'a str
    requires { length part.now ≤ 64 }
    ensures { result.now ≡ flat_map escaped part.now }
{
    if let Some(text) = plain_text(part) {
        return text;
    }
    let len = escape(part, room);
    let Ok(text) = str::from_utf8(&room[..len]) else {
        unreachable!();
    };
    text
}

// Bytes that are printed with `\\` for a backslash and `\xHH` for each that isn't printable ASCII.
#[derive(Clone, Copy)]
pub struct Escaped<'a>(pub &'a [u8]);

impl fmt::Display for Escaped<'_> {
    ghost output = { λ e. Some (flat_map escaped e.0.now) };

    fn fmt<W: fmt::Write>(&self, f: &mut fmt::Formatter<W>) -> fmt::Result {
        let mut room = [0; ROOM];
        for part in self.0.chunks(PART) {
            f.write_str(part_text(part, &mut room))?;
        }
        Ok(())
    }
}

// A byte as `Printable` prints it.
#[derive(Clone, Copy)]
struct PrintableByte(u8);

impl fmt::Display for PrintableByte {
    ghost output = { λ p. Some (dotted p.0) };

    fn fmt<W: fmt::Write>(&self, f: &mut fmt::Formatter<W>) -> fmt::Result {
        let b = self.0;
        match b {
            b' '..=b'~' => write!(f, "{}", char::from(b)),
            _ => write!(f, "."),
        }
    }
}

// Bytes that are printed as characters, with a dot for each that isn't printable ASCII.
#[derive(Clone, Copy)]
pub struct Printable<'a>(pub &'a [u8]);

impl fmt::Display for Printable<'_> {
    ghost output = { λ p. Some (flat_map dotted p.0.now) };

    fn fmt<W: fmt::Write>(&self, f: &mut fmt::Formatter<W>) -> fmt::Result {
        for b in self.0 {
            write!(f, "{}", PrintableByte(*b))?;
        }
        Ok(())
    }
}

// ---- how long a run takes
// How many seconds of the processor's time the run has taken, 0 where that isn't known.
fn seconds(rt: HostRuntime) -> u64 {
    rt.process_cpu_time().map_or(0, |time| time.as_secs())
}

// Says on standard error at which line of a script a run is, every two seconds, and gives the second
// from which on it is said again.
pub fn progress(rt: HostRuntime, line: u64, due: u64) -> u64 {
    let now = seconds(rt);
    if now < due {
        return due;
    }
    let _ = eprintln!(rt; "replay: at script line {line}");
    now.wrapping_add(2)
}
