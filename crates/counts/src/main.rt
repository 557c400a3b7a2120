// Walks document 01's table of counts at P = 4,096, "at most 2,052 steps", and compares. The layout
// of what it prints is in docs/FORMATS.md.
#![tactic(auto)]

use flash::StepError;
use pages::{PageOffset, Pair};
use prints::Output;
use requests::Refusal;
use std::fmt;
use std::fmt::Write;
use walks::{Progress, Walk};

// The line of two pages, and how many steps a save and a format have on them; none where a walk is
// refused or doesn't end.
#[derive(Clone, Copy, PartialEq, Eq)]
struct Counts {
    line: u8,
    save: Option<u32>,
    format: Option<u32>,
}

// The words of LEFT and RIGHT, the first cell of both images, whose other cells hold FFFF, and
// document 01's counts for them at P = 4,096, where C is 2,046.
#[derive(Clone, Copy)]
struct Row {
    left: u32,
    right: u32,
    cell: u16,
    counts: Counts,
}

// A row in a line: its words, its cell, and its counts.
macro_rules! row {
    ($left:literal, $right:literal, $cell:literal, $line:literal, $save:literal, $format:literal) => {
        Row {
            left: $left,
            right: $right,
            cell: $cell,
            counts: Counts {
                line: $line,
                save: Some($save),
                format: Some($format),
            },
        }
    };
}

const ROWS: [Row; 14] = [
    row!(0xFFFFFFFF, 0xFFFFFFFF, 0xFFFF, 0, 2049, 0),
    row!(0xFFFFFFFF, 0xFFFFFFFF, 0x0000, 0, 2052, 3),
    row!(0xFFFF0000, 0xFFFF0000, 0xFFFF, 0, 2052, 3),
    row!(0xFFFF0000, 0xFFFFFFFF, 0xFFFF, 1, 2049, 3),
    row!(0xFFFF0000, 0xFFFFFFFF, 0x0000, 1, 2050, 3),
    row!(0xFFFF0000, 0xFF00FFFF, 0xFFFF, 2, 2051, 3),
    row!(0xFFFF0000, 0xFF000000, 0xFFFF, 3, 2050, 3),
    row!(0xFFFF0000, 0xFFFFFF00, 0xFFFF, 5, 2052, 3),
    row!(0xFF000000, 0xFFFFFF00, 0xFFFF, 6, 2051, 3),
    row!(0xFF000000, 0xFFFF0000, 0xFFFF, 7, 2050, 3),
    row!(0xFFFFFFFF, 0xFFFF0000, 0xFFFF, 8, 2049, 3),
    row!(0xFFFFFFFF, 0xFFFF0000, 0x0000, 8, 2050, 3),
    row!(0xFFFFFF00, 0xFFFF0000, 0xFFFF, 9, 2052, 3),
    row!(0xFFFFFF00, 0xFF000000, 0xFFFF, 10, 2051, 3),
];

// More steps than any walk makes.
const MOST_STEPS: u32 = 3000;

// What is printed for the count of a walk that is refused or doesn't end, which is None till then: the line
// has a number in its place, and no walk has so many steps.
const NO_COUNT: u32 = 9999;

// A save's data.
const DATA: [u8; 2] = [1, 2];

// Programs an erased page's word and the first cell of its image.
fn prepare(page: &mut [u8], word: u32, cell: u16) -> Result<(), StepError> {
    flash::program(page, 0, (word & 0xFFFF) as u16)?;
    flash::program(page, 2, (word >> 16) as u16)?;
    flash::program(page, 4, cell)
}

// Steps a walk to its end and counts the steps made.
// Both pages lent for writing go side by side, as `pages::Pair` says.
fn count_steps(
    begun: Result<Walk, Refusal>,
    left: &mut [u8],
    right: &mut [u8],
    data: &[u8],
) -> Option<u32> {
    let walk = begun.ok()?;
    let ran = walk.run(MOST_STEPS, left, right, data);
    matches!(ran.progress, Progress::Ended).then_some(ran.steps)
}

impl Row {
    // Asks two pages of 4,096 bytes with the row's words and cell.
    fn ask<T, F: FnOnce(&mut [u8], &mut [u8]) -> T>(self, ask: F) -> T
        requires { F.IsAlwaysCallable ask }
    {
        let mut left = [255u8; 4096];
        let mut right = [255u8; 4096];
        // Every bit of both pages is set, so each step fits; a count would be wrong otherwise.
        let _ = prepare(&mut left, self.left, self.cell);
        let _ = prepare(&mut right, self.right, self.cell);
        ask(&mut left, &mut right)
    }

    // What the library counts.
    fn count(self) -> Counts {
        Counts {
            line: self.ask(|left, right| table::status_of(Pair { left, right }).state.line()),
            save: self.ask(|left, right| {
                count_steps(
                    Walk::save(Pair { left, right }, PageOffset(4), &DATA),
                    left,
                    right,
                    &DATA,
                )
            }),
            format: self.ask(|left, right| {
                count_steps(Walk::format(Pair { left, right }), left, right, &[])
            }),
        }
    }
}

impl fmt::Display for Row {
    fn fmt<W: fmt::Write>(&self, f: &mut fmt::Formatter<W>) -> fmt::Result {
        write!(
            f,
            "P 4096, words {:08X} {:08X}, first cells {:04X}",
            self.left, self.right, self.cell
        )
    }
}

impl fmt::Display for Counts {
    fn fmt<W: fmt::Write>(&self, f: &mut fmt::Formatter<W>) -> fmt::Result {
        let save = self.save.unwrap_or(NO_COUNT);
        let format = self.format.unwrap_or(NO_COUNT);
        write!(
            f,
            "line {}, save {save} steps, format {format} steps",
            self.line
        )
    }
}

// Prints a row of the table of counts as the library walks it, and what document 01 gives where it is
// something else.
fn print_row(out: &mut Output, row: &Row, counts: &Counts) -> fmt::Result {
    write!(out, "{row}: {counts}")?;
    if *counts != row.counts {
        write!(out, ", but document 01 gives {}", row.counts)?;
    }
    writeln!(out)
}

fn run(out: &mut Output) -> fmt::Result {
    let counted = ROWS.map(Row::count);
    for (row, counts) in ROWS.iter().zip(&counted) {
        print_row(out, row, counts)?;
    }
    match ROWS
        .iter()
        .zip(&counted)
        .filter(|(row, counts)| **counts != row.counts)
        .count()
    {
        0 => writeln!(out, "all 14 counts are as document 01 gives them"),
        wrong => writeln!(out, "{wrong} of 14 counts are WRONG"),
    }
}

fn main(rt: HostRuntime) {
    let mut out = Output::new(rt);
    let _ = run(&mut out);
    out.flush();
}
