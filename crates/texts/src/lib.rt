// A script as text: its lines, and the words of a line. The layout is in docs/FORMATS.md, its
// definitions in specs/Texts.antt. Words as numbers and as bytes are in the crate digits, what a line
// asks for in the crate asks.
//
// A word is named by its number in its line, from 0. A line or a word that isn't there is empty, so
// any text, place and number may be asked about.
#![tactic(auto)]

ghost use Rattle.std.specs.Prelude.{◌+◌, ◌-◌, ◌*◌, ◌≤◌, cond, ◌≡◌, ltb, length, drop, position, true, false};
ghost use Rattle.texts.specs.Texts.{
  before_first,
  is,
  is_blank,
  ending,
  trimmed,
  without_comment,
  line_at,
  next_line,
  stride_of,
  word_at,
};

// ---- lines
// What is left of a text at a place.
fn rest_at(text: &[u8], place: usize) -> &[u8]
    ensures { result.now ≡ drop place text.now }
{
    text.get(place..).unwrap_or(&[])
}

// Where the first byte that is `byte` is.
fn find(text: &[u8], byte: u8) -> Option<usize>
    ensures { result ≡ position (is byte) text.now }
{
    text.iter().position(|next| *next == byte)
}

#[tactic(auto, using(std::proofs::lemmas::Bool::Decides::nat_tests), unfolding(crate::specs::Texts::is_blank))]
fn is_blank(byte: u8) -> bool
    ensures { result ≡ is_blank byte }
{
    matches!(byte, b' ' | b'\t')
}

// How many bytes at the start of a line are blanks and tabs.
fn blanks(line: &[u8]) -> usize
    ensures value { result ≡ before_first (ending true) line.now }
    ensures upper_bound { result ≤ length line.now }
{
    let first = line.iter().position(|byte| !is_blank(*byte));
    first.unwrap_or(line.len())
}

// How many bytes at the start of a line are no blanks and no tabs.
fn word_size(line: &[u8]) -> usize
    ensures value { result ≡ before_first (ending false) line.now }
    ensures upper_bound { result ≤ length line.now }
{
    let blank = line.iter().position(|byte| is_blank(*byte));
    blank.unwrap_or(line.len())
}

// A line up to its last byte that is no blank and no tab.
#[tactic(auto, using(crate::proofs::Laws::trimmed_blank, crate::proofs::Laws::trimmed_word))]
fn trimmed(line: &[u8]) -> &[u8]
    ensures { result.now ≡ trimmed line.now }
{
    let mut kept = line;
    // The pattern takes off the last byte, with no place that is counted. No `trim_ascii_end`, which takes
    // off other bytes too.
    while let [front @ .., last] = kept
        && is_blank(*last)
    {
        kept = front;
    }
    kept
}

// A line up to its comment, and with no carriage return at its end.
fn without_comment(line: &[u8]) -> &[u8]
    ensures { result.now ≡ without_comment line.now }
{
    match find(line, b'#') {
        Some(end) => &line[..end],
        None => line.strip_suffix(b"\r").unwrap_or(line),
    }
}

// The line that begins at a place, from its first word to its last.
#[tactic(auto, using(crate::proofs::Laws::found_or, crate::proofs::Laws::line_is))]
pub fn line_at(text: &[u8], from: usize) -> &[u8]
    ensures { result.now ≡ line_at text.now from }
{
    let rest = rest_at(text, from);
    let end = find(rest, b'\n').unwrap_or(rest.len());
    let words = trimmed(without_comment(&rest[..end]));
    &words[blanks(words)..]
}

// Where the line after the one that begins at a place begins, within the text: less of it is left
// from there on than from that place on, or nothing.
#[tactic(auto, using(crate::proofs::Laws::next_last, crate::proofs::Laws::next_more))]
pub fn next_line(text: &[u8], from: usize) -> usize
    ensures value { result ≡ next_line text.now from }
    ensures upper_bound { (result ≤ length text.now)
        × (length text.now - result ≤ length text.now - (from + 1)) }
{
    let rest = rest_at(text, from);
    match find(rest, b'\n') {
        Some(end) => from + end + 1,
        None => text.len(),
    }
}

// ---- words
// How long the first word of a line is with the blanks after it.
#[tactic(auto, using(crate::proofs::Laws::stride_is))]
fn stride(line: &[u8]) -> usize
    ensures value { result ≡ stride_of line.now }
    ensures upper_bound { result ≤ length line.now }
{
    let end = word_size(line);
    end + blanks(&line[end..])
}

// The word of a number, of a line that begins with its first.
#[tactic(auto, using(crate::proofs::Laws::word_on), unfolding(crate::specs::Texts::word_at))]
pub fn word(line: &[u8], number: usize) -> &[u8]
    ensures { result.now ≡ word_at number line.now }
{
    let mut rest = line;
    // So many words are passed: nothing but their number is counted.
    for _ in 0..number {
        rest = &rest[stride(rest)..];
    }
    &rest[..word_size(rest)]
}
