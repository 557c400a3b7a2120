// Words as numbers and as bytes: digits, decimal numbers of 32 bits, bytes of two hexadecimal digits.
// The layout is in docs/FORMATS.md, its definitions in specs/Digits.antt.
#![tactic(auto)]

ghost use Rattle.std.specs.Prelude.{
  ◌+◌,
  ◌*◌,
  ◌<◌,
  ◌≤◌,
  cond,
  ◌≡◌,
  ltb,
  length,
  Some,
  None,
  unwrap_or,
  IfSome,
};
ghost use Rattle.digits.specs.Digits.{
  digit_of,
  number_of,
  all_hex,
  joined_of,
  Decoded,
  decoded,
};

// What is wrong in a line.
#[derive(Clone, Copy, Debug, PartialEq, Eq)]
pub enum Fault {
    UnknownWord,
    NoNumber,
    NotNumber,
    PastBits,
    OddDigits,
    NotHex,
    TooLong,
    ExtraWord,
}

// The number of a hexadecimal digit, capital or small.
#[tactic(auto, using(std::proofs::lemmas::Bool::Decides::nat_tests), unfolding(crate::specs::Digits::digit_of))]
pub fn digit(byte: u8) -> Option<u8>
    ensures value { unwrap_or result 16 ≡ digit_of byte }
    ensures upper_bound { IfSome result (λ digit. digit < 16) }
{
    match byte {
        b'0'..=b'9' => Some(byte - b'0'),
        b'A'..=b'F' => Some(byte - b'A' + 10),
        b'a'..=b'f' => Some(byte - b'a' + 10),
        _ => None,
    }
}

// A number with one more decimal digit, if it is within 32 bits.
fn appended(value: u32, digit: u8) -> Option<u32>
    ensures { result ≡ cond (ltb (value * 10 + digit) 4294967296) (Some (value * 10 + digit)) None }
{
    value.checked_mul(10)?.checked_add(u32::from(digit))
}

// The decimal number that a word is. One that is past 32 bits is read on all the same: a byte that is
// no digit is the fault to be told.
#[tactic(auto, using(std::proofs::lemmas::Bool::Decides::nat_tests), unfolding(crate::specs::Digits::number_from, crate::specs::Digits::number_of))]
pub fn parse_number(word: &[u8]) -> Result<u32, Fault>
    ensures { result ≡ number_of word.now }
{
    if word.is_empty() {
        return Err(Fault::NoNumber);
    }
    let mut number = Some(0);
    for byte in word {
        let next = digit(*byte)
            .filter(|digit| *digit <= 9)
            .ok_or(Fault::NotNumber)?;
        number = number.and_then(|value| appended(value, next));
    }
    number.ok_or(Fault::PastBits)
}

// Whether a word has no bytes but hexadecimal digits.
pub fn is_hex(word: &[u8]) -> bool
    ensures { result ≡ all_hex word.now }
{
    word.iter().all(|byte| digit(*byte).is_some())
}

// The byte of two hexadecimal digits. What is no digit counts as 0.
fn joined(high: u8, low: u8) -> u8
    ensures { result ≡ joined_of (digit_of high) (digit_of low) }
{
    digit(high).unwrap_or(0) * 16 + digit(low).unwrap_or(0)
}

// Puts the bytes of hexadecimal digits, two a byte, at the start of a buffer, as far as they fit,
// and answers how many they are.
pub fn decode(digits: &[u8], into: &mut [u8]) -> usize
    ensures fact { ◌≡◌ {A = Decoded}
        (record { count = result; buffer = into.new })
        (decoded digits.now into.old) }
    ensures upper_bound { result ≤ length into.new }
{
    let count = digits.len() / 2;
    if into.len() < count {
        return 0;
    }
    // A place, since of what `iter_mut().zip(..)` writes a proof knows how many bytes it is and no byte.
    for (i, pair) in digits.chunks_exact(2).enumerate() {
        into[i] = joined(pair[0], pair[1]);
    }
    count
}
