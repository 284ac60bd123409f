// Bytes as hex text: two lower-case digits for each byte, the high nibble first.
#![tactic(auto)]

ghost use Rattle.std.specs.Prelude.{◌≡◌, ◌*◌, ◌%◌, ◌≤◌, [], ◌∷◌, length, take, Some};
ghost use Rattle.hex_pairs.specs.Hex.{hex_digit, hex_text, digit_value, byte_of, ReadsBack, OnlyWritten, AllDigits};
ghost use Rattle.std.specs.Fmt.{WritesOnOk};

use std::{fmt, str};

// The digit of a value below 16, lower case; of a larger value the low nibble counts.
pub fn digit(value: u8) -> u8
    ensures { result ≡ hex_digit (value % 16) }
{
    let nibble = value % 16;
    if nibble < 10 {
        b'0' + nibble
    } else {
        b'a' - 10 + nibble
    }
}

// The two digits of a byte, that of the high nibble first.
pub fn digits(byte: u8) -> [u8; 2]
    ensures { result ≡ hex_text (byte ∷ []) }
{
    [digit(byte / 16), digit(byte % 16)]
}

// The value of a lower-case digit; none for any other character.
// Text read by these values gives back the bytes that it was written from, and no other text gives bytes: clauses
// `reads_back` and `only_written`.
#[tactic(auto, using(crate::proofs::ReadBack::reads_back, crate::proofs::ReadBack::only_written))]
pub fn digit_value(c: u8) -> Option<u8>
    ensures result { result ≡ digit_value c }
    ensures reads_back { ReadsBack }
    ensures only_written { OnlyWritten }
    ensures all_digits { AllDigits }
{
    match c {
        b'0'..=b'9' => Some(c - b'0'),
        b'a'..=b'f' => Some(c - b'a' + 10),
        _ => None,
    }
}

// The byte of two lower-case digits, that of the high nibble first; none where either is no such digit.
pub fn pair_value(high: u8, low: u8) -> Option<u8>
    ensures { result ≡ byte_of (digit_value high) (digit_value low) }
{
    Some(digit_value(high)? * 16 + digit_value(low)?)
}

// Bytes that are shown as hex text.
#[derive(Clone, Copy)]
pub struct Hex<'a>(pub &'a [u8]);

impl fmt::Display for Hex<'_> {
    ghost output = { λ h. Some (hex_text h.0.now) };

    fn fmt<W: fmt::Write>(&self, f: &mut fmt::Formatter<W>) -> fmt::Result {
        for part in self.0.chunks(16) {
            put_part(f, part)?;
        }
        Ok(())
    }
}

// Writes the digits of at most sixteen bytes, all at once.
fn put_part<W: fmt::Write>(f: &mut fmt::Formatter<W>, part: &[u8]) -> fmt::Result
    requires { length part.now ≤ 16 }
    ensures { WritesOnOk W.write_str_gives f.old result (hex_text part.now) f.new }
{
    let text = part_digits(part);
    let Ok(text) = str::from_utf8(&text[..2 * part.len()]) else {
        unreachable!();
    };
    f.write_str(text)
}

// The digits of at most sixteen bytes, at the start of a text of 32.
fn part_digits(part: &[u8]) -> [u8; 32]
    requires { length part.now ≤ 16 }
    ensures { take (2 * length part.now) result ≡ hex_text part.now }
{
    let mut text = [0; 32];
    for (i, byte) in part.iter().enumerate() {
        let [high, low] = digits(*byte);
        text[2 * i] = high;
        text[2 * i + 1] = low;
    }
    text
}
