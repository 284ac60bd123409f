// The message for a line that is no hex.
ghost use Rattle.decode.specs.Faults.{quoted_byte, quoted, fault_of};
ghost use Rattle.std.specs.Prelude.{Some};
ghost use Rattle.std.specs.List.{flat_map};
ghost use Rattle.std.specs.Fmt.{WritesOnOk};

use hex_pairs::Hex;
use std::fmt;

// A line that is no hex, with its number, which is shown by its message.
#[derive(Clone, Copy)]
pub struct Fault<'a> {
    pub number: usize,
    pub line: &'a [u8],
}

impl fmt::Display for Fault<'_> {
    ghost output = { λ x. Some (fault_of x.number x.line.now) };

    fn fmt<W: fmt::Write>(&self, f: &mut fmt::Formatter<W>) -> fmt::Result {
        let number = self.number;
        let line = Quoted(self.line);
        write!(
            f,
            "line {number}: not hex byte pairs, such as 05 00 00: {line}"
        )
    }
}

// The start of a line as it is quoted in a message.
#[derive(Clone, Copy)]
struct Quoted<'a>(&'a [u8]);

impl fmt::Display for Quoted<'_> {
    ghost output = { λ q. Some (quoted q.0.now) };

    fn fmt<W: fmt::Write>(&self, f: &mut fmt::Formatter<W>) -> fmt::Result {
        let line = self.0;
        if line.len() <= 40 {
            put_quoted(f, line)
        } else {
            put_quoted(f, &line[0..40])?;
            f.write_str(" ..")
        }
    }
}

// Characters as they are quoted.
fn put_quoted<W: fmt::Write>(f: &mut fmt::Formatter<W>, text: &[u8]) -> fmt::Result
    ensures { WritesOnOk W.write_str_gives f.old result (flat_map quoted_byte text.now) f.new }
{
    for c in text {
        put_byte(f, *c)?;
    }
    Ok(())
}

// A printable character as it stands, any other as \x and its code.
fn put_byte<W: fmt::Write>(f: &mut fmt::Formatter<W>, c: u8) -> fmt::Result
    ensures { WritesOnOk W.write_str_gives f.old result (quoted_byte c) f.new }
{
    match c {
        b' '..=b'~' => f.write_char(char::from(c)),
        _ => {
            let bytes = [c];
            let code = Hex(&bytes);
            write!(f, "\\x{code}")
        }
    }
}
