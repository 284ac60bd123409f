// Lines of hex byte pairs.
ghost use Rattle.std.specs.Prelude.{◌≡◌, IfOk};
ghost use Rattle.decode.specs.Lines.{blank, pair_byte, line_bytes, items_of};

use hex_pairs::pair_value;
use std::alloc::{AllocError, Global};

// Space, tab and carriage return.
pub fn is_blank(c: u8) -> bool
    ensures { result ≡ blank c }
{
    matches!(c, b' ' | b'\t' | b'\r')
}

// The byte of two digits, each upper or lower case.
pub fn pair_byte(high: u8, low: u8) -> Option<u8>
    ensures { result ≡ pair_byte high low }
{
    pair_value(high.to_ascii_lowercase(), low.to_ascii_lowercase())
}

// The bytes of a line: pairs of digits, with blanks between and around them; none for any other line.
pub fn read_line(heap: Global, line: &[u8]) -> Result<Option<Vec<u8>>, AllocError>
    ensures { IfOk result (λ o. items_of o ≡ line_bytes line.now) }
{
    let mut bytes = Vec::new(heap);
    let mut rest = line;
    loop {
        rest = match rest {
            [] => return Ok(Some(bytes)),
            [first, after @ ..] if is_blank(*first) => after,
            [_] => return Ok(None),
            [high, low, after @ ..] => {
                let Some(byte) = pair_byte(*high, *low) else {
                    return Ok(None);
                };
                bytes.push(byte)?;
                after
            }
        };
    }
}
