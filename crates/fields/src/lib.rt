// The fields of a line of a sheet: numbers, bytes and draws.
#![tactic(auto)]

ghost use Rattle.std.specs.Prelude.{◌≡◌, ◌≤◌, length};
ghost use Rattle.hex_pairs.specs.Hex.{hex_bytes};
ghost use Rattle.fields.specs.Fields.{digits_after, number_of, bytes_in, draw_of};
ghost use Rattle.fields.specs.Fields.{option_bytes, result_bytes, AtMost};
ghost use Rattle.fields.specs.Laws.{NumberReadsBack, BytesReadBack, DrawReadsBack};
ghost use Rattle.fields.specs.Laws.{NumberOnlyRead, BytesOnlyRead, DrawOnlyRead};

use hex_pairs::pair_value;
use typeb::message::Message;

// A field that is not written as its place asks.
#[derive(Clone, Copy, PartialEq, Eq, Debug)]
pub enum FieldFault {
    // the place asks for a plain number
    Number,
    // for bytes
    Bytes,
    // for a draw
    Draw,
    // for the name of a kind
    Kind,
}

// The value of up to three decimal digits.
// A loop, since a fold's closure would not know that the value so far is small.
fn digits_value(field: &[u8]) -> Option<usize>
    requires { length field.now ≤ 3 }
    ensures { result ≡ digits_after 0 field.now }
{
    let mut value = 0;
    for c in field {
        if !c.is_ascii_digit() {
            return None;
        }
        value = 10 * value + usize::from(*c - b'0');
    }
    Some(value)
}

// A plain number: one to three decimal digits, a zero in front only where it is alone.
// Every number below 1000 is read back from its decimal text: clause `reads_back`.
#[tactic(auto, using(crate::proofs::ReadBack::number_reads_back, crate::proofs::OnlyRead::number_only_read))]
pub fn read_number(field: &[u8]) -> Result<usize, FieldFault>
    ensures result { result ≡ number_of field.now }
    ensures reads_back { NumberReadsBack }
    ensures only { NumberOnlyRead }
{
    if field.is_empty() || field.len() > 3 {
        return Err(FieldFault::Number);
    }
    if field.len() > 1 && field[0] == b'0' {
        return Err(FieldFault::Number);
    }
    digits_value(field).ok_or(FieldFault::Number)
}

// The bytes of up to 32 hex digits.
fn hex_bytes(field: &[u8]) -> Option<Message>
    requires { length field.now ≤ 32 }
    ensures { option_bytes result ≡ hex_bytes field.now }
{
    let (pairs, odd) = field.as_chunks::<2>();
    if !odd.is_empty() {
        return None;
    }
    let mut bytes = [0u8; 16];
    // by place, since nothing is known of what is written through a zip
    for (i, [high, low]) in pairs.iter().enumerate() {
        bytes[i] = pair_value(*high, *low)?;
    }
    Some(Message::front_of(bytes, pairs.len()))
}

// From `least` to `most` bytes, as lower-case hex.
fn read_bytes(field: &[u8], least: usize, most: usize) -> Result<Message, FieldFault>
    requires { (least ≤ 16) × (most ≤ 16) }
    ensures { result_bytes result ≡ bytes_in least most field.now }
{
    if field.len() < 2 * least || field.len() > 2 * most {
        return Err(FieldFault::Bytes);
    }
    hex_bytes(field).ok_or(FieldFault::Bytes)
}

// The body of a frame: 1 to 14 bytes, so that there is room for its check bytes.
pub fn read_body(field: &[u8]) -> Result<Message, FieldFault>
    ensures result { result_bytes result ≡ bytes_in 1 14 field.now }
    ensures bound { AtMost 14 result }
{
    read_bytes(field, 1, 14)
}

// A frame as it stands: 1 to 16 bytes. Bytes are read back from their hex text: clause `reads_back`.
#[tactic(auto, using(crate::proofs::ReadBack::bytes_read_back, crate::proofs::OnlyRead::bytes_only_read))]
pub fn read_raw(field: &[u8]) -> Result<Message, FieldFault>
    ensures result { result_bytes result ≡ bytes_in 1 16 field.now }
    ensures reads_back { BytesReadBack }
    ensures only { BytesOnlyRead }
{
    read_bytes(field, 1, 16)
}

// The eight bytes of a page.
pub fn read_page(field: &[u8]) -> Result<[u8; 8], FieldFault>
    ensures { result ≡ bytes_in 8 8 field.now }
{
    let bytes = read_bytes(field, 8, 8)?;
    Ok(*bytes.as_slice().first_chunk::<8>().unwrap())
}

// A draw: four lower-case hex digits, the high one first.
// Every number of 16 bits is read back from its hex text: clause `reads_back`.
#[tactic(auto, using(crate::proofs::ReadBack::draw_reads_back, crate::proofs::OnlyRead::draw_only_read))]
pub fn read_draw(field: &[u8]) -> Result<u16, FieldFault>
    ensures result { result ≡ draw_of field.now }
    ensures reads_back { DrawReadsBack }
    ensures only { DrawOnlyRead }
{
    let [a, b, c, d] = field else {
        return Err(FieldFault::Draw);
    };
    let high = pair_value(*a, *b).ok_or(FieldFault::Draw)?;
    let low = pair_value(*c, *d).ok_or(FieldFault::Draw)?;
    Ok(u16::from_be_bytes([high, low]))
}
