// What a line says, and how it is read.
ghost use Rattle.std.specs.Prelude.{◌≡◌, ◌≤◌, length};
ghost use Rattle.parts.specs.Parts.{given};
ghost use Rattle.sheet.specs.CallWords.{CallWords, IsRead, IsSaid};
ghost use Rattle.sheet.specs.FieldForms.{FieldForms};
ghost use Rattle.sheet.specs.Lines.{line_says, said_in, word_says};
ghost use Rattle.typeb.specs.CheckBytes.{sealed};
ghost use Rattle.typeb.specs.Messages.{bytes_of};

use crate::faults::LineFault;
use crate::words::{TagKind, Word};
use fields::{read_body, read_draw, read_number, read_page, read_raw};
use parts::split_fields;
use tray_core::calls::Call;
use typeb::crc::seal_into;
use typeb::message::Message;

// A call of the tray, with the bytes of its frame.
pub type Order = Call<Message>;

#[derive(Clone, Copy)]
pub enum Line {
    // a tag of a kind, with its draw
    Tag(TagKind, u16),
    // a page of a tag, with its bytes: no struct, since they part on the way (the tag names a row,
    // and a draft in it)
    Page(usize, usize, [u8; 8]),
    Calls(Order),
}

// A body with its check bytes behind it.
fn sealed_body(body: Message) -> Message
    requires { length (bytes_of body) ≤ 14 }
    ensures { bytes_of result ≡ sealed (bytes_of body) }
{
    let mut bytes = [0u8; 16];
    let len = seal_into(body.as_slice(), &mut bytes).unwrap();
    Message::front_of(bytes, len)
}

// What the fields behind a word say: as many as the word has, and each in its form.
fn read_fields(word: Word, fields: [Option<&[u8]>; 4]) -> Result<Line, LineFault>
    ensures { said_in result ≡ word_says word (given fields.entry) }
{
    match (word, fields) {
        (Word::Tag, [Some(kind), Some(draw), None, ..]) => {
            let kind = TagKind::try_from(kind)?;
            let draw = read_draw(draw)?;
            Ok(Line::Tag(kind, draw))
        }
        (Word::Page, [Some(tag), Some(page), Some(bytes), None]) => {
            let tag = read_number(tag)?;
            let page = read_number(page)?;
            let bytes = read_page(bytes)?;
            Ok(Line::Page(tag, page, bytes))
        }
        (Word::On, [None, ..]) => Ok(Line::Calls(Order::On)),
        (Word::Off, [None, ..]) => Ok(Line::Calls(Order::Off)),
        (Word::Place, [Some(tag), None, ..]) => Ok(Line::Calls(Order::Place(read_number(tag)?))),
        (Word::Lift, [Some(tag), None, ..]) => Ok(Line::Calls(Order::Lift(read_number(tag)?))),
        (Word::Stock, [None, ..]) => Ok(Line::Calls(Order::Stock)),
        (Word::Send, [Some(body), None, ..]) => {
            let body = read_body(body)?;
            Ok(Line::Calls(Order::Frame(sealed_body(body))))
        }
        (Word::Raw, [Some(bytes), None, ..]) => Ok(Line::Calls(Order::Frame(read_raw(bytes)?))),
        _ => Err(LineFault::FieldCount),
    }
}

// What a line says: a known word, as many fields as it has, and each field in its form.
// Which text is which call, tag or page, and which word is none: clauses `words` and `said_words`.
// Which field's fault a line has: clauses `forms` and `said_forms`. The first of each pair is of the
// value that is returned, the second of what the line says, by which a run does it.
pub fn read_line(line: &[u8]) -> Result<Line, LineFault>
    ensures result { said_in result ≡ line_says line.now }
    ensures words { CallWords line.now (IsRead result) }
    ensures forms { FieldForms line.now (IsRead result) }
    ensures said_words { CallWords line.now (IsSaid line.now) }
    ensures said_forms { FieldForms line.now (IsSaid line.now) }
{
    let (first, behind) = split_fields(line);
    let word = Word::try_from(first)?;
    read_fields(word, behind)
}
