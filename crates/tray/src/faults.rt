// What a refused sheet is told: the line, what is wrong there, and what was expected.
use fields::FieldFault;
use refusals::Refusal;
use sheet::faults::LineFault;
use sheet::stops::SheetFault;
use std::fmt;

// A fault of a sheet, shown as a message.
#[derive(Clone, Copy)]
pub struct Fault(pub SheetFault);

impl fmt::Display for Fault {
    fn fmt<W: fmt::Write>(&self, f: &mut fmt::Formatter<W>) -> fmt::Result {
        match self.0 {
            SheetFault::TooLong => f.write_str(
                "a sheet of more than 65,536 bytes; expected that many or fewer",
            ),
            SheetFault::Line(number, fault) => {
                let what = what_of(fault);
                let hint = hint_of(fault);
                write!(f, "line {number}: {what}{hint}")
            }
        }
    }
}

// The texts are functions and no Display: the faults are types of other crates, and each would want a wrapper here.
fn what_of(fault: LineFault) -> &'static str {
    match fault {
        LineFault::Unended =>
            "no LF among the first 80 bytes; expected at most 79 bytes and then LF, after the last line too",
        LineFault::UnknownWord =>
            "unknown word; expected tag, page, on, off, place, lift, stock, send or raw",
        LineFault::FieldCount =>
            "wrong number of fields for the word; expected tag,KIND,DRAW or page,TAG,PAGE,HEX or on or off or place,TAG or lift,TAG or stock or send,HEX or raw,HEX",
        LineFault::Field(field) => field_of(field),
        LineFault::TagAfterCall =>
            "a tag or page line after a call; expected all of them before the first call",
        LineFault::NoSuchPage =>
            "no such tag or page; expected a pump tag named above, numbered from 0, and its page 0 to 31, or a gauge named above, numbered from 32, and its page 0 or 1",
        LineFault::Refused(why) => refusal_of(why),
    }
}

// What may be wrong with a field and is not seen.
fn hint_of(fault: LineFault) -> &'static str {
    match fault {
        LineFault::UnknownWord | LineFault::Field(_) => " (a blank or a CR is part of its field)",
        LineFault::Unended
        | LineFault::FieldCount
        | LineFault::TagAfterCall
        | LineFault::NoSuchPage
        | LineFault::Refused(_) => "",
    }
}

fn field_of(fault: FieldFault) -> &'static str {
    match fault {
        FieldFault::Number =>
            "not a number; expected one to three decimal digits without leading zeros",
        FieldFault::Bytes =>
            "not the bytes that belong here; expected lower-case hex pairs: 8 bytes for a page, 1 to 14 for send, 1 to 16 for raw",
        FieldFault::Draw => "not a draw number; expected four lower-case hex digits",
        FieldFault::Kind => "unknown kind of tag; expected pump or gauge",
    }
}

// What making a tag or a call of the tray can be refused for.
fn refusal_of(why: Refusal) -> &'static str {
    match why {
        Refusal::ImageLockBits =>
            "lock bits that no new tag has; expected in page 0, with bytes counted from 0, the lowest bit of byte 4 clear (pump), or bytes 4 to 7 zero (gauge)",
        Refusal::ImageCounter =>
            "a counter above 8000 hex; expected at most that in bytes 6 and 7 of page 2, with bytes counted from 0 and the low byte first",
        Refusal::RowTooLong =>
            "too many tags above; expected at most 32 pump tags and 32 gauges on a tray",
        Refusal::NoSuchTag =>
            "no such tag; expected the number of a tag named above: pump tags are numbered from 0, gauges from 32",
        // No tag and no call of a sheet is refused for these, and lines have messages of their own above. They are named, so that
        // the check asks for a message where a refusal is added.
        Refusal::ImageLength
        | Refusal::BufferTooShort
        | Refusal::ListTooShort
        | Refusal::ValueOutOfRange
        | Refusal::ReplyLength
        | Refusal::ReplyUnsound
        | Refusal::ReplyUnexpected
        | Refusal::SheetTooLong
        | Refusal::LineTooLong
        | Refusal::UnknownWord
        | Refusal::FieldCount
        | Refusal::FieldForm
        | Refusal::TagAfterCall
        | Refusal::NoSuchPage => "refused",
    }
}
