// Why a call is refused: one enum for the whole repository. A refused call changes nothing.
#![tactic(auto)]

ghost use Rattle.std.specs.Prelude.{◌≡◌};
ghost use Rattle.refusals.specs.Numbers.{number};

#[derive(Clone, Copy, PartialEq, Eq, Debug)]
pub enum Refusal {
    // Making a tag.
    // the image has not the length of its kind
    ImageLength = 1,
    // lock bit 0 of a pump image is set, or a gauge image has a byte other than zero among 4 to 7
    ImageLockBits,
    // the counter of a pump image is above 0x8000
    ImageCounter,

    // Calls of the tray.
    // a row has more than 32 tags
    RowTooLong,
    // the number names no tag
    NoSuchTag,
    // the buffer has fewer than 16 bytes
    BufferTooShort,
    // the list has fewer than 128 places
    ListTooShort,

    // The reader's half.
    // a value that the command's frame cannot carry
    ValueOutOfRange,
    // a reply of a length that this command cannot bring
    ReplyLength,
    // a reply whose check bytes are wrong
    ReplyUnsound,
    // a reply whose first bytes this command does not allow
    ReplyUnexpected,

    // Sheets.
    // a sheet of more than 65,536 bytes
    SheetTooLong,
    // no LF among the first 80 bytes of a line
    LineTooLong,
    // a first field that is no known word
    UnknownWord,
    // too few or too many fields for the word
    FieldCount,
    // a field that is not written as its place asks
    FieldForm,
    // a tag or page line after the first call
    TagAfterCall,
    // a page line whose tag or page is not there
    NoSuchPage,
}

impl Refusal {
    // The number that is printed and answered.
    pub fn number(self) -> u8
        ensures { result ≡ number self }
    {
        self as u8
    }
}
