// The words of a line.
ghost use Rattle.std.specs.Prelude.{◌≡◌};
ghost use Rattle.std.specs.Option.{ok_or};
ghost use Rattle.sheet.specs.declared.faults.LineFault.TheVariants.{UnknownWord};
ghost use Rattle.sheet.specs.Lines.{word_of, kind_of};

use crate::faults::LineFault;
use fields::FieldFault;

#[derive(Clone, Copy, PartialEq, Eq, Debug)]
pub enum Word {
    Tag,
    Page,
    On,
    Off,
    Place,
    Lift,
    Stock,
    Send,
    Raw,
}

#[derive(Clone, Copy, PartialEq, Eq, Debug)]
pub enum TagKind {
    Pump,
    Gauge,
}

// The word that a first field is.
impl TryFrom<&[u8]> for Word {
    type Error = LineFault;

    ghost try_from_gives = { λ text r. r ≡ ok_or (word_of text.now) UnknownWord };

    fn try_from(text: &[u8]) -> Result<Word, LineFault> {
        match text {
            b"tag" => Ok(Word::Tag),
            b"page" => Ok(Word::Page),
            b"on" => Ok(Word::On),
            b"off" => Ok(Word::Off),
            b"place" => Ok(Word::Place),
            b"lift" => Ok(Word::Lift),
            b"stock" => Ok(Word::Stock),
            b"send" => Ok(Word::Send),
            b"raw" => Ok(Word::Raw),
            _ => Err(LineFault::UnknownWord),
        }
    }
}

// The kind of a tag line.
impl TryFrom<&[u8]> for TagKind {
    type Error = FieldFault;

    ghost try_from_gives = { λ text r. r ≡ kind_of text.now };

    fn try_from(text: &[u8]) -> Result<TagKind, FieldFault> {
        match text {
            b"pump" => Ok(TagKind::Pump),
            b"gauge" => Ok(TagKind::Gauge),
            _ => Err(FieldFault::Kind),
        }
    }
}
