// Commands, calls, what is heard, answers and refusals, in plain words. Each of another crate's types is shown through a
// type of this crate, since an `impl` needs the trait or the type to be its own.
ghost use Rattle.std.specs.Prelude.{◌≡◌, Some};
ghost use Rattle.scenario.specs.Speaks.{hearing_of};
ghost use Rattle.scenario.specs.Wording.{hearing_words, command_words, call_words, told_words, outcome_words, refusal_words, meaning_words};
ghost use Rattle.reader.specs.Commands.{asked_of};
ghost use Rattle.tray_core.specs.Step.{asks_of};

use crate::speaking::Heard;
use hex_pairs::Hex;
use reader::commands::Command;
use refusals::Refusal;
use std::fmt;
use tray_core::calls::{Answer, Call};

// A command that is shown in words.
#[derive(Clone, Copy)]
pub struct Words<'a>(pub Command<'a>);

impl fmt::Display for Words<'_> {
    ghost output = { λ w. Some (command_words (asked_of w.0)) };

    fn fmt<W: fmt::Write>(&self, f: &mut fmt::Formatter<W>) -> fmt::Result {
        match &self.0 {
            Command::Request {
                wake_up,
                family,
                slots,
            } => {
                let name = if *wake_up { "wake-up" } else { "request" };
                let unit = if *slots == 1 { "slot" } else { "slots" };
                write!(f, "{name}, family {}, {slots} {unit}", Hex(&[*family]))
            }
            Command::SlotMarker { slot } => write!(f, "slot marker {slot}"),
            Command::Attrib { serial, cid, .. } => {
                write!(f, "ATTRIB {}, card {cid}", Hex(serial))
            }
            Command::Halt { serial } => write!(f, "HLTB {}", Hex(serial)),
            Command::Read { cid, page } => write!(f, "READ card {cid}, page {page}"),
            Command::Write { cid, page, bytes } => {
                write!(f, "WRITE card {cid}, page {page}, data {}", Hex(bytes))
            }
            Command::Lock { cid, locks } => write!(f, "LOCK card {cid}, lock bits {}", Hex(locks)),
            Command::CheckPassword { cid, password } => {
                write!(f, "CHECK PASSWORD card {cid}, password {}", Hex(password))
            }
            Command::Deselect { cid } => write!(f, "DESELECT card {cid}"),
            Command::Count { cid, signature } => {
                write!(f, "COUNT card {cid}, signature {}", Hex(signature))
            }
        }
    }
}

impl fmt::Display for Heard {
    ghost output = { λ h. Some (hearing_words (hearing_of h)) };

    fn fmt<W: fmt::Write>(&self, f: &mut fmt::Formatter<W>) -> fmt::Result {
        match self {
            Heard::Silence => f.write_str("silence"),
            Heard::Clash(n) => write!(f, "clash of {n}"),
            Heard::Answer { serial, .. } => write!(f, "answer from {}", Hex(serial)),
            Heard::Card(cid) => write!(f, "card {cid}"),
            Heard::Page(bytes) => write!(f, "page {}", Hex(bytes)),
            Heard::Acknowledged => f.write_str("acknowledged"),
            Heard::Refused(code) => write!(f, "refused {}", Hex(&[*code])),
        }
    }
}

// A call, which is shown by its name.
#[derive(Clone, Copy)]
pub struct Name<'a>(pub Call<&'a [u8]>);

impl fmt::Display for Name<'_> {
    ghost output = { λ n. Some (call_words (asks_of n.0)) };

    fn fmt<W: fmt::Write>(&self, f: &mut fmt::Formatter<W>) -> fmt::Result {
        match self.0 {
            Call::On => f.write_str("field on"),
            Call::Off => f.write_str("field off"),
            Call::Place(n) => write!(f, "place {n}"),
            Call::Lift(n) => write!(f, "lift {n}"),
            Call::Frame(bytes) => write!(f, "frame {}", Hex(bytes)),
            Call::Stock => f.write_str("stock"),
        }
    }
}

// The tray's answer to a call, in words.
#[derive(Clone, Copy)]
pub struct Told(pub Answer);

impl fmt::Display for Told {
    ghost output = { λ t. Some (told_words t.0) };

    fn fmt<W: fmt::Write>(&self, f: &mut fmt::Formatter<W>) -> fmt::Result {
        match self.0 {
            Answer::Done => f.write_str("done"),
            Answer::Silent => f.write_str("silence"),
            Answer::Reply(len) => write!(f, "a reply of {len} bytes"),
            Answer::Clash(n) => write!(f, "clash of {n}"),
            Answer::Stock {
                frames,
                rounds,
                clashes,
                listed,
            } => write!(
                f,
                "{frames} frames, {rounds} rounds, {clashes} clashed slots, {listed} serial numbers"
            ),
        }
    }
}

// What came of a call or a command: what it brought, or why it was refused.
#[derive(Clone, Copy)]
pub struct Outcome<T>(pub Result<T, Refusal>);

impl<T: fmt::Display> fmt::Display for Outcome<T> {
    ghost output = { λ o. outcome_words T.output o.0 };

    fn fmt<W: fmt::Write>(&self, f: &mut fmt::Formatter<W>) -> fmt::Result {
        match &self.0 {
            Ok(brought) => write!(f, "{brought}"),
            Err(why) => write!(f, "{}", Refused(*why)),
        }
    }
}

// A refusal that is shown by its number and its meaning.
#[derive(Clone, Copy)]
pub struct Refused(pub Refusal);

impl fmt::Display for Refused {
    ghost output = { λ r. Some (refusal_words r.0) };

    fn fmt<W: fmt::Write>(&self, f: &mut fmt::Formatter<W>) -> fmt::Result {
        write!(f, "refused, {} {}", self.0.number(), meaning_of(self.0))
    }
}

fn meaning_of(why: Refusal) -> &'static str
    ensures { result.now ≡ meaning_words why }
{
    match why {
        Refusal::ImageLength => "image of a wrong length",
        Refusal::ImageLockBits => "image with wrong lock bits",
        Refusal::ImageCounter => "image with a counter past its end",
        Refusal::RowTooLong => "row too long",
        Refusal::NoSuchTag => "no such tag",
        Refusal::BufferTooShort => "buffer too short",
        Refusal::ListTooShort => "list too short",
        Refusal::ValueOutOfRange => "value out of range",
        Refusal::ReplyLength => "reply of a wrong length",
        Refusal::ReplyUnsound => "reply unsound",
        Refusal::ReplyUnexpected => "reply unexpected",
        Refusal::SheetTooLong
        | Refusal::LineTooLong
        | Refusal::UnknownWord
        | Refusal::FieldCount
        | Refusal::FieldForm
        | Refusal::TagAfterCall
        | Refusal::NoSuchPage => "sheet refused",
    }
}
