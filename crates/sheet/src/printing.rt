// How the answers of calls, and a refusal, are printed.
ghost use Rattle.std.specs.Prelude.{◌≡◌, take, Some};
ghost use Rattle.sheet.specs.Printing.{serial_line, answer_text};
ghost use Rattle.std.specs.List.{flat_map};

use hex_pairs::Hex;
use std::fmt;
use tray_core::calls::Answer;
use typeb::frames::Serial;

// An answer, with the number of its line and what the call wrote.
#[derive(Clone, Copy)]
pub struct Answered<'a> {
    pub number: usize,
    pub answer: Answer,
    pub buffer: &'a [u8],
    pub list: &'a [Serial],
}

impl fmt::Display for Answered<'_> {
    ghost output = { λ a. Some (answer_text a.number a.answer a.buffer.now a.list.now) };

    fn fmt<W: fmt::Write>(&self, f: &mut fmt::Formatter<W>) -> fmt::Result {
        match self.answer {
            Answer::Done => f.write_str("ok"),
            Answer::Silent => f.write_str("none"),
            Answer::Reply(len) => {
                let reply = Hex(front(self.buffer, len));
                write!(f, "reply,{reply}")
            }
            Answer::Clash(count) => write!(f, "clash,{count}"),
            Answer::Stock {
                frames,
                rounds,
                clashes,
                listed,
            } => {
                let serials = Serials {
                    number: self.number,
                    list: front(self.list, listed),
                };
                write!(f, "stock,{frames},{rounds},{clashes}{serials}")
            }
        }
    }
}

// The first items of a slice; all of it where it has fewer.
fn front<T>(items: &[T], count: usize) -> &[T]
    ensures { result.now ≡ take count items.now }
{
    &items[..count.min(items.len())]
}

// Serial numbers, each on a line of its own.
#[derive(Clone, Copy)]
struct Serials<'a> {
    number: usize,
    list: &'a [Serial],
}

impl fmt::Display for Serials<'_> {
    ghost output = { λ s. Some (flat_map (serial_line s.number) s.list.now) };

    fn fmt<W: fmt::Write>(&self, f: &mut fmt::Formatter<W>) -> fmt::Result {
        let number = self.number;
        for serial in self.list {
            let serial = Hex(serial);
            write!(f, "\n{number},serial,{serial}")?;
        }
        Ok(())
    }
}
