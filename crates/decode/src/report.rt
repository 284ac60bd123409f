// The report of a frame.
ghost use Rattle.std.specs.Prelude.{◌≡◌, [], ◌∷◌, ◌++◌, IfOk, Some, string_bytes};
ghost use Rattle.decode.specs.Report.{hearing, report_of, frame_in, report_line};
ghost use Rattle.typeb.specs.Hears.{reading_of};

use crate::words::Words;
use hex_pairs::Hex;
use std::alloc::{AllocError, Global};
use std::fmt;
use typeb::crc::{is_sound, seal};
use typeb::frames::Frame;
use typeb::reading::read_frame;

// What a tag hears, if it hears a frame.
#[derive(Clone, Copy)]
struct Hearing<'a>(Option<Frame<'a>>);

impl fmt::Display for Hearing<'_> {
    ghost output = { λ h. Some (hearing (reading_of h.0)) };

    fn fmt<W: fmt::Write>(&self, f: &mut fmt::Formatter<W>) -> fmt::Result {
        match self.0 {
            Some(frame) => f.write(Words(frame)),
            None => f.write_str("not heard"),
        }
    }
}

// A frame that is shown by its report.
#[derive(Clone, Copy)]
pub struct Report<'a>(pub &'a [u8]);

impl fmt::Display for Report<'_> {
    ghost output = { λ r. Some (report_of r.0.now) };

    fn fmt<W: fmt::Write>(&self, f: &mut fmt::Formatter<W>) -> fmt::Result {
        let frame = Hex(self.0);
        let verdict = if is_sound(self.0) { "sound" } else { "unsound" };
        let hearing = Hearing(read_frame(self.0));
        write!(f, "{frame} {verdict}: {hearing}")
    }
}

// The report of a frame as a line of text. With `sealing` the bytes are sealed first.
fn frame_line(heap: Global, bytes: Vec<u8>, sealing: bool) -> Result<String, AllocError>
    ensures { IfOk result (λ s. string_bytes s ≡ report_of (frame_in sealing bytes.items) ++ (10 ∷ [])) }
{
    let mut frame = bytes;
    if sealing {
        seal(&mut frame)?;
    }
    let report = Report(frame.as_slice());
    format!(in heap; "{report}\n")
}

// The report of a line's bytes, as a line of text; nothing for a blank line.
pub fn report_line(heap: Global, bytes: Vec<u8>, sealing: bool) -> Result<String, AllocError>
    ensures { IfOk result (λ s. string_bytes s ≡ report_line sealing bytes.items) }
{
    if bytes.is_empty() {
        return Ok(String::new(heap));
    }
    frame_line(heap, bytes, sealing)
}
