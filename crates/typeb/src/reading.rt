// The reading of a frame.
ghost use Rattle.std.specs.Prelude.{◌≡◌};
ghost use Rattle.typeb.specs.Hears.{in_body, heard, reading_of, SlotTable};
ghost use Rattle.typeb.specs.Carries.{HearsExactly};

use crate::crc::is_sound;
use crate::frames::{Frame, Op, Slots};

// What stands in a frame's body.
fn read_body(body: &[u8]) -> Option<Frame<'_>>
    ensures { reading_of result ≡ in_body body.now }
{
    match body {
        [0x05, family, param] => {
            let slots = Slots::try_from(*param % 8).ok()?;
            let wake_up = *param / 8 % 2 == 1;
            Some(Frame::Request {
                family: *family,
                wake_up,
                slots,
            })
        }
        [marker] if *marker % 16 == 5 && *marker / 16 > 0 => Some(Frame::SlotMarker {
            slot: *marker / 16 + 1,
        }),
        [0x1D, s0, s1, s2, s3, p1, p2, p3, p4, inf @ ..] if inf.len() <= 5 => Some(Frame::Attrib {
            serial: [*s0, *s1, *s2, *s3],
            params: [*p1, *p2, *p3, *p4],
            inf,
        }),
        [0x50, s0, s1, s2, s3] => Some(Frame::Halt {
            serial: [*s0, *s1, *s2, *s3],
        }),
        [head, address, rest @ ..] => {
            let bytes = rest.as_array::<8>()?;
            let op = Op::try_from(*head / 16).ok()?;
            Some(Frame::Command {
                op,
                cid: *head % 16,
                address: *address,
                bytes,
            })
        }
        _ => None,
    }
}

// What a tag hears in a frame; none where the frame is not heard.
// It is exactly what the frame carries, as its sender put it together: clause `exact`. What the codes of a request stand for:
// clause `slots`.
#[tactic(auto, unfolding(crate::specs::Hears::heard, crate::specs::CheckBytes::sound), using(crate::proofs::Exact::slot_table))]
pub fn read_frame(frame: &[u8]) -> Option<Frame<'_>>
    ensures result { reading_of result ≡ heard frame.now }
    ensures exact { HearsExactly frame.now }
    ensures slots { SlotTable }
{
    match frame {
        [body @ .., _, _] if is_sound(frame) => read_body(body),
        _ => None,
    }
}
