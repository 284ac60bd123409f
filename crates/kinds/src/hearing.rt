// How what a tag does with a frame becomes a reply. Written once for every kind that hears Type B frames.
ghost use Rattle.std.specs.Prelude.{◌≡◌, false};
ghost use Rattle.typeb.specs.Hears.{frame_of};
ghost use Rattle.kinds.specs.Kinds.{Placed};
ghost use Rattle.kinds.specs.Says.{reply_bytes, saying_of};

use crate::kind::Hearing;
use crate::said::{Said, put_reply};
use typeb::frames::Frame;

// What a tag does with what it heard: what it says, and whether it accepted a check. Neither follows from the other: an
// acknowledged WRITE accepts none.
#[derive(Clone, Copy)]
pub struct Response {
    pub said: Option<Said>,
    pub accepted: bool,
}

impl Response {
    // What is said, with no check accepted.
    pub fn of(said: Option<Said>) -> Response
        ensures said { result.said ≡ said }
        ensures check { result.accepted ≡ false }
    {
        Response {
            said,
            accepted: false,
        }
    }

    // The response in bytes: the reply to the frame goes to the front of the lent buffer.
    #[inline(always)]
    pub fn reply_to(self, told: Frame<'_>, reply: &mut [u8; 16]) -> Hearing
        ensures placed { Placed (reply_bytes (frame_of told.entry) (saying_of self.said)) reply.old reply.new result.len }
        ensures check { result.accepted ≡ self.accepted }
    {
        Hearing {
            len: put_reply(told, self.said, reply),
            accepted: self.accepted,
        }
    }
}
