// What a tag says, and the bytes in which it says it.
ghost use Rattle.std.specs.Prelude.{◌≡◌, ℕ, ◌+◌, ◌≤◌, [], ◌∷◌, ◌++◌, length};
ghost use Rattle.typeb.specs.CheckBytes.{sealed};
ghost use Rattle.typeb.specs.Hears.{frame_of};
ghost use Rattle.kinds.specs.Kinds.{Placed};
ghost use Rattle.kinds.specs.Says.{Answer, Page, protocol_info, nack_code, repeated, page_repeated, echo, page_named, said_body, reply_bytes, says_of, saying_of, done_said, page_said};

use typeb::crc::seal_into;
use typeb::frames::{Frame, Serial};

// Why a tag refuses a data command.
#[derive(Clone, Copy, PartialEq, Eq, Debug)]
pub enum Nack {
    // the page is locked
    Locked = 0x11,
    // the page cannot be used so, or the counter has reached its end
    Invalid = 0x21,
    // the tag is not open, or the password was wrong
    NotOpen = 0x41,
}

impl Nack {
    pub fn code(self) -> u8
        ensures { result ≡ nack_code self }
    {
        self as u8
    }
}

#[derive(Clone, Copy)]
pub enum Said {
    // ATQB: the answer to a request
    Answer {
        serial: Serial,
        application: [u8; 4],
    },
    // the card number taken from ATTRIB
    Card(u8),
    // the page that was asked for
    Page([u8; 8]),
    Acknowledged,
    Refused(Nack),
}

// A command done is acknowledged.
impl From<Result<(), Nack>> for Said {
    ghost from_gives = { λ outcome said. said ≡ done_said outcome };

    fn from(outcome: Result<(), Nack>) -> Said {
        match outcome {
            Ok(()) => Said::Acknowledged,
            Err(why) => Said::Refused(why),
        }
    }
}

impl From<Result<[u8; 8], Nack>> for Said {
    ghost from_gives = { λ outcome said. said ≡ page_said outcome };

    fn from(outcome: Result<[u8; 8], Nack>) -> Said {
        match outcome {
            Ok(page) => Said::Page(page),
            Err(why) => Said::Refused(why),
        }
    }
}

// What a reply repeats of a data command: its first byte, and the page that it names.
#[derive(Clone, Copy)]
struct Echo {
    head: u8,
    page: u8,
}

fn echo_of(told: Frame<'_>) -> Option<Echo>
    ensures head { repeated result ≡ echo (frame_of told.entry) }
    ensures page { page_repeated result ≡ page_named (frame_of told.entry) }
{
    match told {
        Frame::Command {
            op,
            cid,
            address,
            ..
        } => Some(Echo {
            head: op.head(cid),
            page: address % 32,
        }),
        Frame::Request { .. }
        | Frame::SlotMarker { .. }
        | Frame::Attrib { .. }
        | Frame::Halt { .. } => None,
    }
}

// A body and its check bytes, at the front of the buffer. Answers the length. That the body fits is proved at each call: a
// type for at most 14 bytes would be a buffer with a length beside it.
#[tactic(auto, using(crate::proofs::Sealing::placed_by))]
fn put_sealed(body: &[u8], reply: &mut [u8; 16]) -> usize
    requires { length body.now ≤ 14 }
    ensures { Placed (sealed body.now) reply.old reply.new result }
{
    seal_into(body, reply).unwrap()
}

// ATQB for a serial number and application data. Here and below the arrays are written out, as they are sent: copies into
// zeros would be no shorter, and hide the order.
#[tactic(auto, using(typeb::proofs::Parts::listed))]
fn put_answer(s: Serial, a: [u8; 4], reply: &mut [u8; 16]) -> usize
    ensures { Placed (sealed (said_body [] 0 (Answer s a protocol_info))) reply.old reply.new result }
{
    put_sealed(
        &[
            0x50, s[0], s[1], s[2], s[3], a[0], a[1], a[2], a[3], 0x00, 0x00, 0x41,
        ],
        reply,
    )
}

// A page behind what is repeated.
#[tactic(auto, using(typeb::proofs::Parts::listed))]
fn put_page(echo: Option<Echo>, b: [u8; 8], reply: &mut [u8; 16]) -> usize
    ensures { Placed (sealed (said_body (repeated echo) (page_repeated echo) (Page b))) reply.old reply.new result }
{
    match echo {
        Some(Echo { head, page }) => put_sealed(
            &[head, page, b[0], b[1], b[2], b[3], b[4], b[5], b[6], b[7]],
            reply,
        ),
        None => put_sealed(&[0, b[0], b[1], b[2], b[3], b[4], b[5], b[6], b[7]], reply),
    }
}

// One byte behind what is repeated.
fn put_status(echo: Option<Echo>, status: u8, reply: &mut [u8; 16]) -> usize
    ensures { Placed (sealed (repeated echo ++ (status ∷ []))) reply.old reply.new result }
{
    match echo {
        Some(Echo { head, .. }) => put_sealed(&[head, status], reply),
        None => put_sealed(&[status], reply),
    }
}

// What is said, behind what is repeated of the frame. It stays out of the loop over the tags, where few say anything.
#[inline(never)]
fn put_said(echo: Option<Echo>, said: Said, reply: &mut [u8; 16]) -> usize
    ensures { Placed (sealed (said_body (repeated echo) (page_repeated echo) (says_of said))) reply.old reply.new result }
{
    match said {
        Said::Answer {
            serial,
            application,
        } => put_answer(serial, application, reply),
        Said::Card(cid) => put_sealed(&[cid], reply),
        Said::Page(bytes) => put_page(echo, bytes, reply),
        Said::Acknowledged => put_status(echo, 0x00, reply),
        Said::Refused(why) => put_status(echo, why.code(), reply),
    }
}

// The reply to a frame, at the front of the buffer; nothing where nothing is said, which is for most tags most of the time.
// Answers the length.
#[inline(always)]
pub fn put_reply(told: Frame<'_>, said: Option<Said>, reply: &mut [u8; 16]) -> usize
    ensures { Placed (reply_bytes (frame_of told.entry) (saying_of said)) reply.old reply.new result }
{
    match said {
        Some(words) => put_said(echo_of(told), words, reply),
        None => 0,
    }
}
