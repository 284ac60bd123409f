// Judging a reply by the command that it answers: its length, its check bytes, then its body, by the kind of reply.
ghost use Rattle.std.specs.Prelude.{◌≡◌, true, ◌||◌, length, ◌==◌};
ghost use Rattle.reader.specs.Commands.{asked_of};
ghost use Rattle.reader.specs.Judged.{sound_body, body_in, judged_answer, judged_byte, judged_status, judged_data, judged_page, judged, said_in, judgement};
ghost use Rattle.reader.specs.Laws.{JudgesExactly, JudgesOnly};

use crate::commands::Command;
use crate::replies::Reply;
use refusals::Refusal;
use typeb::crc::is_sound;
use typeb::frames::Op;

// Asked in this order: a length that the command can bring, of which the answer comes in as in the definition; right check
// bytes. Then the body.
#[tactic(auto, unfolding(typeb::specs::CheckBytes::sound))]
fn sound_body(fits: bool, reply: &[u8]) -> Result<&[u8], Refusal>
    ensures { body_in result ≡ sound_body fits reply.now }
{
    if !fits {
        return Err(Refusal::ReplyLength);
    }
    match reply {
        [body @ .., _, _] if is_sound(reply) => Ok(body),
        _ => Err(Refusal::ReplyUnsound),
    }
}

// A body comes to the four readers below in a length that its command can bring, less the two check bytes.

// The answer to a request. One slice pattern takes it apart, as it does every frame here.
fn read_answer(body: &[u8]) -> Result<Reply<'_>, Refusal>
    requires { length body.now ≡ 12 }
    ensures { judgement result ≡ judged_answer body.now }
{
    match body {
        &[0x50, s0, s1, s2, s3, a0, a1, a2, a3, p0, p1, p2] => Ok(Reply::Answer {
            serial: [s0, s1, s2, s3],
            application: [a0, a1, a2, a3],
            protocol: [p0, p1, p2],
        }),
        _ => Err(Refusal::ReplyUnexpected),
    }
}

// One byte, which has to be this one, and what it then says.
fn read_byte<'a>(byte: u8, says: Reply<'a>, body: &[u8]) -> Result<Reply<'a>, Refusal>
    requires { length body.now ≡ 1 }
    ensures { judgement result ≡ judged_byte byte (said_in says.entry) body.now }
{
    match body {
        &[first] if first == byte => Ok(says),
        _ => Err(Refusal::ReplyUnexpected),
    }
}

// A status byte: low nibble 0 for done, 1 for not done, as far as the command may bring it.
// It takes two flags, and no enum: of their four cases three are used, and the definition asks for each of the two
// answers apart, by one flag each.
fn judge_status<'a>(may_ack: bool, may_nack: bool, status: u8) -> Result<Reply<'a>, Refusal>
    ensures { judgement result ≡ judged_status may_ack may_nack status }
{
    match status % 16 {
        0 if may_ack => Ok(Reply::Acknowledged),
        1 if may_nack => Ok(Reply::Refused(status)),
        _ => Err(Refusal::ReplyUnexpected),
    }
}

// The reply to a data command other than READ.
fn read_data(head: u8, may_nack: bool, body: &[u8]) -> Result<Reply<'_>, Refusal>
    requires { length body.now ≡ 2 }
    ensures { judgement result ≡ judged_data head true may_nack body.now }
{
    match body {
        &[first, status] if first == head => judge_status(true, may_nack, status),
        _ => Err(Refusal::ReplyUnexpected),
    }
}

// The reply to READ: a page behind its number, or a refusal.
fn read_page(head: u8, page: u8, body: &[u8]) -> Result<Reply<'_>, Refusal>
    requires { (length body.now == 10 || length body.now == 2) ≡ true }
    ensures { judgement result ≡ judged_page head page body.now }
{
    match body {
        &[first, status] if first == head => judge_status(false, true, status),
        [first, number, bytes @ ..] if *first == head && *number == page => Ok(Reply::Page(
            bytes.first_chunk::<8>().unwrap(),
        )),
        _ => Err(Refusal::ReplyUnexpected),
    }
}

// Judges a reply by the command that it answers.
// Asked in this order: a length that this command can bring; right check bytes; first bytes as the command allows.
#[tactic(auto, using(crate::proofs::Judges::judges_exactly, crate::proofs::Only::judges_only))]
pub fn judge<'a>(command: Command<'_>, reply: &'a [u8]) -> Result<Reply<'a>, Refusal>
    ensures result { judgement result ≡ judged (asked_of command.entry) reply.now }
    ensures exact { JudgesExactly }
    ensures only { JudgesOnly }
{
    let body = sound_body(command.fits(reply.len()), reply)?;
    match command {
        Command::Request { .. } | Command::SlotMarker { .. } => read_answer(body),
        Command::Attrib { cid, .. } => read_byte(cid, Reply::Card(cid), body),
        // HLTB was obeyed
        Command::Halt { .. } => read_byte(0x00, Reply::Acknowledged, body),
        Command::Read { cid, page } => read_page(Op::Read.head(cid), page, body),
        Command::Write { cid, .. } => read_data(Op::Write.head(cid), true, body),
        Command::Lock { cid, .. } => read_data(Op::Lock.head(cid), true, body),
        Command::CheckPassword { cid, .. } => read_data(Op::CheckPassword.head(cid), true, body),
        Command::Deselect { cid } => read_data(Op::Deselect.head(cid), false, body),
        Command::Count { cid, .. } => read_data(Op::Count.head(cid), true, body),
    }
}
