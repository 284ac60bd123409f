// Speaking to a tray: commands, and judged replies, in place of bytes.
ghost use Rattle.std.specs.Prelude.{◌≡◌, ◌≤◌, [], length, replicate, Ok};
ghost use Rattle.refusals.specs.Numbers.{numbered};
ghost use Rattle.reader.specs.Commands.{asked_of};
ghost use Rattle.reader.specs.Judged.{said_in};
ghost use Rattle.tray_core.specs.Step.{Frame, Stock, asks_of, step};
ghost use Rattle.tray_core.specs.Views.{model_of};
ghost use Rattle.scenario.specs.Speaks.{Said, hearing_after, hearing_back, hearing_in, hearing_of, reply_size};
ghost use Rattle.scenario.specs.Speaks.{taken, tray_after, buffer_after};

use handling::handle;
use kinds::kind::Kind;
use reader::commands::Command;
use reader::judging::judge;
use reader::making::make;
use reader::replies::Reply;
use refusals::Refusal;
use tray_core::calls::{Answer, Call};
use tray_core::tray::Tray;
use typeb::frames::Serial;

// What a reader hears after a command. A page is told after its buffer is given back, so its bytes
// are copied.
#[derive(Clone, Copy)]
pub enum Heard {
    Silence,
    // so many tags answered at once
    Clash(usize),
    // one tag answered, as in a reply
    Answer {
        serial: Serial,
        application: [u8; 4],
        protocol: [u8; 3],
    },
    Card(u8),
    Page([u8; 8]),
    Acknowledged,
    Refused(u8),
}

impl From<Reply<'_>> for Heard {
    ghost from_gives = { λ reply heard. hearing_of heard ≡ Said (said_in reply) };

    fn from(reply: Reply<'_>) -> Heard {
        match reply {
            Reply::Answer {
                serial,
                application,
                protocol,
            } => Heard::Answer {
                serial,
                application,
                protocol,
            },
            Reply::Card(cid) => Heard::Card(cid),
            Reply::Page(bytes) => Heard::Page(*bytes),
            Reply::Acknowledged => Heard::Acknowledged,
            Reply::Refused(code) => Heard::Refused(code),
        }
    }
}

// What is heard in the tray's answer, with a reply at the front of the buffer.
fn hear_answer(command: Command<'_>, answer: Answer, buffer: &[u8]) -> Result<Heard, Refusal>
    requires { reply_size answer ≤ length buffer.now }
    ensures { hearing_in result ≡ taken (asked_of command.entry) buffer.now (Ok answer) }
{
    match answer {
        Answer::Reply(n) => judge(command, &buffer[0..n]).map(Heard::from),
        Answer::Clash(n) => Ok(Heard::Clash(n)),
        Answer::Silent | Answer::Done | Answer::Stock { .. } => Ok(Heard::Silence),
    }
}

// Puts the frame of a command on the air, and judges what comes back.
fn hear_frame<F: Kind, B: Kind>(
    tray: &mut Tray<F, B>,
    command: Command<'_>,
    frame: &[u8],
    buffer: &mut [u8],
) -> Result<Heard, Refusal>
    ensures hears { hearing_in result ≡ hearing_back F.Kind.acts B.Kind.acts (asked_of command.entry) frame.now (model_of F.Kind.means B.Kind.means tray.old) buffer.old }
    ensures leaves { model_of F.Kind.means B.Kind.means tray.new ≡ (step F.Kind.acts B.Kind.acts (Frame frame.now) (model_of F.Kind.means B.Kind.means tray.old) buffer.old []).tray }
    ensures writes { buffer.new ≡ (step F.Kind.acts B.Kind.acts (Frame frame.now) (model_of F.Kind.means B.Kind.means tray.old) buffer.old []).buffer }
{
    let answer = handle(tray, Call::Frame(frame), buffer, &mut [])?;
    hear_answer(command, answer, buffer)
}

// Says a command before the tray, with a lent buffer for the reply, and judges what comes back.
pub fn say_into<F: Kind, B: Kind>(
    tray: &mut Tray<F, B>,
    command: Command<'_>,
    buffer: &mut [u8],
) -> Result<Heard, Refusal>
    ensures hears { hearing_in result ≡ hearing_after F.Kind.acts B.Kind.acts (asked_of command.entry) (model_of F.Kind.means B.Kind.means tray.old) buffer.old }
    ensures leaves { model_of F.Kind.means B.Kind.means tray.new ≡ tray_after F.Kind.acts B.Kind.acts (asked_of command.entry) (model_of F.Kind.means B.Kind.means tray.old) buffer.old }
    ensures writes { buffer.new ≡ buffer_after F.Kind.acts B.Kind.acts (asked_of command.entry) (model_of F.Kind.means B.Kind.means tray.old) buffer.old }
{
    let mut frame = [0u8; 16];
    let len = make(command, &mut frame)?;
    hear_frame(tray, command, &frame[0..len], buffer)
}

// Says a command before the tray, and judges what comes back.
pub fn say<F: Kind, B: Kind>(tray: &mut Tray<F, B>, command: Command<'_>) -> Result<Heard, Refusal>
    ensures hears { hearing_in result ≡ hearing_after F.Kind.acts B.Kind.acts (asked_of command.entry) (model_of F.Kind.means B.Kind.means tray.old) (replicate 16 0) }
    ensures leaves { model_of F.Kind.means B.Kind.means tray.new ≡ tray_after F.Kind.acts B.Kind.acts (asked_of command.entry) (model_of F.Kind.means B.Kind.means tray.old) (replicate 16 0) }
{
    let mut buffer = [0u8; 16];
    say_into(tray, command, &mut buffer)
}

// Makes a call that needs no buffer and no list.
pub fn act<F: Kind, B: Kind>(tray: &mut Tray<F, B>, call: Call<&[u8]>) -> Result<Answer, Refusal>
    ensures answers { numbered result ≡ (step F.Kind.acts B.Kind.acts (asks_of call.entry) (model_of F.Kind.means B.Kind.means tray.old) [] []).answer }
    ensures leaves { model_of F.Kind.means B.Kind.means tray.new ≡ (step F.Kind.acts B.Kind.acts (asks_of call.entry) (model_of F.Kind.means B.Kind.means tray.old) [] []).tray }
{
    handle(tray, call, &mut [], &mut [])
}

// Takes stock, into a lent list.
pub fn take_stock<F: Kind, B: Kind>(
    tray: &mut Tray<F, B>,
    list: &mut [Serial],
) -> Result<Answer, Refusal>
    ensures answers { numbered result ≡ (step F.Kind.acts B.Kind.acts Stock (model_of F.Kind.means B.Kind.means tray.old) [] list.old).answer }
    ensures leaves { model_of F.Kind.means B.Kind.means tray.new ≡ (step F.Kind.acts B.Kind.acts Stock (model_of F.Kind.means B.Kind.means tray.old) [] list.old).tray }
    ensures lists { list.new ≡ (step F.Kind.acts B.Kind.acts Stock (model_of F.Kind.means B.Kind.means tray.old) [] list.old).list }
{
    handle(tray, Call::Stock, &mut [], list)
}
