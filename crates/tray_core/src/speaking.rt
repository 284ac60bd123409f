// What a stock says and reads on the air: the frames of a round, HLTB, and the answers to requests.
ghost use Rattle.std.specs.Prelude.{◌≡◌, ℕ, ◌<◌, true, [], slice_index_or};
ghost use Rattle.typeb.specs.Messages.{bytes_of};
ghost use Rattle.reader.specs.Commands.{Halt, asked_of, frame_for, in_range};
ghost use Rattle.tray_core.specs.Stock.{answering, round_frames};

use reader::commands::Command;
use reader::judging::judge;
use reader::making::make;
use reader::replies::Reply;
use typeb::frames::Serial;
use typeb::message::Message;

// The frame of a command.
fn spoken(command: Command<'_>) -> Message
    requires { in_range (asked_of command) ≡ true }
    ensures { bytes_of result ≡ frame_for (asked_of command.entry) }
{
    let mut bytes = [0u8; 16];
    let len = make(command, &mut bytes).unwrap();
    Message::front_of(bytes, len)
}

// The frame of a slot, counted from 0: the request belongs to the first, markers to the others.
pub(crate) fn slot_frame(wake_up: bool, i: u8) -> Message
    requires { i < 16 }
    ensures { bytes_of result ≡ slice_index_or (round_frames wake_up) i [] }
{
    if i == 0 {
        spoken(Command::request(wake_up, 0x00, 16))
    } else {
        spoken(Command::slot_marker(i + 1))
    }
}

pub(crate) fn halt_frame(serial: Serial) -> Message
    ensures { bytes_of result ≡ frame_for (Halt serial) }
{
    spoken(Command::halt(serial))
}

// The serial number in a sound answer to a request.
pub(crate) fn answering_serial(reply: Message) -> Option<Serial>
    ensures { result ≡ answering (bytes_of reply) }
{
    let request = Command::request(false, 0x00, 16);
    match judge(request, reply.as_slice()) {
        Ok(Reply::Answer { serial, .. }) => Some(serial),
        _ => None,
    }
}
