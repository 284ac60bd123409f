// The frames that a tag can hear, as values.
ghost use Rattle.std.specs.Prelude.{◌≡◌};
ghost use Rattle.typeb.specs.Hears.{slot_code, slot_count, slots_of, slots_for};
ghost use Rattle.typeb.specs.Hears.{op_code, op_of, head_of, Named};
ghost use Rattle.typeb.specs.Hears.{Request, SlotMarker, Attrib, Halt, Command};
ghost use Rattle.typeb.specs.Carries.{WrittenInto};

use crate::crc::seal_into;

// A tag's serial number, the PUPI, in the order in which it is sent.
pub type Serial = [u8; 4];

// A number that stands for none of the values that it is to name.
#[derive(Clone, Copy, PartialEq, Eq, Debug)]
pub struct UnknownCode(pub u8);

// How many slots a request announces, in the order of the codes by which it does.
#[derive(Clone, Copy, PartialEq, Eq, Debug)]
pub enum Slots {
    One,
    Two,
    Four,
    Eight,
    Sixteen,
}

impl Slots {
    // Each at its code.
    const ALL: [Slots; 5] = [
        Slots::One,
        Slots::Two,
        Slots::Four,
        Slots::Eight,
        Slots::Sixteen,
    ];

    // The code of three bits.
    pub fn code(self) -> u8
        ensures { result ≡ slot_code self }
    {
        self as u8
    }

    // The number of slots, N.
    pub fn count(self) -> u8
        ensures { result ≡ slot_count self }
    {
        1 << self.code()
    }

    // The slots that are N; none for a number that no request announces.
    pub fn from_count(n: u8) -> Option<Slots>
        ensures { result ≡ slots_for n }
    {
        Slots::ALL.iter().find(|slots| slots.count() == n).copied()
    }
}

// The number of slots for a code of three bits.
impl TryFrom<u8> for Slots {
    type Error = UnknownCode;

    ghost try_from_gives = { λ code got. Named (slots_of code) code got };

    fn try_from(code: u8) -> Result<Slots, UnknownCode> {
        Slots::ALL
            .get(usize::from(code))
            .copied()
            .ok_or(UnknownCode(code))
    }
}

// The six data commands, by their codes.
#[derive(Clone, Copy, PartialEq, Eq, Debug)]
pub enum Op {
    Read = 0x4,
    Write = 0x3,
    Lock = 0x2,
    CheckPassword = 0x6,
    Deselect = 0xA,
    Count = 0xE,
}

impl Op {
    // The high nibble of the command's first byte.
    pub fn code(self) -> u8
        ensures { result ≡ op_code self }
    {
        self as u8
    }

    // The command's first byte for a card number, of which the low nibble counts.
    pub fn head(self, cid: u8) -> u8
        ensures { result ≡ head_of self cid }
    {
        self.code() * 16 + cid % 16
    }
}

// The data command for a high nibble.
impl TryFrom<u8> for Op {
    type Error = UnknownCode;

    ghost try_from_gives = { λ nibble got. Named (op_of nibble) nibble got };

    fn try_from(nibble: u8) -> Result<Op, UnknownCode> {
        match nibble {
            0x4 => Ok(Op::Read),
            0x3 => Ok(Op::Write),
            0x2 => Ok(Op::Lock),
            0x6 => Ok(Op::CheckPassword),
            0xA => Ok(Op::Deselect),
            0xE => Ok(Op::Count),
            _ => Err(UnknownCode(nibble)),
        }
    }
}

// A frame as a tag hears it. INF and the eight data bytes are parts of the frame itself.
#[derive(Clone, Copy)]
pub enum Frame<'a> {
    // REQB, or WUPB where `wake_up` is set.
    Request {
        family: u8,
        wake_up: bool,
        slots: Slots,
    },
    // SlotMARKER, for slots 2 to 16.
    SlotMarker {
        slot: u8,
    },
    // ATTRIB: selects the tag with this serial number.
    Attrib {
        serial: Serial,
        params: [u8; 4],
        inf: &'a [u8],
    },
    // HLTB: sends the tag with this serial number to sleep.
    Halt {
        serial: Serial,
    },
    // A data command for the tag with this card number, the CID.
    Command {
        op: Op,
        cid: u8,
        address: u8,
        bytes: &'a [u8; 8],
    },
}

// A request: 05, family code, PARAM, whose bits 4 to 7 are zero.
fn put_request(family: u8, wake_up: bool, slots: Slots, buffer: &mut [u8]) -> Option<usize>
    ensures { WrittenInto (Request family wake_up slots) buffer.old buffer.new result }
{
    let wake = if wake_up { 8 } else { 0 };
    seal_into(&[0x05, family, wake + slots.code()], buffer)
}

fn put_slot_marker(slot: u8, buffer: &mut [u8]) -> Option<usize>
    ensures { WrittenInto (SlotMarker slot) buffer.old buffer.new result }
{
    match slot {
        2..=16 => seal_into(&[(slot - 1) * 16 + 5], buffer),
        _ => None,
    }
}

// ATTRIB: 1D, serial number, PARAM1 to PARAM4, INF.
fn put_attrib(serial: Serial, params: [u8; 4], inf: &[u8], buffer: &mut [u8]) -> Option<usize>
    ensures { WrittenInto (Attrib serial params inf.now) buffer.old buffer.new result }
{
    if inf.len() > 5 {
        return None;
    }
    let [s0, s1, s2, s3] = serial;
    let [p1, p2, p3, p4] = params;
    let mut body = [0x1D, s0, s1, s2, s3, p1, p2, p3, p4, 0, 0, 0, 0, 0];
    let len = 9 + inf.len();
    body[9..len].copy_from_slice(inf);
    seal_into(&body[..len], buffer)
}

fn put_halt(serial: Serial, buffer: &mut [u8]) -> Option<usize>
    ensures { WrittenInto (Halt serial) buffer.old buffer.new result }
{
    let [s0, s1, s2, s3] = serial;
    seal_into(&[0x50, s0, s1, s2, s3], buffer)
}

// A data command: command and card number, address byte, eight data bytes.
fn put_command(op: Op, cid: u8, address: u8, bytes: &[u8; 8], buffer: &mut [u8]) -> Option<usize>
    ensures { WrittenInto (Command op cid address bytes.now) buffer.old buffer.new result }
{
    if cid > 15 {
        return None;
    }
    let [b0, b1, b2, b3, b4, b5, b6, b7] = *bytes;
    seal_into(
        &[op.head(cid), address, b0, b1, b2, b3, b4, b5, b6, b7],
        buffer,
    )
}

impl Frame<'_> {
    ghost use Rattle.typeb.specs.Hears.{frame_of};
    ghost use Rattle.typeb.specs.Carries.{WrittenIsHeard};

    // Writes the frame and its check bytes to the front of a buffer and answers their length; none where it has no room.
    // None, too, where a value has no place in a frame: slot 1 or above 16, INF of more than 5 bytes, a card number
    // above 15. The bits of PARAM that may be any are zero. What is written is heard: clause `heard`.
    #[tactic(auto, using(crate::proofs::Sealed::written_heard))]
    pub fn put_into(self, buffer: &mut [u8]) -> Option<usize>
        ensures written { WrittenInto (frame_of self.entry) buffer.old buffer.new result }
        ensures heard { WrittenIsHeard (frame_of self.entry) }
    {
        match self {
            Frame::Request {
                family,
                wake_up,
                slots,
            } => put_request(family, wake_up, slots, buffer),
            Frame::SlotMarker { slot } => put_slot_marker(slot, buffer),
            Frame::Attrib {
                serial,
                params,
                inf,
            } => put_attrib(serial, params, inf, buffer),
            Frame::Halt { serial } => put_halt(serial, buffer),
            Frame::Command {
                op,
                cid,
                address,
                bytes,
            } => put_command(op, cid, address, bytes, buffer),
        }
    }
}
