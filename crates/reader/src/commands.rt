// The commands of a reader, by their values.
ghost use Rattle.std.specs.Prelude.{◌≡◌, true};
ghost use Rattle.typeb.specs.Hears as hears;
ghost use Rattle.typeb.specs.Hears.{frame_of};
ghost use Rattle.reader.specs.Commands.{Request, SlotMarker, Attrib, Halt, Read, Write, Lock, CheckPassword, Deselect, Count, asked_of};
ghost use Rattle.reader.specs.Commands.{in_range, heard_as, data_of};
ghost use Rattle.reader.specs.Judged.{fits};
ghost use Rattle.reader.specs.Laws.{Sized};

use typeb::frames::{Frame, Op, Serial, Slots};

#[derive(Clone, Copy)]
pub enum Command<'a> {
    // REQB, or WUPB where `wake_up` is set; `slots` is 1, 2, 4, 8 or 16. It is a byte, and no `Slots`, since `make` takes
    // any number and says where it is out of range: a narrower type would ask that of each caller.
    Request {
        wake_up: bool,
        family: u8,
        slots: u8,
    },
    // the slot, 2 to 16
    SlotMarker {
        slot: u8,
    },
    // selects a tag and gives it a card number; INF of 0 to 5 bytes
    Attrib {
        serial: Serial,
        cid: u8,
        inf: &'a [u8],
    },
    Halt {
        serial: Serial,
    },
    Read {
        cid: u8,
        page: u8,
    },
    Write {
        cid: u8,
        page: u8,
        bytes: [u8; 8],
    },
    // lock bits to set, low byte first; bit i names page i
    Lock {
        cid: u8,
        locks: [u8; 4],
    },
    CheckPassword {
        cid: u8,
        password: [u8; 8],
    },
    Deselect {
        cid: u8,
    },
    Count {
        cid: u8,
        signature: [u8; 6],
    },
}

// A command from its values; `make` says whether they are in range.
impl<'a> Command<'a> {
    pub fn request(wake_up: bool, family: u8, slots: u8) -> Command<'a>
        ensures { asked_of result ≡ Request wake_up family slots }
    {
        Command::Request {
            wake_up,
            family,
            slots,
        }
    }

    pub fn slot_marker(slot: u8) -> Command<'a>
        ensures { asked_of result ≡ SlotMarker slot }
    {
        Command::SlotMarker { slot }
    }

    pub fn attrib(serial: Serial, cid: u8, inf: &'a [u8]) -> Command<'a>
        ensures { asked_of result ≡ Attrib serial cid inf.now }
    {
        Command::Attrib { serial, cid, inf }
    }

    pub fn halt(serial: Serial) -> Command<'a>
        ensures { asked_of result ≡ Halt serial }
    {
        Command::Halt { serial }
    }

    pub fn read(cid: u8, page: u8) -> Command<'a>
        ensures { asked_of result ≡ Read cid page }
    {
        Command::Read { cid, page }
    }

    pub fn write(cid: u8, page: u8, bytes: [u8; 8]) -> Command<'a>
        ensures { asked_of result ≡ Write cid page bytes }
    {
        Command::Write { cid, page, bytes }
    }

    pub fn lock(cid: u8, locks: [u8; 4]) -> Command<'a>
        ensures { asked_of result ≡ Lock cid locks }
    {
        Command::Lock { cid, locks }
    }

    pub fn check_password(cid: u8, password: [u8; 8]) -> Command<'a>
        ensures { asked_of result ≡ CheckPassword cid password }
    {
        Command::CheckPassword { cid, password }
    }

    pub fn deselect(cid: u8) -> Command<'a>
        ensures { asked_of result ≡ Deselect cid }
    {
        Command::Deselect { cid }
    }

    pub fn count(cid: u8, signature: [u8; 6]) -> Command<'a>
        ensures { asked_of result ≡ Count cid signature }
    {
        Command::Count { cid, signature }
    }

    // Every value of the command can stand in its frame.
    pub(crate) fn in_range(self) -> bool
        ensures { result ≡ in_range (asked_of self.entry) }
    {
        match self {
            Command::Request { slots, .. } => Slots::from_count(slots).is_some(),
            Command::SlotMarker { slot } => (2..=16).contains(&slot),
            Command::Attrib { cid, inf, .. } => cid <= 15 && inf.len() <= 5,
            Command::Halt { .. } => true,
            Command::Read { cid, page } | Command::Write { cid, page, .. } => {
                cid <= 15 && page <= 31
            }
            Command::Lock { cid, .. }
            | Command::CheckPassword { cid, .. }
            | Command::Deselect { cid }
            | Command::Count { cid, .. } => cid <= 15,
        }
    }

    // The eight data bytes of a data command. Those that it does not name are zero.
    pub(crate) fn data_bytes(self) -> [u8; 8]
        ensures { result ≡ data_of (heard_as (asked_of self.entry)) }
    {
        match self {
            Command::Write { bytes, .. } => bytes,
            Command::Lock { locks, .. } => {
                let [l0, l1, l2, l3] = locks;
                [0, 0, 0, 0, l0, l1, l2, l3]
            }
            Command::CheckPassword { password, .. } => password,
            Command::Count { signature, .. } => {
                let [s0, s1, s2, s3, s4, s5] = signature;
                [s0, s1, s2, s3, s4, s5, 0, 0]
            }
            Command::Request { .. }
            | Command::SlotMarker { .. }
            | Command::Attrib { .. }
            | Command::Halt { .. }
            | Command::Read { .. }
            | Command::Deselect { .. } => [0; 8],
        }
    }

    // The frame that carries a command in range, with its data bytes. Fields have the lengths of their types.
    pub(crate) fn frame(self, bytes: &'a [u8; 8]) -> Frame<'a>
        requires data_bytes { bytes.now ≡ data_of (heard_as (asked_of self)) }
        requires range { in_range (asked_of self) ≡ true }
        ensures heard { frame_of result ≡ heard_as (asked_of self.entry) }
        ensures sized { Sized (asked_of self.entry) }
    {
        match self {
            Command::Request {
                wake_up,
                family,
                slots,
            } => Frame::Request {
                family,
                wake_up,
                slots: Slots::from_count(slots).unwrap(),
            },
            Command::SlotMarker { slot } => Frame::SlotMarker { slot },
            Command::Attrib { serial, cid, inf } => Frame::Attrib {
                serial,
                params: [0, 0, 0, cid],
                inf,
            },
            Command::Halt { serial } => Frame::Halt { serial },
            Command::Read { cid, page } => data_command(Op::Read, cid, page, bytes),
            Command::Write { cid, page, .. } => data_command(Op::Write, cid, page, bytes),
            Command::Lock { cid, .. } => data_command(Op::Lock, cid, 0, bytes),
            Command::CheckPassword { cid, .. } => data_command(Op::CheckPassword, cid, 0, bytes),
            Command::Deselect { cid } => data_command(Op::Deselect, cid, 0, bytes),
            Command::Count { cid, .. } => data_command(Op::Count, cid, 0, bytes),
        }
    }

    // The lengths that a reply to the command can have.
    pub(crate) fn fits(self, len: usize) -> bool
        ensures { result ≡ fits (asked_of self.entry) len }
    {
        match self {
            Command::Request { .. } | Command::SlotMarker { .. } => len == 14,
            Command::Attrib { .. } | Command::Halt { .. } => len == 3,
            Command::Read { .. } => matches!(len, 12 | 4),
            Command::Write { .. }
            | Command::Lock { .. }
            | Command::CheckPassword { .. }
            | Command::Deselect { .. }
            | Command::Count { .. } => len == 4,
        }
    }
}

fn data_command<'a>(op: Op, cid: u8, address: u8, bytes: &'a [u8; 8]) -> Frame<'a>
    ensures { frame_of result ≡ hears.Command op cid address bytes.now }
{
    Frame::Command {
        op,
        cid,
        address,
        bytes,
    }
}
