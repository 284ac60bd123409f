// What a tag hears in a frame, in plain words.
ghost use Rattle.std.specs.Prelude.{◌≡◌, Some};
ghost use Rattle.decode.specs.Words.{words, request_words, inf_words, attrib_words, halt_words};
ghost use Rattle.decode.specs.Words.{op_name, carried_words, command_words};
ghost use Rattle.std.specs.Fmt.{WritesOnOk};
ghost use Rattle.typeb.specs.Hears.{frame_of};

use hex_pairs::Hex;
use std::fmt;
use typeb::frames::{Frame, Op, Serial, Slots};

// A frame that is shown in words.
#[derive(Clone, Copy)]
pub struct Words<'a>(pub Frame<'a>);

impl fmt::Display for Words<'_> {
    ghost output = { λ w. Some (words (frame_of w.0)) };

    fn fmt<W: fmt::Write>(&self, f: &mut fmt::Formatter<W>) -> fmt::Result {
        match self.0 {
            Frame::Request {
                family,
                wake_up,
                slots,
            } => put_request(f, family, wake_up, slots),
            Frame::SlotMarker { slot } => write!(f, "SlotMARKER, slot {slot}"),
            Frame::Attrib {
                serial,
                params,
                inf,
            } => put_attrib(f, serial, params, inf),
            Frame::Halt { serial } => put_halt(f, serial),
            Frame::Command {
                op,
                cid,
                address,
                bytes,
            } => put_command(f, op, cid, address, bytes),
        }
    }
}

// REQB, or WUPB, which wakes halted tags too.
fn put_request<W: fmt::Write>(
    f: &mut fmt::Formatter<W>,
    family: u8,
    wake_up: bool,
    slots: Slots,
) -> fmt::Result
    ensures { WritesOnOk W.write_str_gives f.old result (request_words family wake_up slots) f.new }
{
    let name = if wake_up { "WUPB" } else { "REQB" };
    let code = [family];
    let family = Hex(&code);
    let count = slots.count();
    let unit = if count == 1 { "slot" } else { "slots" };
    write!(f, "{name}, family {family}, {count} {unit}")
}

// INF, which may be empty.
#[derive(Clone, Copy)]
struct Inf<'a>(&'a [u8]);

impl fmt::Display for Inf<'_> {
    ghost output = { λ i. Some (inf_words i.0.now) };

    fn fmt<W: fmt::Write>(&self, f: &mut fmt::Formatter<W>) -> fmt::Result {
        if self.0.is_empty() {
            return f.write_str("no INF");
        }
        let bytes = Hex(self.0);
        write!(f, "INF {bytes}")
    }
}

// ATTRIB.
fn put_attrib<W: fmt::Write>(
    f: &mut fmt::Formatter<W>,
    serial: Serial,
    params: [u8; 4],
    inf: &[u8],
) -> fmt::Result
    ensures { WritesOnOk W.write_str_gives f.old result (attrib_words serial params inf.now) f.new }
{
    let card = params[3] % 16;
    let serial = Hex(&serial);
    let params = Hex(&params);
    let inf = Inf(inf);
    write!(
        f,
        "ATTRIB, serial {serial}, parameters {params}, card {card}, {inf}"
    )
}

// HLTB.
fn put_halt<W: fmt::Write>(f: &mut fmt::Formatter<W>, serial: Serial) -> fmt::Result
    ensures { WritesOnOk W.write_str_gives f.old result (halt_words serial) f.new }
{
    let serial = Hex(&serial);
    write!(f, "HLTB, serial {serial}")
}

// The names of the data commands. No Display: Op is a type of typeb.
pub fn op_name(op: Op) -> &'static str
    ensures { result.now ≡ op_name op }
{
    match op {
        Op::Read => "READ",
        Op::Write => "WRITE",
        Op::Lock => "LOCK",
        Op::CheckPassword => "CHECK PASSWORD",
        Op::Deselect => "DESELECT",
        Op::Count => "COUNT",
    }
}

// What a data command carries behind its card number.
#[derive(Clone, Copy)]
struct Carried<'a> {
    op: Op,
    address: u8,
    bytes: &'a [u8; 8],
}

impl fmt::Display for Carried<'_> {
    ghost output = { λ c. Some (carried_words c.op c.address c.bytes.now) };

    fn fmt<W: fmt::Write>(&self, f: &mut fmt::Formatter<W>) -> fmt::Result {
        let page = self.address % 32;
        let bytes = self.bytes;
        let all = Hex(bytes);
        let lock_bits = Hex(&bytes[4..8]);
        let signature = Hex(&bytes[0..6]);
        match self.op {
            Op::Read => write!(f, ", page {page}"),
            Op::Write => write!(f, ", page {page}, data {all}"),
            Op::Lock => write!(f, ", lock bits {lock_bits}"),
            Op::CheckPassword => write!(f, ", password {all}"),
            Op::Deselect => Ok(()),
            Op::Count => write!(f, ", signature {signature}"),
        }
    }
}

// A data command: its name, the card number and what it carries.
fn put_command<W: fmt::Write>(
    f: &mut fmt::Formatter<W>,
    op: Op,
    cid: u8,
    address: u8,
    bytes: &[u8; 8],
) -> fmt::Result
    ensures { WritesOnOk W.write_str_gives f.old result (command_words op cid address bytes.now) f.new }
{
    let name = op_name(op);
    let carried = Carried { op, address, bytes };
    write!(f, "{name}, card {cid}{carried}")
}
