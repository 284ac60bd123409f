// The story: one pump tag from its first request to its last, then several tags at once.
use crate::failure::Failure;
use crate::making::{PASSWORD, gauge_tag, pump_tag};
use crate::speaking::{act, say, say_into, take_stock};
use crate::wording::{Name, Outcome, Told, Words};
use hex_pairs::Hex;
use reader::commands::Command;
use std::alloc::Global;
use tags::gauge::GaugeTag;
use tags::pump::PumpTag;
use tray_core::calls::{Answer, Call};
use tray_core::tray::Tray;
use typeb::frames::Serial;

type Before = Tray<PumpTag, GaugeTag>;

const FIRST: Serial = [0x11, 0x22, 0x33, 0x44];

const SECOND: Serial = [0x55, 0x66, 0x77, 0x88];

const THIRD: Serial = [0x99, 0xAA, 0xBB, 0xCC];

const FOURTH: Serial = [0xA0, 0xA1, 0xA2, 0xA3];

const FIFTH: Serial = [0xB0, 0xB1, 0xB2, 0xB3];

const WRONG: [u8; 8] = [0xC0, 0xFF, 0xEE, 0x01, 0x02, 0x03, 0x04, 0x06];

// The card number of the first tag.
const CARD: u8 = 5;

// One line: a command, and what came of it. Runtime and tray come first in every step, by reference, as std takes the
// runtime: no struct holds both.
fn speak(rt: &HostRuntime, tray: &mut Before, command: Command<'_>) -> Result<(), Failure> {
    let heard = say(tray, command)?;
    println!(rt; "{}: {heard}", Words(command))?;
    Ok(())
}

// One line: a call, and what came of it.
fn order(rt: &HostRuntime, tray: &mut Before, call: Call<&[u8]>) -> Result<(), Failure> {
    let answer = act(tray, call).map(Told);
    println!(rt; "{}: {}", Name(call), Outcome(answer))?;
    Ok(())
}

// The tag answers, is selected, and hides its pages until it hears its password.
fn select(rt: &HostRuntime, tray: &mut Before) -> Result<(), Failure> {
    order(rt, tray, Call::On)?;
    speak(rt, tray, Command::request(false, 0x00, 1))?;
    speak(rt, tray, Command::attrib(FIRST, CARD, &[]))?;
    speak(rt, tray, Command::read(CARD, 4))?;
    speak(rt, tray, Command::check_password(CARD, WRONG))?;
    speak(rt, tray, Command::check_password(CARD, PASSWORD))?;
    speak(rt, tray, Command::read(CARD, 4))
}

// A page is written and locked.
fn write_and_lock(rt: &HostRuntime, tray: &mut Before) -> Result<(), Failure> {
    speak(rt, tray, Command::write(CARD, 5, *b"dose 7ml"))?;
    speak(rt, tray, Command::read(CARD, 5))?;
    speak(rt, tray, Command::lock(CARD, [0x20, 0, 0, 0]))?;
    speak(rt, tray, Command::write(CARD, 5, *b"dose 9ml"))?;
    speak(rt, tray, Command::read(CARD, 5))
}

// A count is taken, the password stays hidden, and the tag is sent to sleep.
fn count_and_leave(rt: &HostRuntime, tray: &mut Before) -> Result<(), Failure> {
    speak(rt, tray, Command::read(CARD, 2))?;
    speak(rt, tray, Command::count(CARD, *b"signed"))?;
    speak(rt, tray, Command::read(CARD, 2))?;
    speak(rt, tray, Command::read(CARD, 3))?;
    speak(rt, tray, Command::deselect(CARD))?;
    speak(rt, tray, Command::request(false, 0x00, 1))?;
    speak(rt, tray, Command::request(true, 0x00, 1))?;
    order(rt, tray, Call::Off)
}

fn one_tag(rt: &HostRuntime) -> Result<(), Failure> {
    println!(rt; "one pump tag")?;
    let front = Vec::from_slice(rt.alloc(), &[pump_tag(FIRST, 0x1234)?])?;
    let mut tray = Tray::load(front, Vec::new(rt.alloc()));
    select(rt, &mut tray)?;
    write_and_lock(rt, &mut tray)?;
    count_and_leave(rt, &mut tray)
}

fn several(heap: Global) -> Result<Before, Failure> {
    let front = [
        pump_tag(FIRST, 0x1234)?,
        pump_tag(SECOND, 0x5678)?,
        pump_tag(THIRD, 0x6ABC)?,
    ];
    let back = [gauge_tag(FOURTH, 0x7DEF)?, gauge_tag(FIFTH, 0xF000)?];
    Ok(Tray::load(
        Vec::from_slice(heap, &front)?,
        Vec::from_slice(heap, &back)?,
    ))
}

// Too many answer at once; with fewer tags and more slots each is heard.
fn single_out(rt: &HostRuntime, tray: &mut Before) -> Result<(), Failure> {
    order(rt, tray, Call::On)?;
    speak(rt, tray, Command::request(false, 0x00, 1))?;
    order(rt, tray, Call::Lift(1))?;
    order(rt, tray, Call::Lift(33))?;
    speak(rt, tray, Command::request(false, 0x00, 1))?;
    speak(rt, tray, Command::request(false, 0x00, 4))?;
    speak(rt, tray, Command::slot_marker(2))?;
    speak(rt, tray, Command::slot_marker(3))?;
    speak(rt, tray, Command::slot_marker(4))?;
    speak(rt, tray, Command::halt(FOURTH))?;
    speak(rt, tray, Command::request(false, 0x00, 1))?;
    order(rt, tray, Call::Place(1))
}

// Which tags are there.
fn list_all(rt: &HostRuntime, tray: &mut Before) -> Result<(), Failure> {
    let mut list = [[0u8; 4]; 128];
    let answer = take_stock(tray, &mut list);
    println!(rt; "stock: {}", Outcome(answer.map(Told)))?;
    if let Ok(Answer::Stock { listed, .. }) = answer {
        for serial in list.iter().take(listed) {
            println!(rt; "listed: {}", Hex(serial))?;
        }
    }
    Ok(())
}

// Calls that are refused change nothing: the same request is answered as before.
fn refuse(rt: &HostRuntime, tray: &mut Before) -> Result<(), Failure> {
    let request = Command::request(false, 0x00, 1);
    let wake_up = Command::request(true, 0x00, 1);
    speak(rt, tray, wake_up)?;
    order(rt, tray, Call::Place(31))?;
    let mut buffer = [0u8; 8];
    let heard = say_into(tray, request, &mut buffer);
    println!(rt;
        "{}, into a buffer of 8 bytes: {}",
        Words(request),
        Outcome(heard)
    )?;
    let mut list = [[0u8; 4]; 100];
    let answer = take_stock(tray, &mut list).map(Told);
    println!(rt; "stock, into a list of 100 places: {}", Outcome(answer))?;
    speak(rt, tray, wake_up)
}

fn several_tags(rt: &HostRuntime) -> Result<(), Failure> {
    println!(rt; "three pump tags and two gauges")?;
    let mut tray = several(rt.alloc())?;
    single_out(rt, &mut tray)?;
    list_all(rt, &mut tray)?;
    refuse(rt, &mut tray)?;
    order(rt, &mut tray, Call::Off)?;
    speak(rt, &mut tray, Command::request(false, 0x00, 1))
}

pub fn tell(rt: &HostRuntime) -> Result<(), Failure> {
    one_tag(rt)?;
    several_tags(rt)
}
