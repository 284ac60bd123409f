// Runs a sheet: tags are named and filled, a tray is loaded with them, and calls are made of it.
#![tactic(auto)]

mod faults;
mod options;

use console::arguments::read_args;
use console::streams::{Failed, print_all, read_input, status, stop};
use faults::Fault;
use options::{Flag, options};
use sheet::running::run_sheet;
use std::process::ExitCode;

const USAGE: &str = "\
usage: tray [FILE]

Runs a sheet from FILE, or from standard input (no FILE, or -), and prints
what each call answers. A refused sheet ends there, with status 1.

A sheet is lines of fields, parted by commas, each line ended by LF and at
most 79 bytes long before it; a sheet has at most 65,536 bytes. Numbers are
decimal, of up to three digits, bytes are lower-case hex pairs.

  tag,pump,DRAW       a pump tag of zero pages, in front, numbered from 0
  tag,gauge,DRAW      a gauge of zero pages, behind, numbered from 32;
                      DRAW is its draw number, four hex digits
  page,TAG,PAGE,HEX   eight bytes for a page of a tag that is named above
  on, off             the field on and off
  place,TAG           a tag put on the tray
  lift,TAG            a tag lifted off the tray
  send,HEX            a frame of 1 to 14 bytes; its check bytes are added
  raw,HEX             a frame of 1 to 16 bytes as they stand
  stock               which tags are there

Tag and page lines come before the first call. Each call prints its line's
number and ok, none, reply and its bytes, clash and how many answered, or
stock with frames, rounds and clashes, then a line for each serial number.
A refusal prints the line's number, refused and the refusal's number; a
message on standard error says what was wrong and what was expected.

  --help  print this text

example:
  $ printf 'tag,pump,0000\\npage,0,0,1122334400000000\\non\\nsend,050000\\n' | tray
  3,ok
  4,reply,501122334400000000000041410c
";

const NAME: &str = "tray";

fn run(rt: &HostRuntime) -> Result<(), Failed> {
    let asked = read_args(rt, NAME, &options())?;
    if asked.options.contains(&Flag::Help) {
        return print_all(rt, NAME, USAGE.as_bytes());
    }
    let sheet = read_input(rt, NAME, &asked.input)?;
    let ran = run_sheet(rt.alloc(), sheet.as_slice()).map_err(|e| stop(rt, NAME, e))?;
    print_all(rt, NAME, ran.text.as_bytes())?;
    match ran.fault {
        Some(fault) => Err(stop(rt, NAME, Fault(fault))),
        None => Ok(()),
    }
}

fn main(rt: HostRuntime) -> ExitCode {
    status(run(&rt))
}
