// Says what a tag hears in frames that are given as lines of hex.
#![tactic(auto)]

mod decoding;
mod faults;
mod lines;
mod options;
mod report;
mod words;

use console::arguments::read_args;
use console::streams::{Failed, print_all, read_input, status, stop};
use decoding::decode_text;
use options::{Flag, options};
use std::process::ExitCode;

const USAGE: &str = "\
usage: decode [--seal] [FILE]

Reads frames as lines of hex byte pairs, from FILE or from standard input
(no FILE, or -), and says of each whether it is sound and what a tag hears.
Digits are upper or lower case, with blanks between the pairs or none.
A blank line is skipped. Of a line that is not hex byte pairs a message goes
to standard error; the run goes on, and ends with status 1.

  --seal  append the check bytes to each line's bytes first
  --help  print this text

example:
  $ echo '05 00 00 71 FF' | decode
  05000071ff sound: REQB, family 00, 1 slot
";

const NAME: &str = "decode";

fn run(rt: &HostRuntime) -> Result<(), Failed> {
    let asked = read_args(rt, NAME, &options())?;
    if asked.options.contains(&Flag::Help) {
        return print_all(rt, NAME, USAGE.as_bytes());
    }
    let sealing = asked.options.contains(&Flag::Seal);
    let text = read_input(rt, NAME, &asked.input)?;
    let decoded = decode_text(rt.alloc(), text.as_slice(), sealing).map_err(|e| stop(rt, NAME, e))?;
    print_all(rt, NAME, decoded.reports.as_bytes())?;
    if decoded.faults.is_empty() {
        return Ok(());
    }
    let _ = eprint!(rt; "{}", decoded.faults);
    Err(Failed)
}

fn main(rt: HostRuntime) -> ExitCode {
    status(run(&rt))
}
