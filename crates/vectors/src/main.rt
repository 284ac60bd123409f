// Runs worked examples of check bytes: the first three are ISO/IEC 14443-3's own, the others frames of the tag's data sheet.
#![tactic(auto)]

mod judging;

use console::arguments::prints_help;
use console::streams::{Failed, status, stop};
use hex_pairs::Hex;
use judging::{Verdict, judge};
use std::io;
use std::process::ExitCode;

const USAGE: &str = "\
usage: vectors

Works out the check bytes of nine published frames. Prints of each its bytes,
the check bytes that were published, and ok or what is wrong; then how many
agree. Status 1 where not all do.

  --help  print this text

example:
  $ vectors | tail -n 1
  9 of 9 examples agree
";

const NAME: &str = "vectors";

// A body and its check bytes, in the order in which they are sent.
const EXAMPLES: [(&[u8], [u8; 2]); 9] = [
    (&[0x00, 0x00, 0x00], [0xCC, 0xC6]),
    (&[0x0F, 0xAA, 0xFF], [0xFC, 0xD1]),
    (&[0x0A, 0x12, 0x34, 0x56], [0x2C, 0xF6]),
    (&[0x00], [0x78, 0xF0]),
    (&[0x05, 0x00, 0x00], [0x71, 0xFF]),
    (&[0x05, 0x00, 0x08], [0x39, 0x73]),
    (
        &[
            0x50, 0x11, 0x22, 0x33, 0x44, 0x00, 0x00, 0x00, 0x00, 0x00, 0x00, 0x41,
        ],
        [0x41, 0x0C],
    ),
    (&[0x40, 0x41], [0xAC, 0x1A]),
    (&[0x60, 0x00], [0x12, 0x6A]),
];

// Prints the verdict on each example. Answers whether all agree.
fn judge_all(rt: &HostRuntime) -> io::Result<bool> {
    let total = EXAMPLES.len();
    let mut agree = 0;
    for (body, check) in EXAMPLES {
        let verdict = judge(rt.alloc(), body, check)?;
        if verdict == Verdict::Agrees {
            agree += 1;
        }
        let frame = Hex(body);
        let given = Hex(&check);
        println!(rt; "{frame} {given} {verdict}")?;
    }
    println!(rt; "{agree} of {total} examples agree")?;
    Ok(agree == total)
}

fn run(rt: &HostRuntime) -> Result<(), Failed> {
    if prints_help(rt, NAME, USAGE)? {
        return Ok(());
    }
    let agree = judge_all(rt).map_err(|e| stop(rt, NAME, e))?;
    if agree {
        Ok(())
    } else {
        Err(stop(rt, NAME, "an example does not agree"))
    }
}

fn main(rt: HostRuntime) -> ExitCode {
    status(run(&rt))
}
