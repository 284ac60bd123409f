// A fixed story before a tray, told action by action in plain words.
#![tactic(auto)]

mod failure;
mod making;
mod speaking;
mod story;
mod wording;

use console::arguments::prints_help;
use console::streams::{Failed, status, stop};
use std::process::ExitCode;

const USAGE: &str = "\
usage: scenario

Tells a fixed story of a reader before a tray, one action a line: what the
reader said or did, and what came of it. First one pump tag from its first
request to its last, then three pump tags and two gauges at once, a stock of
them, and calls that are refused. Bytes are hex pairs.

  --help  print this text

example, the first three lines:
  $ scenario
  one pump tag
  field on: done
  request, family 00, 1 slot: answer from 11223344
";

const NAME: &str = "scenario";

fn run(rt: &HostRuntime) -> Result<(), Failed> {
    if prints_help(rt, NAME, USAGE)? {
        return Ok(());
    }
    story::tell(rt).map_err(|why| stop(rt, NAME, why))
}

fn main(rt: HostRuntime) -> ExitCode {
    status(run(&rt))
}
