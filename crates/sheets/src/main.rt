// Runs the example sheets and compares what each prints with the text that stands beside it.
#![tactic(auto)]

use console::arguments::prints_help;
use console::streams::{Failed, status, stop};
use sheet::running::run_sheet;
use std::fs;
use std::process::ExitCode;

const USAGE: &str = "\
usage: sheets

Runs the four example sheets, NAME.sheet in the current folder, and compares
what each prints with NAME.out. Status 1 at the first that differs.

  --help  print this text

example, in the folder examples/ of the repository:
  $ ../run sheets
  labelling agrees
  closed-probed agrees
  stock-of-40 agrees
  refused agrees
";

const NAMES: [&str; 4] = ["labelling", "closed-probed", "stock-of-40", "refused"];

const NAME: &str = "sheets";

fn read_file(rt: &HostRuntime, name: &str, ending: &str) -> Result<Vec<u8>, Failed> {
    let path = format!(in rt.alloc(); "{name}.{ending}").map_err(|e| stop(rt, NAME, e))?;
    fs::read(rt, path.as_str()).map_err(|e| stop(rt, NAME, format_args!("cannot read {path}: {e}")))
}

// Runs one sheet.
fn try_sheet(rt: &HostRuntime, name: &str) -> Result<(), Failed> {
    let sheet = read_file(rt, name, "sheet")?;
    let expected = read_file(rt, name, "out")?;
    let ran = run_sheet(rt.alloc(), sheet.as_slice()).map_err(|e| stop(rt, NAME, e))?;
    if ran.text.as_bytes() != expected.as_slice() {
        return Err(stop(rt, NAME, format_args!("{name} differs")));
    }
    println!(rt; "{name} agrees").map_err(|e| stop(rt, NAME, format_args!("cannot write: {e}")))
}

fn run(rt: &HostRuntime) -> Result<(), Failed> {
    if prints_help(rt, NAME, USAGE)? {
        return Ok(());
    }
    for name in NAMES {
        try_sheet(rt, name)?;
    }
    Ok(())
}

fn main(rt: HostRuntime) -> ExitCode {
    status(run(&rt))
}
