// What a program reads and prints, and how it stops. No contract can say what is read or printed.
ghost use Rattle.std.specs.Prelude.{◌≡◌, is_ok, if◌then◌else◌};
ghost use Rattle.std.specs.Process.{exit_status};

use std::fmt::Display;
use std::io::Read;
use std::process::ExitCode;
use std::{fs, io};

// The program stops with status 1, and has said why.
pub struct Failed;

// Says on standard error why the program with this name stops. Here and below the runtime comes first, as in std, and the
// name behind it: no struct holds both.
pub fn stop(rt: &HostRuntime, program: &str, why: impl Display + Drop) -> Failed {
    let _ = eprintln!(rt; "{program}: {why}");
    Failed
}

// The status that a program ends with: 0, or 1 where it failed.
pub fn status(ended: Result<(), Failed>) -> ExitCode
    ensures { exit_status result ≡ (if is_ok ended then 0 else 1) }
{
    match ended {
        Ok(()) => ExitCode::SUCCESS,
        Err(Failed) => ExitCode::FAILURE,
    }
}

fn read_stdin(rt: &HostRuntime) -> io::Result<Vec<u8>> {
    let mut bytes = Vec::new(rt.alloc());
    rt.stdin().read_to_end(&mut bytes)?;
    Ok(bytes)
}

fn read_named(rt: &HostRuntime, name: &str) -> io::Result<Vec<u8>> {
    if name == "-" {
        read_stdin(rt)
    } else {
        fs::read(rt, name)
    }
}

// The bytes of the file with a name, or of standard input where there is none or it is a dash. They need not be text.
pub fn read_input(
    rt: &HostRuntime,
    program: &str,
    input: &Option<String>,
) -> Result<Vec<u8>, Failed> {
    let Some(name) = input else {
        return read_stdin(rt).map_err(|e| stop(
            rt,
            program,
            format_args!("cannot read standard input: {e}"),
        ));
    };
    read_named(rt, name.as_str()).map_err(|e| stop(
        rt,
        program,
        format_args!("cannot read {name}: {e}"),
    ))
}

// Prints a whole text.
pub fn print_all(rt: &HostRuntime, program: &str, text: &[u8]) -> Result<(), Failed> {
    rt.write_all(text)
        .map_err(|e| stop(rt, program, format_args!("cannot write: {e}")))
}
