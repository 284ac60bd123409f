// The command line of a program. No contract can say which words it has.
use crate::streams::{Failed, print_all, stop};
use crate::words::{Word, word_of};
use std::env;

// What a command line asks for: options, in their order, and the name of the input, a file or a dash.
#[derive(Drop)]
pub struct Asked<T> {
    pub options: Vec<T>,
    pub input: Option<String>,
}

// Reads the command line of the program with this name, whose options stand in a table.
pub fn read_args<T: Copy + Drop>(
    rt: &HostRuntime,
    program: &str,
    options: &[(&str, T)],
) -> Result<Asked<T>, Failed> {
    let args = env::args(rt).map_err(|e| stop(
        rt,
        program,
        format_args!("cannot read the arguments: {e}"),
    ))?;
    let mut asked = Asked {
        options: Vec::new(rt.alloc()),
        input: None,
    };
    for word in args.skip(1) {
        match word_of(word.as_str(), options) {
            Word::Known(option) => asked
                .options
                .push(option)
                .map_err(|e| stop(rt, program, e))?,
            Word::Unknown => {
                let why = format_args!(
                    "unknown option {word}; {program} --help says what there is"
                );
                return Err(stop(rt, program, why));
            }
            Word::Input if asked.input.is_some() => {
                let why = format_args!("one FILE at a time, and {word} is the second");
                return Err(stop(rt, program, why));
            }
            Word::Input => asked.input = Some(word),
        }
    }
    Ok(asked)
}

// Reads the command line of a program that reads no input. Its help is printed where it is asked for: then there is no more
// to do, and the answer is true.
pub fn prints_help(rt: &HostRuntime, program: &str, usage: &str) -> Result<bool, Failed> {
    let asked = read_args(rt, program, &[("--help", ())])?;
    if let Some(word) = &asked.input {
        let why = format_args!("no FILE is read, and {word} is one; {program} --help says more");
        return Err(stop(rt, program, why));
    }
    if asked.options.is_empty() {
        return Ok(false);
    }
    print_all(rt, program, usage.as_bytes())?;
    Ok(true)
}

#[cfg(test)]
mod tests {
    use super::*;
    use std::test::Fail;

    #[test]
    fn a_command_line_is_read(rt: HostRuntime) -> Result<(), Fail> {
        let read = match read_args(&rt, "console", &[("--help", true)]) {
            Ok(_) => true,
            Err(Failed) => false,
        };
        assert!(rt; read, "the test's own command line is refused");
        Ok(())
    }
}
