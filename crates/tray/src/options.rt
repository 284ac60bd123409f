// The options of the command line.
ghost use Rattle.console.specs.Words.{MeansAs};
ghost use Rattle.tray.specs.Options.{word_of};

#[derive(Clone, Copy, PartialEq, Eq, Debug)]
pub enum Flag {
    Help,
}

// The options and their names.
pub fn options() -> [(&'static str, Flag); 1]
    ensures { MeansAs word_of result }
{
    [("--help", Flag::Help)]
}
