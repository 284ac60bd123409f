// The options of the command line.
ghost use Rattle.console.specs.Words.{MeansAs};
ghost use Rattle.decode.specs.Options.{word_of};

#[derive(Clone, Copy, PartialEq, Eq, Debug)]
pub enum Flag {
    Seal,
    Help,
}

// The options and their names.
pub fn options() -> [(&'static str, Flag); 2]
    ensures { MeansAs word_of result }
{
    [("--seal", Flag::Seal), ("--help", Flag::Help)]
}
