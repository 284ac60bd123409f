// Words of a command line.
ghost use Rattle.std.specs.Prelude.{◌≡◌};
ghost use Rattle.std.specs.List.{find};
ghost use Rattle.std.specs.Option.{option_map};
ghost use Rattle.std.specs.Str.{bytes_eq};
ghost use Rattle.console.specs.Words.{dashed, word_of, names_of, Worked};

// What a word means to a program whose options are values of `T`.
#[derive(Clone, Copy, PartialEq, Eq, Debug)]
pub enum Word<T> {
    // An option, by its name.
    Known(T),
    // A word with a dash that names no option.
    Unknown,
    // The name of the input, a file or a dash.
    Input,
}

// A word that begins with a dash.
pub fn is_dashed(word: &str) -> bool
    ensures result { result ≡ dashed word.now }
    ensures worked { Worked }
{
    word.starts_with('-')
}

// The option that a word names, if any.
fn option_of<T: Copy>(word: &str, options: &[(&str, T)]) -> Option<T>
    ensures { result ≡ option_map (λ o. o.1) (find (λ o. bytes_eq word.now o.0.now) options.now) }
{
    options
        .iter()
        .find(|(name, _)| word == *name)
        .map(|(_, option)| *option)
}

// What a word means: an option of the table, or the name of the input. A dash alone is such a name.
pub fn word_of<T: Copy>(word: &str, options: &[(&str, T)]) -> Word<T>
    ensures { result ≡ word_of (names_of options.now) word.now }
{
    match option_of(word, options) {
        Some(option) => Word::Known(option),
        None if word != "-" && is_dashed(word) => Word::Unknown,
        None => Word::Input,
    }
}
