//! A word of a command line.
ghost use Rattle.std.specs.Prelude.{◌≡◌};
ghost use Rattle.endings.specs.Words.{is_option};

/// Whether a word is an option, and no file.
pub fn is_option(word: &str) -> bool
    ensures { result ≡ is_option word.now }
{
    match word.as_bytes().first() {
        Some(code) => *code == b'-',
        None => false,
    }
}
