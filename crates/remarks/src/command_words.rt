//! The option `--verbose` among the words of a command line.
ghost use Rattle.std.specs.Prelude.{◌≡◌, ◌<◌, ◌↔◌, IsTrue, length, map, string_bytes};
ghost use Rattle.remarks.specs.Words.{AsksWords, without_third};

use std::convert::AsStr;

/// The option, which stands behind the command's word and before all others.
const VERBOSE: &str = "--verbose";

/// Where the option stands among the words, of which the first is the program's name and the second
/// the command's.
const PLACE: usize = 2;

/// Whether words for people are asked for, and the words without that. The first of the words is
/// the program's name, the second the command's; the third asks for them where it is `--verbose`,
/// and only then it is left out.
pub fn without_verbose(words: Vec<String>) -> (bool, Vec<String>)
    ensures flag { IsTrue result.0 ↔ AsksWords (map string_bytes words.items) }
    ensures words { result.1.items ≡ without_third result.0 words.items }
{
    let is_verbose = asks_words(words.as_slice());
    let mut words = words;
    if is_verbose {
        let _ = words.remove(PLACE);
    }
    (is_verbose, words)
}

/// Whether the third word asks for words for people.
fn asks_words(words: &[String]) -> bool
    ensures asks { IsTrue result ↔ AsksWords (map string_bytes words.now) }
    ensures within { IsTrue result → 2 < length words.now }
{
    match words.get(PLACE) {
        Some(word) => word.as_str() == VERBOSE,
        None => false,
    }
}
