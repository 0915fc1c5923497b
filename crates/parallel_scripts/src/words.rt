//! The words of a command line of `sqlmany`.
ghost use Rattle.std.specs.Prelude.{◌≡◌, ℕ, List, codes, map, IfSome, IsSomeAnd};
ghost use Rattle.std.specs.List.{list_any};
ghost use Rattle.frame_count.specs.Written.{WritesFrames};
ghost use Rattle.parallel_scripts.specs.Words.{AreNames, Asks, AsksBehind, AsksForNone, is_option};

use crate::options::Settings;
use frame_count::{DEFAULT_FRAMES, Frames};
use std::convert::AsStr;

/// The settings that the words ask for, of which the first is the program's name; or none, where
/// they ask for nothing that there is.
pub(crate) fn settings_asked<'a, S: AsStr>(words: &'a [S]) -> Option<Settings<'a, S>>
    ensures asked { (count : ℕ) (names : List (List ℕ)) → Asks (map S.text words.entry.now) count names
        → IsSomeAnd result (λ settings. (settings.frames.count ≡ count) × (map S.text settings.scripts.now ≡ names)) }
    ensures found { IfSome result (λ settings. Asks (map S.text words.entry.now) settings.frames.count (map S.text settings.scripts.now)) }
{
    let Some((_name, others)) = words.split_first() else {
        return None;
    };
    settings_behind(others)
}

/// The settings that the words behind the program's name ask for.
fn settings_behind<'a, S: AsStr>(words: &'a [S]) -> Option<Settings<'a, S>>
    ensures asked { (count : ℕ) (names : List (List ℕ)) → AsksBehind (map S.text words.entry.now) count names
        → IsSomeAnd result (λ settings. (settings.frames.count ≡ count) × (map S.text settings.scripts.now ≡ names)) }
    ensures found { IfSome result (λ settings. AsksBehind (map S.text words.entry.now) settings.frames.count (map S.text settings.scripts.now)) }
{
    let Some((option, rest)) = words.split_first() else {
        return None;
    };
    if let Some(number) = option.as_str().strip_prefix("--frames=") {
        return frames_and_names(number, rest);
    }
    if option.as_str() != "--frames" {
        return default_frames(words);
    }
    let Some((number, names)) = rest.split_first() else {
        return None;
    };
    frames_and_names(number.as_str(), names)
}

/// The settings of words that say nothing of frames.
fn default_frames<'a, S: AsStr>(words: &'a [S]) -> Option<Settings<'a, S>>
    ensures asked { (count : ℕ) (names : List (List ℕ)) → AsksForNone (map S.text words.entry.now) count names
        → IsSomeAnd result (λ settings. (settings.frames.count ≡ count) × (map S.text settings.scripts.now ≡ names)) }
    ensures found { IfSome result (λ settings. AsksForNone (map S.text words.entry.now) settings.frames.count (map S.text settings.scripts.now)) }
{
    with_names(Frames::new(DEFAULT_FRAMES)?, words)
}

/// The settings of so many frames, and of the words behind them.
fn frames_and_names<'a, S: AsStr>(number: &str, words: &'a [S]) -> Option<Settings<'a, S>>
    ensures asked { (count : ℕ) (names : List (List ℕ)) → WritesFrames number.now count
        → AreNames (map S.text words.entry.now) names
        → IsSomeAnd result (λ settings. (settings.frames.count ≡ count) × (map S.text settings.scripts.now ≡ names)) }
    ensures found { IfSome result (λ settings. WritesFrames number.now settings.frames.count
        × AreNames (map S.text words.entry.now) (map S.text settings.scripts.now)) }
{
    with_names(Frames::written(number)?, words)
}

/// These frames, and the scripts that the words name.
fn with_names<'a, S: AsStr>(frames: Frames, words: &'a [S]) -> Option<Settings<'a, S>>
    ensures asked { (names : List (List ℕ)) → AreNames (map S.text words.entry.now) names
        → IsSomeAnd result (λ settings. (settings.frames ≡ frames) × (map S.text settings.scripts.now ≡ names)) }
    ensures found { IfSome result (λ settings. (settings.frames ≡ frames)
        × AreNames (map S.text words.entry.now) (map S.text settings.scripts.now)) }
{
    if words.is_empty() || has_option(words) {
        return None;
    }
    Some(Settings {
        frames,
        scripts: words,
    })
}

/// Whether a word is an option.
fn has_option<S: AsStr>(words: &[S]) -> bool
    ensures { result ≡ list_any is_option (map S.text words.now) }
{
    for word in words {
        if is_option(word.as_str()) {
            return true;
        }
    }
    false
}

/// Whether a word is an option, and no name.
fn is_option(word: &str) -> bool
    ensures { result ≡ is_option word.now }
{
    match word.as_bytes().first() {
        Some(code) => *code == b'-',
        None => false,
    }
}
