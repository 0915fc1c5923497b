//! The words of a command line of `sqlsh`.

ghost use Rattle.std.specs.Prelude.{◌≡◌, ℕ, false, List, Option, Some, codes, map, IfSome, IsSomeAnd};
ghost use Rattle.frame_count.specs.Written.{WritesFrames};
ghost use Rattle.endings.specs.Words.{is_option};
ghost use Rattle.shell.specs.Words.{Asks, AsksBehind, AsksFile, AsksForNone, name_of};

use crate::options::Settings;
use endings::is_option;
use frame_count::{DEFAULT_FRAMES, Frames};
use std::convert::AsStr;

/// The settings that the words ask for, of which the first is the program's name; or none, where
/// they ask for nothing that there is.
pub(crate) fn settings_asked<'a, S: AsStr>(words: &'a [S]) -> Option<Settings<'a>>
    ensures asked { (count : ℕ) (file : Option (List ℕ)) → Asks (map S.text words.entry.now) count file
        → IsSomeAnd result (λ settings. (settings.frames.count ≡ count) × (name_of settings.file ≡ file)) }
    ensures found { IfSome result (λ settings. Asks (map S.text words.entry.now) settings.frames.count (name_of settings.file)) }
{
    let Some((_name, words)) = words.split_first() else {
        return None;
    };
    let Some((command, options)) = words.split_first() else {
        return None;
    };
    if command.as_str() != "run" {
        return None;
    }
    settings_behind(options)
}

/// The settings that the words behind `run` ask for.
fn settings_behind<'a, S: AsStr>(options: &'a [S]) -> Option<Settings<'a>>
    ensures asked { (count : ℕ) (file : Option (List ℕ)) → AsksBehind (map S.text options.entry.now) count file
        → IsSomeAnd result (λ settings. (settings.frames.count ≡ count) × (name_of settings.file ≡ file)) }
    ensures found { IfSome result (λ settings. AsksBehind (map S.text options.entry.now) settings.frames.count (name_of settings.file)) }
{
    let Some((option, rest)) = options.split_first() else {
        return default_frames(options);
    };
    if let Some(number) = option.as_str().strip_prefix("--frames=") {
        return frames_and_file(number, rest);
    }
    if option.as_str() != "--frames" {
        return default_frames(options);
    }
    let Some((number, more)) = rest.split_first() else {
        return None;
    };
    frames_and_file(number.as_str(), more)
}

/// The settings of words that say nothing of frames.
fn default_frames<'a, S: AsStr>(words: &'a [S]) -> Option<Settings<'a>>
    ensures asked { (count : ℕ) (file : Option (List ℕ)) → AsksForNone (map S.text words.entry.now) count file
        → IsSomeAnd result (λ settings. (settings.frames.count ≡ count) × (name_of settings.file ≡ file)) }
    ensures found { IfSome result (λ settings. AsksForNone (map S.text words.entry.now) settings.frames.count (name_of settings.file)) }
{
    with_file(Frames::new(DEFAULT_FRAMES)?, words)
}

/// The settings of so many frames, and of the words behind them.
fn frames_and_file<'a, S: AsStr>(number: &str, words: &'a [S]) -> Option<Settings<'a>>
    ensures asked { (count : ℕ) (file : Option (List ℕ)) → WritesFrames number.now count
        → AsksFile (map S.text words.entry.now) file
        → IsSomeAnd result (λ settings. (settings.frames.count ≡ count) × (name_of settings.file ≡ file)) }
    ensures found { IfSome result (λ settings. WritesFrames number.now settings.frames.count
        × AsksFile (map S.text words.entry.now) (name_of settings.file)) }
{
    with_file(Frames::written(number)?, words)
}

/// These frames, and the file that the last word names, if there is a word.
fn with_file<'a, S: AsStr>(frames: Frames, words: &'a [S]) -> Option<Settings<'a>>
    ensures asked { (file : Option (List ℕ)) → AsksFile (map S.text words.entry.now) file
        → IsSomeAnd result (λ settings. (settings.frames ≡ frames) × (name_of settings.file ≡ file)) }
    ensures found { IfSome result (λ settings. (settings.frames ≡ frames)
        × AsksFile (map S.text words.entry.now) (name_of settings.file)) }
{
    let Some((word, more)) = words.split_first() else {
        return Some(Settings { frames, file: None });
    };
    match more.split_first() {
        Some(_) => None,
        None => with_name(frames, word.as_str()),
    }
}

/// These frames, and the file that a word names, if it is no option.
fn with_name<'a>(frames: Frames, word: &'a str) -> Option<Settings<'a>>
    ensures asked { is_option word.entry.now ≡ false
        → IsSomeAnd result (λ settings. (settings.frames ≡ frames) × (name_of settings.file ≡ Some word.entry.now)) }
    ensures found { IfSome result (λ settings. (settings.frames ≡ frames) × (is_option word.entry.now ≡ false)
        × (name_of settings.file ≡ Some word.entry.now)) }
{
    if is_option(word) {
        None
    } else {
        Some(Settings {
            frames,
            file: Some(word),
        })
    }
}
