//! The words of `sqlsh load` and `sqlsh dump`.
ghost use Rattle.std.specs.Prelude.{◌≡◌, ℕ, false, true, List, Some, map, IfSome, IsSomeAnd};
ghost use Rattle.transfers.specs.declared.words.Way.{Way as To};
ghost use Rattle.csvio.specs.declared.form.Form.{Form as Shape};
ghost use Rattle.transfers.specs.Words.{AsksBatches, AsksCommand, AsksLoad, AsksTransfer, IsCsv, NamesCsv, NamesFile, NamesTable, StandsFirst, WritesMost};

use csvio::Form;
use endings::is_option;
use std::convert::AsStr;

/// Which way rows go.
#[derive(Clone, Copy, PartialEq, Eq)]
pub enum Way {
    /// From CSV into a table.
    Load,
    /// From CSV into a table, by batches of so many records.
    LoadBatches(u32),
    /// From a table to CSV.
    Dump,
}

/// No header, and fields as values are printed.
const USUAL: Form = Form {
    header: false,
    plain: false,
};

/// What `sqlsh load` or `sqlsh dump` is asked for.
#[derive(Clone, Copy)]
pub struct Transfer<'a> {
    /// How the CSV has rows.
    pub form: Form,
    /// Which of the two it is.
    pub way: Way,
    /// The name of the file that keeps the tables.
    pub file: &'a str,
    /// What names the table.
    pub table: &'a str,
    /// The name of the CSV; `-` stands for standard input.
    pub csv: &'a str,
}

/// What the words ask for, of which the first is the program's name, where they ask for rows from
/// or to CSV: `load [--header] [--plain] [--batch N] FILE TABLE CSV` or
/// `dump [--header] [--plain] FILE TABLE CSV`. None of the three is an option, but that `-` may
/// stand behind a table that is loaded. N is from 1 to 4,294,967,295.
pub fn transfer_asked<'a, S: AsStr>(words: &'a [S]) -> Option<Transfer<'a>>
    ensures asked { (form : Shape) (way : To) (file table csv : List ℕ)
        → AsksTransfer (map S.text words.entry.now) form way file table csv
        → IsSomeAnd result (λ t. (t.form ≡ form) × (t.way ≡ way) × (t.file.now ≡ file) × (t.table.now ≡ table)
        × (t.csv.now ≡ csv)) }
    ensures found { IfSome result (λ t. AsksTransfer (map S.text words.entry.now) t.form t.way t.file.now t.table.now t.csv.now) }
{
    let Some((_name, words)) = words.split_first() else {
        return None;
    };
    let Some((command, options)) = words.split_first() else {
        return None;
    };
    let (header, options) = behind("--header", options);
    let (plain, names) = behind("--plain", options);
    let form = Form { header, plain };
    formed(form, command_asked(command.as_str(), names))
}

/// Whether this option is the first of these words, and the words behind it, or all.
fn behind<'a, S: AsStr>(option: &str, words: &'a [S]) -> (bool, &'a [S])
    ensures { StandsFirst option.now (map S.text words.entry.now) result.0 (map S.text result.1.now) }
{
    if let Some((word, rest)) = words.split_first() {
        if word.as_str() == option {
            return (true, rest);
        }
    }
    (false, words)
}

/// What a command and the words behind its form ask for.
fn command_asked<'a, S: AsStr>(command: &str, words: &'a [S]) -> Option<Transfer<'a>>
    ensures asked { (way : To) (file table csv : List ℕ)
        → AsksCommand command.now (map S.text words.entry.now) way file table csv
        → IsSomeAnd result (λ t. (t.way ≡ way) × (t.file.now ≡ file) × (t.table.now ≡ table) × (t.csv.now ≡ csv)) }
    ensures found { IfSome result (λ t. AsksCommand command.now (map S.text words.entry.now) t.way t.file.now t.table.now t.csv.now) }
{
    if command == "load" {
        return load_asked(words);
    }
    if command == "dump" {
        return with_file(Way::Dump, words);
    }
    None
}

/// The same in this form.
fn formed<'a>(form: Form, found: Option<Transfer<'a>>) -> Option<Transfer<'a>>
    ensures asked { (way : To) (file table csv : List ℕ)
        → IsSomeAnd found.entry (λ t. (t.way ≡ way) × (t.file.now ≡ file) × (t.table.now ≡ table) × (t.csv.now ≡ csv))
        → IsSomeAnd result (λ t. (t.form ≡ form) × (t.way ≡ way) × (t.file.now ≡ file) × (t.table.now ≡ table)
        × (t.csv.now ≡ csv)) }
    ensures found { IfSome result (λ t. (t.form ≡ form) × IsSomeAnd found.entry (λ u. (u.way ≡ t.way)
        × (u.file.now ≡ t.file.now) × (u.table.now ≡ t.table.now) × (u.csv.now ≡ t.csv.now))) }
{
    match found {
        Some(found) => Some(Transfer { form, ..found }),
        None => None,
    }
}

/// What the words behind `load` ask for.
fn load_asked<'a, S: AsStr>(words: &'a [S]) -> Option<Transfer<'a>>
    ensures asked { (way : To) (file table csv : List ℕ) → AsksLoad way (map S.text words.entry.now) file table csv
        → IsSomeAnd result (λ t. (t.way ≡ way) × (t.file.now ≡ file) × (t.table.now ≡ table) × (t.csv.now ≡ csv)) }
    ensures found { IfSome result (λ t. AsksLoad t.way (map S.text words.entry.now) t.file.now t.table.now t.csv.now) }
{
    let Some((option, rest)) = words.split_first() else {
        return None;
    };
    if let Some(number) = option.as_str().strip_prefix("--batch=") {
        return with_batches(number, rest);
    }
    if option.as_str() != "--batch" {
        return with_file(Way::Load, words);
    }
    let Some((number, more)) = rest.split_first() else {
        return None;
    };
    with_batches(number.as_str(), more)
}

/// What the words behind a number of records name.
fn with_batches<'a, S: AsStr>(number: &str, words: &'a [S]) -> Option<Transfer<'a>>
    ensures asked { (way : To) (file table csv : List ℕ)
        → AsksBatches way number.now (map S.text words.entry.now) file table csv
        → IsSomeAnd result (λ t. (t.way ≡ way) × (t.file.now ≡ file) × (t.table.now ≡ table) × (t.csv.now ≡ csv)) }
    ensures found { IfSome result (λ t. AsksBatches t.way number.now (map S.text words.entry.now) t.file.now t.table.now t.csv.now) }
{
    with_file(Way::LoadBatches(most_written(number)?), words)
}

/// The number of records, at least one, that a text writes.
fn most_written(text: &str) -> Option<u32>
    ensures asked { (most : ℕ) → WritesMost text.now most → result ≡ Some most }
    ensures found { IfSome result (λ most. WritesMost text.now most) }
{
    match text.parse::<u32>() {
        Ok(0) => None,
        Ok(most) => Some(most),
        Err(_) => None,
    }
}

/// What the words behind the command name.
fn with_file<'a, S: AsStr>(way: Way, words: &'a [S]) -> Option<Transfer<'a>>
    ensures asked { (file table csv : List ℕ) → NamesFile way (map S.text words.entry.now) file table csv
        → IsSomeAnd result (λ t. (t.way ≡ way) × (t.file.now ≡ file) × (t.table.now ≡ table) × (t.csv.now ≡ csv)) }
    ensures found { IfSome result (λ t. (t.way ≡ way)
        × NamesFile way (map S.text words.entry.now) t.file.now t.table.now t.csv.now) }
{
    let Some((word, words)) = words.split_first() else {
        return None;
    };
    if is_option(word.as_str()) {
        return None;
    }
    with_table(way, word.as_str(), words)
}

/// What the words behind this file name.
fn with_table<'a, S: AsStr>(way: Way, file: &'a str, words: &'a [S]) -> Option<Transfer<'a>>
    ensures asked { (table csv : List ℕ) → NamesTable way (map S.text words.entry.now) table csv
        → IsSomeAnd result (λ t. (t.way ≡ way) × (t.file.now ≡ file.entry.now) × (t.table.now ≡ table)
        × (t.csv.now ≡ csv)) }
    ensures found { IfSome result (λ t. (t.way ≡ way) × (t.file.now ≡ file.entry.now)
        × NamesTable way (map S.text words.entry.now) t.table.now t.csv.now) }
{
    let Some((word, words)) = words.split_first() else {
        return None;
    };
    if is_option(word.as_str()) {
        return None;
    }
    with_csv(way, file, word.as_str(), words)
}

/// What the words behind this file and this table name.
fn with_csv<'a, S: AsStr>(
    way: Way,
    file: &'a str,
    table: &'a str,
    words: &'a [S],
) -> Option<Transfer<'a>>
    ensures asked { (csv : List ℕ) → NamesCsv way (map S.text words.entry.now) csv
        → IsSomeAnd result (λ t. (t.way ≡ way) × (t.file.now ≡ file.entry.now) × (t.table.now ≡ table.entry.now)
        × (t.csv.now ≡ csv)) }
    ensures found { IfSome result (λ t. (t.way ≡ way) × (t.file.now ≡ file.entry.now) × (t.table.now ≡ table.entry.now)
        × NamesCsv way (map S.text words.entry.now) t.csv.now) }
{
    let Some((word, more)) = words.split_first() else {
        return None;
    };
    match more.split_first() {
        Some(_) => None,
        None => with_name(way, file, table, word.as_str()),
    }
}

/// This file, this table and the CSV that a word names, if it names one.
fn with_name<'a>(way: Way, file: &'a str, table: &'a str, csv: &'a str) -> Option<Transfer<'a>>
    ensures asked { IsCsv way csv.entry.now
        → IsSomeAnd result (λ t. (t.way ≡ way) × (t.file.now ≡ file.entry.now) × (t.table.now ≡ table.entry.now)
        × (t.csv.now ≡ csv.entry.now)) }
    ensures found { IfSome result (λ t. (t.way ≡ way) × (t.file.now ≡ file.entry.now) × (t.table.now ≡ table.entry.now)
        × IsCsv way csv.entry.now × (t.csv.now ≡ csv.entry.now)) }
{
    if is_csv(way, csv) {
        Some(Transfer {
            form: USUAL,
            way,
            file,
            table,
            csv,
        })
    } else {
        None
    }
}

/// Whether a word names a CSV.
fn is_csv(way: Way, word: &str) -> bool
    ensures yes { result ≡ true → IsCsv way word.now }
    ensures no { result ≡ false → IsCsv way word.now → ⊥ }
{
    match way {
        Way::Load => !is_option(word) || word == "-",
        Way::LoadBatches(_) => !is_option(word) || word == "-",
        Way::Dump => !is_option(word),
    }
}
