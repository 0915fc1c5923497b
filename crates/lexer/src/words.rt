//! The reserved words.

ghost use Rattle.std.specs.Prelude.{◌≡◌, ◌<◌, true, length, map};
ghost use Rattle.lexer.specs.Words.{Entry as Line, are_rising, is_supported, reserved, supports, text_with, vocabulary, word_text, word_with};

use std::cmp::Ordering;
use std::fmt;

/// Whether the forms that use a reserved word are built yet.
#[derive(Clone, Copy, PartialEq, Eq)]
pub enum Support {
    Now,
    /// Its forms come later. Of these words the language has no form: ALTER, ANY, ASSERTION,
    /// CASCADE, CASE, CAST, CHAR, COALESCE, COLLATE, CORRESPONDING, CURRENT, DATE, DECIMAL,
    /// DEFAULT, DOMAIN, ESCAPE, FLOAT, FULL, GRANT, INTERVAL, ISOLATION, NATURAL, NULLIF, NUMERIC,
    /// REAL, RESTRICT, REVOKE, RIGHT, SAVEPOINT, SCHEMA, SCROLL, SMALLINT, SOME, TIME, TIMESTAMP,
    /// USING and VIEW.
    Later,
}

/// A reserved word. `{:?}` writes its text.
#[derive(Clone, Copy, PartialEq, Eq)]
pub enum Word {
    All,
    Alter,
    And,
    Any,
    As,
    Asc,
    Assertion,
    Avg,
    Between,
    By,
    Cascade,
    Case,
    Cast,
    Char,
    Character,
    Check,
    Close,
    Coalesce,
    Collate,
    Commit,
    Constraint,
    Corresponding,
    Count,
    Create,
    Cross,
    Current,
    Cursor,
    Date,
    Decimal,
    Declare,
    Default,
    Delete,
    Desc,
    Distinct,
    Domain,
    Drop,
    Escape,
    Except,
    Exists,
    Explain,
    False,
    Fetch,
    Float,
    For,
    Foreign,
    From,
    Full,
    Grant,
    Group,
    Having,
    In,
    Index,
    Inner,
    Insert,
    Int,
    Integer,
    Intersect,
    Interval,
    Into,
    Is,
    Isolation,
    Join,
    Key,
    Left,
    Like,
    Max,
    Min,
    Natural,
    Not,
    Null,
    Nullif,
    Numeric,
    On,
    Only,
    Open,
    Or,
    Order,
    Outer,
    Primary,
    Read,
    Real,
    References,
    Restrict,
    Revoke,
    Right,
    Rollback,
    Savepoint,
    Schema,
    Scroll,
    Select,
    Set,
    Smallint,
    Some,
    Sum,
    Table,
    Time,
    Timestamp,
    Transaction,
    True,
    Union,
    Unique,
    Unknown,
    Update,
    Using,
    Values,
    Varchar,
    Varying,
    View,
    Where,
    Work,
    Write,
}

/// A text, its word, and whether the forms that use it are built.
type Entry = (&'static str, Word, Support);

/// Each reserved word with its text and its support, in the order of `Word`: the `vocabulary` of
/// the definitions, line by line.
pub const WORDS: [Entry; 111] = [
    ("ALL", Word::All, Support::Now),
    ("ALTER", Word::Alter, Support::Later),
    ("AND", Word::And, Support::Now),
    ("ANY", Word::Any, Support::Later),
    ("AS", Word::As, Support::Now),
    ("ASC", Word::Asc, Support::Now),
    ("ASSERTION", Word::Assertion, Support::Later),
    ("AVG", Word::Avg, Support::Now),
    ("BETWEEN", Word::Between, Support::Now),
    ("BY", Word::By, Support::Now),
    ("CASCADE", Word::Cascade, Support::Later),
    ("CASE", Word::Case, Support::Later),
    ("CAST", Word::Cast, Support::Later),
    ("CHAR", Word::Char, Support::Later),
    ("CHARACTER", Word::Character, Support::Now),
    ("CHECK", Word::Check, Support::Now),
    ("CLOSE", Word::Close, Support::Now),
    ("COALESCE", Word::Coalesce, Support::Later),
    ("COLLATE", Word::Collate, Support::Later),
    ("COMMIT", Word::Commit, Support::Now),
    ("CONSTRAINT", Word::Constraint, Support::Now),
    ("CORRESPONDING", Word::Corresponding, Support::Later),
    ("COUNT", Word::Count, Support::Now),
    ("CREATE", Word::Create, Support::Now),
    ("CROSS", Word::Cross, Support::Now),
    ("CURRENT", Word::Current, Support::Later),
    ("CURSOR", Word::Cursor, Support::Now),
    ("DATE", Word::Date, Support::Later),
    ("DECIMAL", Word::Decimal, Support::Later),
    ("DECLARE", Word::Declare, Support::Now),
    ("DEFAULT", Word::Default, Support::Later),
    ("DELETE", Word::Delete, Support::Now),
    ("DESC", Word::Desc, Support::Now),
    ("DISTINCT", Word::Distinct, Support::Now),
    ("DOMAIN", Word::Domain, Support::Later),
    ("DROP", Word::Drop, Support::Now),
    ("ESCAPE", Word::Escape, Support::Later),
    ("EXCEPT", Word::Except, Support::Now),
    ("EXISTS", Word::Exists, Support::Now),
    ("EXPLAIN", Word::Explain, Support::Now),
    ("FALSE", Word::False, Support::Now),
    ("FETCH", Word::Fetch, Support::Now),
    ("FLOAT", Word::Float, Support::Later),
    ("FOR", Word::For, Support::Now),
    ("FOREIGN", Word::Foreign, Support::Now),
    ("FROM", Word::From, Support::Now),
    ("FULL", Word::Full, Support::Later),
    ("GRANT", Word::Grant, Support::Later),
    ("GROUP", Word::Group, Support::Now),
    ("HAVING", Word::Having, Support::Now),
    ("IN", Word::In, Support::Now),
    ("INDEX", Word::Index, Support::Now),
    ("INNER", Word::Inner, Support::Now),
    ("INSERT", Word::Insert, Support::Now),
    ("INT", Word::Int, Support::Now),
    ("INTEGER", Word::Integer, Support::Now),
    ("INTERSECT", Word::Intersect, Support::Now),
    ("INTERVAL", Word::Interval, Support::Later),
    ("INTO", Word::Into, Support::Now),
    ("IS", Word::Is, Support::Now),
    ("ISOLATION", Word::Isolation, Support::Later),
    ("JOIN", Word::Join, Support::Now),
    ("KEY", Word::Key, Support::Now),
    ("LEFT", Word::Left, Support::Now),
    ("LIKE", Word::Like, Support::Now),
    ("MAX", Word::Max, Support::Now),
    ("MIN", Word::Min, Support::Now),
    ("NATURAL", Word::Natural, Support::Later),
    ("NOT", Word::Not, Support::Now),
    ("NULL", Word::Null, Support::Now),
    ("NULLIF", Word::Nullif, Support::Later),
    ("NUMERIC", Word::Numeric, Support::Later),
    ("ON", Word::On, Support::Now),
    ("ONLY", Word::Only, Support::Now),
    ("OPEN", Word::Open, Support::Now),
    ("OR", Word::Or, Support::Now),
    ("ORDER", Word::Order, Support::Now),
    ("OUTER", Word::Outer, Support::Now),
    ("PRIMARY", Word::Primary, Support::Now),
    ("READ", Word::Read, Support::Now),
    ("REAL", Word::Real, Support::Later),
    ("REFERENCES", Word::References, Support::Now),
    ("RESTRICT", Word::Restrict, Support::Later),
    ("REVOKE", Word::Revoke, Support::Later),
    ("RIGHT", Word::Right, Support::Later),
    ("ROLLBACK", Word::Rollback, Support::Now),
    ("SAVEPOINT", Word::Savepoint, Support::Later),
    ("SCHEMA", Word::Schema, Support::Later),
    ("SCROLL", Word::Scroll, Support::Later),
    ("SELECT", Word::Select, Support::Now),
    ("SET", Word::Set, Support::Now),
    ("SMALLINT", Word::Smallint, Support::Later),
    ("SOME", Word::Some, Support::Later),
    ("SUM", Word::Sum, Support::Now),
    ("TABLE", Word::Table, Support::Now),
    ("TIME", Word::Time, Support::Later),
    ("TIMESTAMP", Word::Timestamp, Support::Later),
    ("TRANSACTION", Word::Transaction, Support::Now),
    ("TRUE", Word::True, Support::Now),
    ("UNION", Word::Union, Support::Now),
    ("UNIQUE", Word::Unique, Support::Now),
    ("UNKNOWN", Word::Unknown, Support::Now),
    ("UPDATE", Word::Update, Support::Now),
    ("USING", Word::Using, Support::Later),
    ("VALUES", Word::Values, Support::Now),
    ("VARCHAR", Word::Varchar, Support::Now),
    ("VARYING", Word::Varying, Support::Now),
    ("VIEW", Word::View, Support::Later),
    ("WHERE", Word::Where, Support::Now),
    ("WORK", Word::Work, Support::Now),
    ("WRITE", Word::Write, Support::Now),
];

/// The lines of `WORDS`.
fn lines() -> &'static [Entry]
    ensures { map {B = Line} (λ entry. (entry.0.now, entry.1, entry.2)) result.now ≡ vocabulary }
{
    &WORDS
}

/// The reserved word of this text, which is in upper case; `None` where it is no reserved word.
#[tactic(auto, unfolding(crate::specs::Words::reserved))]
pub fn reserved_word(text: &[u8]) -> Option<Word>
    ensures { result ≡ reserved text.now }
{
    word_with(lines(), text)
}

impl Word {
    /// The text, in upper case.
    #[tactic(auto, unfolding(crate::specs::Words::word_text))]
    pub fn text(self) -> &'static [u8]
        ensures { result.now ≡ word_text self }
    {
        text_with(lines(), self).as_bytes()
    }

    /// Whether the forms that use the word are built.
    #[tactic(auto, unfolding(crate::specs::Words::is_supported))]
    pub fn is_supported(self) -> bool
        ensures { result ≡ is_supported self }
    {
        supports(lines(), self)
    }
}

impl fmt::Debug for Word {
    ghost use Rattle.std.specs.Prelude.{Some};

    ghost debug_output = { λ word. Some (word_text word) };

    #[tactic(auto, unfolding(crate::specs::Words::word_text))]
    fn fmt<W: fmt::Write>(&self, f: &mut fmt::Formatter<W>) -> fmt::Result {
        f.write_str(text_with(lines(), *self))
    }
}

/// The word on the line of a text, by halves: the texts of the lines rise.
fn word_with(mut table: &[Entry], text: &[u8]) -> Option<Word>
    requires { are_rising (map (λ entry. (entry.0.now, entry.1, entry.2)) table.now) ≡ true }
    ensures { result ≡ word_with (map (λ entry. (entry.0.now, entry.1, entry.2)) table.entry.now) text.now }
{
    while table.len() > 1 {
        table = half_with(table, text);
    }
    match table {
        [entry] => {
            if entry.0.as_bytes() == text {
                Some(entry.1)
            } else {
                None
            }
        }
        _ => None,
    }
}

/// The half of some lines in which a text may stand.
fn half_with<'a>(table: &'a [Entry], text: &[u8]) -> &'a [Entry]
    requires many { 1 < length table.now }
    requires rising { are_rising (map (λ entry. (entry.0.now, entry.1, entry.2)) table.now) ≡ true }
    ensures rising { are_rising (map (λ entry. (entry.0.now, entry.1, entry.2)) result.now) ≡ true }
    ensures same { word_with (map (λ entry. (entry.0.now, entry.1, entry.2)) result.now) text.now
        ≡ word_with (map (λ entry. (entry.0.now, entry.1, entry.2)) table.now) text.now }
    ensures fewer { length result.now < length table.now }
{
    let half = table.len() / 2;
    match text.cmp(table[half].0.as_bytes()) {
        Ordering::Less => &table[..half],
        _ => &table[half..],
    }
}

fn text_with(mut table: &[Entry], word: Word) -> &'static str
    ensures { result.now ≡ text_with (map (λ entry. (entry.0.now, entry.1, entry.2)) table.entry.now) word }
{
    while let [entry, rest @ ..] = table {
        if entry.1 == word {
            return entry.0;
        }
        table = rest;
    }
    ""
}

fn supports(mut table: &[Entry], word: Word) -> bool
    ensures { result ≡ supports (map (λ entry. (entry.0.now, entry.1, entry.2)) table.entry.now) word }
{
    while let [entry, rest @ ..] = table {
        if entry.1 == word {
            return entry.2 == Support::Now;
        }
        table = rest;
    }
    false
}
