//! What refusals mean, for people.

/// A refusal, and what it means.
type Meaning = (&'static str, &'static str);

/// The refusals, but for those that name a constraint.
const MEANINGS: [Meaning; 43] = [
    ("0A000", "a reserved word of a form that is not built"),
    ("21000", "a scalar subquery has more than one row"),
    (
        "22001",
        "a text is too long: for its column, or past 1,000 characters",
    ),
    ("22003", "a result is outside signed 64 bits"),
    ("22012", "a division by zero"),
    (
        "24000",
        "a cursor is in the wrong state for this, or one is open beside a change",
    ),
    (
        "25000",
        "a change in a transaction that is READ ONLY, or SET TRANSACTION in one that has begun",
    ),
    (
        "40001",
        "another session changes tables, or has since this transaction began, and this one is rolled back",
    ),
    (
        "42000 character",
        "a byte that begins no token, or one in a string that is not printable ASCII",
    ),
    (
        "42000 number",
        "a number is past 9,223,372,036,854,775,807, or a letter follows it",
    ),
    ("42000 text", "a string has no closing quote"),
    ("42000 syntax", "no statement has these tokens"),
    (
        "42000 name",
        "a table, an index or a column of that name is not there",
    ),
    ("42000 ambiguous", "a name means several columns"),
    (
        "42000 duplicate",
        "a name is there already, or stands twice where it may stand once",
    ),
    (
        "42000 type",
        "an operand or a source has the wrong type, or the n of VARCHAR(n) is not from 1 to 255",
    ),
    (
        "42000 columns",
        "there are more or fewer columns, or fields, than there have to be",
    ),
    (
        "42000 grouping",
        "a column or a set function stands where its group does not allow it",
    ),
    (
        "42000 check",
        "a subquery or a set function stands in a CHECK",
    ),
    (
        "42000 reference",
        "a foreign key references no key, or one of another table references what is to be dropped",
    ),
    (
        "42000 session",
        "a piece begins with @ and asks for nothing that there is",
    ),
    (
        "42000 field",
        "a field of the CSV is no value, or an empty text would be dumped as null",
    ),
    ("X0001", "want of memory; the statement may be given again"),
    ("X0002", "the input, the output or the file refused"),
    ("X0003 statement", "more than 65,536 bytes in a statement"),
    ("X0003 nesting", "more than 64 parentheses open at once"),
    ("X0003 chain", "more than 64 operands in a chain"),
    ("X0003 name", "more than 64 characters in a name"),
    ("X0003 text", "more than 1,000 characters in a string"),
    (
        "X0003 columns",
        "more than 32 columns of a table, or 256 of a result",
    ),
    ("X0003 constraints", "more than 32 constraints of a table"),
    ("X0003 record", "more than 1,000 bytes in an encoded row"),
    ("X0003 sessions", "more than 64 sessions"),
    ("X0003 tables", "more than 8 tables in a FROM"),
    ("X0003 indexes", "more than 8 indexes of a table"),
    (
        "X0003 keycolumns",
        "more than 4 columns of a key or an index",
    ),
    ("X0003 key", "more than 600 bytes in an encoded key"),
    ("X0003 check", "more than 800 bytes in a CHECK"),
    ("X0003 pages", "more than 65,536 pages of a file"),
    ("X0003 cursors", "more than 8 declared queries of a session"),
    (
        "X0003 private",
        "more than 1,024 pages written in one transaction; take portions, each with a COMMIT",
    ),
    (
        "X0003 kept",
        "more than 4,096 old pages that open transactions read; end one, and COMMIT again",
    ),
    ("X0004", "the file is damaged"),
];

/// What 23000 and a name mean.
const CONSTRAINT: &str = "the constraint of that name is violated; #n is the n-th of its table";

/// What a refusal means, of which the code and the word are given. One that is none of the others
/// names a constraint.
pub(crate) fn meaning_of(refusal: &str) -> &'static str {
    for (known, meaning) in &MEANINGS {
        if *known == refusal {
            return *meaning;
        }
    }
    CONSTRAINT
}
