//! White space and comments.

ghost use Rattle.std.specs.Prelude.{◌≡◌, ◌≤◌, length};
ghost use Rattle.lexer.specs.Reading as reading;
ghost use Rattle.lexer.specs.Token as token;

/// What follows the white space and the comments at the front.
#[tactic(auto, unfolding(crate::specs::Reading::gap))]
pub fn skip_gap(bytes: &[u8]) -> &[u8]
    ensures value { result.now ≡ reading.gap bytes.now }
    ensures shorter { length result.now ≤ length bytes.now }
{
    let mut rest = bytes;
    let mut in_comment = false;
    while let [first, after @ ..] = rest {
        if ends_gap(in_comment, *first, after) {
            return rest;
        }
        in_comment = if in_comment {
            *first != b'\n'
        } else {
            *first == b'-'
        };
        rest = after;
    }
    rest
}

fn ends_gap(in_comment: bool, first: u8, after: &[u8]) -> bool
    ensures { result ≡ reading.ends_gap in_comment first after.now }
{
    !in_comment && !is_space(first) && !(first == b'-' && begins(b'-', after))
}

fn is_space(byte: u8) -> bool
    ensures { result ≡ token.is_space byte }
{
    byte == b' ' || byte == b'\t' || byte == b'\n' || byte == b'\r'
}

fn begins(wanted: u8, bytes: &[u8]) -> bool
    ensures { result ≡ reading.begins wanted bytes.now }
{
    match bytes {
        [first, ..] => *first == wanted,
        [] => false,
    }
}
