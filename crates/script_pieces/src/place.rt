ghost use Rattle.std.specs.Prelude.{◌≡◌, ◌≢◌, MatchBool};
ghost use Rattle.script_pieces.specs.Place.{is_space};

/// Where the next byte of a piece stands.
#[derive(Clone, Copy, PartialEq, Eq)]
pub(crate) enum Place {
    /// Outside strings and comments.
    Outside,
    /// There too, behind a minus, with which a comment may begin.
    AfterMinus,
    InString,
    InComment,
}

impl Place {
    ghost use Rattle.script_pieces.specs.Place.{begun_by, place_after, is_outside, goes_on_blank};

    /// The place of the byte after this one.
    pub(crate) fn after(self, byte: u8) -> Place
        ensures { result ≡ place_after self byte }
    {
        match self {
            Place::InString if byte == b'\'' => Place::Outside,
            Place::InString => Place::InString,
            Place::InComment if byte == b'\n' => Place::Outside,
            Place::InComment => Place::InComment,
            Place::AfterMinus if byte == b'-' => Place::InComment,
            Place::Outside | Place::AfterMinus => Place::begun_by(byte),
        }
    }

    /// The place after a byte outside strings and comments.
    fn begun_by(byte: u8) -> Place
        ensures { result ≡ begun_by byte }
    {
        match byte {
            b'-' => Place::AfterMinus,
            b'\'' => Place::InString,
            _ => Place::Outside,
        }
    }

    /// Whether a semicolon here ends the piece.
    pub(crate) fn is_outside(self) -> bool
        ensures { result ≡ is_outside self }
    {
        matches!(self, Place::Outside | Place::AfterMinus)
    }

    /// Whether a minus stands last, with which a comment may begin.
    pub(crate) fn is_after_minus(self) -> bool
        ensures { MatchBool result (self ≡ Place.AfterMinus) (self ≢ Place.AfterMinus) }
    {
        matches!(self, Place::AfterMinus)
    }

    /// Whether white space and comments up to here go on with this byte: a minus may begin a
    /// comment.
    pub(crate) fn goes_on_blank(self, byte: u8) -> bool
        ensures { result ≡ goes_on_blank self byte }
    {
        match self {
            Place::InComment => true,
            Place::InString => false,
            Place::AfterMinus => byte == b'-',
            Place::Outside => byte == b'-' || is_space(byte),
        }
    }
}

/// Space, tab, line feed and carriage return.
fn is_space(byte: u8) -> bool
    ensures { result ≡ is_space byte }
{
    matches!(byte, b' ' | b'\t' | b'\n' | b'\r')
}
