//! Which bytes are the codes of a character string.

ghost use Rattle.std.specs.Prelude.{◌≡◌};
ghost use Rattle.items.specs.Text.{is_character, is_text};

use items::Text;

fn is_character_of(code: u8) -> bool
    ensures { result ≡ is_character code }
{
    0x20 <= code && code <= 0x7E
}

/// Whether these are the codes of a character string.
pub(crate) fn is_text_of(codes: &[u8]) -> bool
    ensures { result ≡ is_text codes.now }
{
    if Text::MAXIMUM_LENGTH < codes.len() {
        return false;
    }
    for code in codes {
        if !is_character_of(*code) {
            return false;
        }
    }
    true
}
