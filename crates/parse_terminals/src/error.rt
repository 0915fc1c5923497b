use std::alloc::AllocError;

/// Why a rule has no tree.
#[derive(Drop)]
pub enum ParseError {
    /// Memory ran out.
    Memory,
    /// The tokens do not begin with what the rule says.
    Syntax,
}

impl From<AllocError> for ParseError {
    ghost use Rattle.std.specs.Prelude.{◌≡◌};
    ghost use Rattle.parse_terminals.specs.declared.error.ParseError.TheVariants.{Memory};

    ghost from_gives = { λ _ e. e ≡ Memory };

    fn from(_refused: AllocError) -> ParseError {
        ParseError::Memory
    }
}
