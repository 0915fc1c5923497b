//! The parts that hold no tree.

ghost use Rattle.std.specs.Prelude.{◌≡◌, ◌∷◌, [], OnOk};
ghost use Rattle.ast.specs.Words.{ASTERISK, COUNT, LEFT_PARENTHESIS, PERIOD, RIGHT_PARENTHESIS};
ghost use Rattle.typing.specs.Printed.{groups_tokens};
ghost use Rattle.typing.specs.Tokens.{add_tokens, comparison_tokens, function_tokens, maybe, multiply_tokens, quantifier_tokens, sign_tokens, truth_tokens};
ghost use Rattle.condition_printer.specs.Trees.{Puts};

use crate::writer::{Part, Writer};
use ast::{
    AddOperator, Alias, Column, Comparison, Literal, MultiplyOperator, Quantifier, SetFunction,
    SetOperator, Sign, TruthTest, TruthValue,
};
use lexer::{Kind, Name, Symbol, Word};
use std::alloc::AllocError;

/// The symbol of an operator between terms.
pub fn add_symbol(operator: AddOperator) -> Symbol
    ensures { add_tokens operator ≡ Kind.Symbol result ∷ [] }
{
    match operator {
        AddOperator::Plus => Symbol::Plus,
        AddOperator::Minus => Symbol::Minus,
        AddOperator::Concatenate => Symbol::Concatenation,
    }
}

/// The symbol of an operator between factors.
pub fn multiply_symbol(operator: MultiplyOperator) -> Symbol
    ensures { multiply_tokens operator ≡ Kind.Symbol result ∷ [] }
{
    match operator {
        MultiplyOperator::Times => Symbol::Asterisk,
        MultiplyOperator::Divide => Symbol::Solidus,
    }
}

/// The symbol of a comparison.
pub fn comparison_symbol(comparison: Comparison) -> Symbol
    ensures { comparison_tokens comparison ≡ Kind.Symbol result ∷ [] }
{
    match comparison {
        Comparison::Equal => Symbol::Equal,
        Comparison::NotEqual => Symbol::NotEqual,
        Comparison::Less => Symbol::Less,
        Comparison::Greater => Symbol::Greater,
        Comparison::LessOrEqual => Symbol::LessOrEqual,
        Comparison::GreaterOrEqual => Symbol::GreaterOrEqual,
    }
}

/// The word of a set function.
pub fn set_function_word(function: SetFunction) -> Word
    ensures { function_tokens function ≡ Kind.Word result ∷ [] }
{
    match function {
        SetFunction::Count => Word::Count,
        SetFunction::Sum => Word::Sum,
        SetFunction::Avg => Word::Avg,
        SetFunction::Min => Word::Min,
        SetFunction::Max => Word::Max,
    }
}

fn sign_symbol(sign: Sign) -> Symbol
    ensures { sign_tokens sign ≡ Kind.Symbol result ∷ [] }
{
    match sign {
        Sign::Plus => Symbol::Plus,
        Sign::Minus => Symbol::Minus,
    }
}

fn quantifier_word(quantifier: Quantifier) -> Word
    ensures { quantifier_tokens quantifier ≡ Kind.Word result ∷ [] }
{
    match quantifier {
        Quantifier::All => Word::All,
        Quantifier::Distinct => Word::Distinct,
    }
}

fn truth_word(value: TruthValue) -> Word
    ensures { truth_tokens value ≡ Kind.Word result ∷ [] }
{
    match value {
        TruthValue::True => Word::True,
        TruthValue::False => Word::False,
        TruthValue::Unknown => Word::Unknown,
    }
}

impl Part for Sign {
    ghost use Rattle.typing.specs.Tokens.{sign_tokens};

    ghost tokens = { sign_tokens };

    fn write(&self, writer: &mut Writer) -> Result<(), AllocError> {
        writer.symbol(sign_symbol(*self))
    }
}

impl Part for Quantifier {
    ghost use Rattle.typing.specs.Tokens.{quantifier_tokens};

    ghost tokens = { quantifier_tokens };

    fn write(&self, writer: &mut Writer) -> Result<(), AllocError> {
        writer.word(quantifier_word(*self))
    }
}

impl Part for SetOperator {
    ghost use Rattle.typing.specs.Tokens.{set_tokens};

    ghost tokens = { set_tokens };

    fn write(&self, writer: &mut Writer) -> Result<(), AllocError> {
        match self {
            SetOperator::Union => writer.word(Word::Union),
            SetOperator::UnionAll => {
                writer.word(Word::Union)?;
                writer.word(Word::All)
            }
            SetOperator::Except => writer.word(Word::Except),
            SetOperator::ExceptAll => {
                writer.word(Word::Except)?;
                writer.word(Word::All)
            }
        }
    }
}

impl Part for TruthTest {
    ghost use Rattle.typing.specs.Tokens.{test_tokens};

    ghost tokens = { test_tokens };

    fn write(&self, writer: &mut Writer) -> Result<(), AllocError> {
        writer.word(Word::Is)?;
        writer.word_if(self.is_negated, Word::Not)?;
        writer.word(truth_word(self.value))
    }
}

impl Part for Literal {
    ghost use Rattle.typing.specs.Tokens.{literal_tokens};

    ghost tokens = { literal_tokens };

    fn write(&self, writer: &mut Writer) -> Result<(), AllocError> {
        match self {
            Literal::Number(sign, number) => {
                writer.maybe(sign)?;
                writer.number(*number)
            }
            Literal::Text(text) => writer.text(text),
        }
    }
}

impl Part for Column {
    ghost use Rattle.typing.specs.Tokens.{column_tokens};

    ghost tokens = { column_tokens };

    fn write(&self, writer: &mut Writer) -> Result<(), AllocError> {
        writer.qualifier(&self.table)?;
        writer.name(&self.name)
    }
}

impl Part for Alias {
    ghost use Rattle.typing.specs.Tokens.{alias_tokens};

    ghost tokens = { alias_tokens };

    fn write(&self, writer: &mut Writer) -> Result<(), AllocError> {
        writer.word_if(self.has_as, Word::As)?;
        writer.name(&self.name)
    }
}

impl Writer {
    /// Writes the table's name and a period, or nothing.
    fn qualifier(&mut self, table: &Option<Name>) -> Result<(), AllocError>
        ensures { OnOk result (Puts (maybe (λ name. Kind.Name name ∷ PERIOD ∷ []) table.now) self.old self.new) }
    {
        match table {
            None => Ok(()),
            Some(name) => {
                self.name(name)?;
                self.symbol(Symbol::Period)
            }
        }
    }

    /// Writes `COUNT ( * )`.
    pub fn count_rows(&mut self) -> Result<(), AllocError>
        ensures { OnOk result (Puts (COUNT ∷ LEFT_PARENTHESIS ∷ ASTERISK ∷ RIGHT_PARENTHESIS ∷ []) self.old self.new) }
    {
        self.word(Word::Count)?;
        self.symbol(Symbol::LeftParenthesis)?;
        self.symbol(Symbol::Asterisk)?;
        self.symbol(Symbol::RightParenthesis)
    }

    /// Writes the columns after GROUP BY, or nothing where there are none.
    pub fn groups(&mut self, columns: &[Column]) -> Result<(), AllocError>
        ensures { OnOk result (Puts (groups_tokens columns.now) self.old self.new) }
    {
        if columns.is_empty() {
            return Ok(());
        }
        self.word(Word::Group)?;
        self.word(Word::By)?;
        self.list(columns)
    }
}
