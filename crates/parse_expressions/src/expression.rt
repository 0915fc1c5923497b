//! Expressions.

ghost use Rattle.parse_terminals.specs.Readers.{kinds, Gives};
ghost use Rattle.parse_expressions.specs.ReadExpressions as expressions;
ghost use Rattle.parse_expressions.specs.Levels.{inner_at, Nests};

use crate::rules::Rules;
use ast::{
    AddOperator, Condition, Expression, Factor, MultiplyOperator, Primary, Quantifier, Query,
    SetFunction, Term,
};
use items::{Boxed, Items};
use lexer::{Symbol, Token};
use parse_terminals::{
    ParseError, add_operator, boxed, column, count_rows, many, may_quantifier, may_sign,
    multiply_operator, next_is_number, next_is_string, next_is_symbol, number, opens_query, paired,
    parenthesized, set_function, string, symbol,
};
use std::alloc::Global;

impl<
    E: Fn(Global, Option<usize>, usize, &[Token]) -> Result<(Expression, &[Token]), ParseError>,
    C: Fn(Global, Option<usize>, usize, &[Token]) -> Result<(Condition, &[Token]), ParseError>,
    Q: Fn(Global, Option<usize>, usize, &[Token]) -> Result<(Query, &[Token]), ParseError>,
> Rules<E, C, Q> {
    /// `[ALL | DISTINCT] expr`
    #[tactic(auto, unfolding(crate::specs::ReadExpressions::argument))]
    fn argument<'a>(
        &self,
        tokens: &'a [Token],
    ) -> Result<((Option<Quantifier>, Boxed<Expression>), &'a [Token]), ParseError>
        requires { Nests self.now.limit self.now.depth (E.pre self.now.expression) (E.post self.now.expression) (C.pre self.now.condition) (C.post self.now.condition) (Q.pre self.now.query) (Q.post self.now.query) }
        ensures { Gives result (expressions.argument self.now.limit (inner_at self.now.limit self.now.depth) (kinds tokens.now)) }
    {
        let (quantifier, rest) = may_quantifier(tokens);
        let argument = boxed(self.alloc, self.inner_expression(rest));
        paired(quantifier, argument)
    }

    /// What follows a set function's name.
    #[tactic(auto, unfolding(crate::specs::ReadExpressions::aggregate))]
    fn aggregate<'a>(
        &self,
        function: SetFunction,
        tokens: &'a [Token],
    ) -> Result<(Primary, &'a [Token]), ParseError>
        requires { Nests self.now.limit self.now.depth (E.pre self.now.expression) (E.post self.now.expression) (C.pre self.now.condition) (C.post self.now.condition) (Q.pre self.now.query) (Q.post self.now.query) }
        ensures { Gives result (expressions.aggregate self.now.limit (inner_at self.now.limit self.now.depth) function (kinds tokens.now)) }
    {
        let ((quantifier, argument), rest) = parenthesized(|at| self.argument(at), tokens)?;
        Ok((Primary::Aggregate(function, quantifier, argument), rest))
    }

    /// A primary that begins with a parenthesis.
    #[tactic(auto, unfolding(crate::specs::ReadExpressions::in_parentheses))]
    fn in_parentheses<'a>(&self, tokens: &'a [Token]) -> Result<(Primary, &'a [Token]), ParseError>
        requires { Nests self.now.limit self.now.depth (E.pre self.now.expression) (E.post self.now.expression) (C.pre self.now.condition) (C.post self.now.condition) (Q.pre self.now.query) (Q.post self.now.query) }
        ensures { Gives result (expressions.in_parentheses self.now.limit (inner_at self.now.limit self.now.depth) (kinds tokens.now)) }
    {
        if opens_query(tokens) {
            let (query, rest) = self.query_in_parentheses(tokens)?;
            Ok((Primary::Subquery(query), rest))
        } else {
            let inside = parenthesized(|at| self.inner_expression(at), tokens);
            let (inside, rest) = boxed(self.alloc, inside)?;
            Ok((Primary::Parenthesized(inside), rest))
        }
    }

    /// A number, a string or a column.
    #[tactic(auto, unfolding(crate::specs::ReadExpressions::constant_or_column))]
    fn constant_or_column<'a>(
        &self,
        tokens: &'a [Token],
    ) -> Result<(Primary, &'a [Token]), ParseError>
        requires { Nests self.now.limit self.now.depth (E.pre self.now.expression) (E.post self.now.expression) (C.pre self.now.condition) (C.post self.now.condition) (Q.pre self.now.query) (Q.post self.now.query) }
        ensures { Gives result (expressions.constant_or_column self.now.limit (inner_at self.now.limit self.now.depth) (kinds tokens.now)) }
    {
        if next_is_number(tokens) {
            match number(tokens) {
                Ok((value, rest)) => Ok((Primary::Number(value), rest)),
                Err(error) => Err(error),
            }
        } else if next_is_string(tokens) {
            let (text, rest) = string(self.alloc, tokens)?;
            Ok((Primary::Text(text), rest))
        } else {
            let (column, rest) = column(self.alloc, tokens)?;
            Ok((Primary::Column(column), rest))
        }
    }

    /// `primary`
    #[tactic(auto, unfolding(crate::specs::ReadExpressions::primary))]
    fn primary<'a>(&self, tokens: &'a [Token]) -> Result<(Primary, &'a [Token]), ParseError>
        requires { Nests self.now.limit self.now.depth (E.pre self.now.expression) (E.post self.now.expression) (C.pre self.now.condition) (C.post self.now.condition) (Q.pre self.now.query) (Q.post self.now.query) }
        ensures { Gives result (expressions.primary self.now.limit (inner_at self.now.limit self.now.depth) (kinds tokens.now)) }
    {
        if next_is_symbol(Symbol::LeftParenthesis, tokens) {
            return self.in_parentheses(tokens);
        }
        if let Some(rest) = count_rows(tokens) {
            return Ok((Primary::CountRows, rest));
        }
        match set_function(tokens) {
            Some((function, rest)) => self.aggregate(function, rest),
            None => self.constant_or_column(tokens),
        }
    }

    /// `factor = [+ | -] primary`
    #[tactic(auto, unfolding(crate::specs::ReadExpressions::factor))]
    fn factor<'a>(&self, tokens: &'a [Token]) -> Result<(Factor, &'a [Token]), ParseError>
        requires { Nests self.now.limit self.now.depth (E.pre self.now.expression) (E.post self.now.expression) (C.pre self.now.condition) (C.post self.now.condition) (Q.pre self.now.query) (Q.post self.now.query) }
        ensures { Gives result (expressions.factor self.now.limit (inner_at self.now.limit self.now.depth) (kinds tokens.now)) }
    {
        let (sign, rest) = may_sign(tokens);
        let (primary, rest) = self.primary(rest)?;
        Ok((Factor { sign, primary }, rest))
    }

    /// What follows an operator between factors, with it.
    #[tactic(auto, unfolding(crate::specs::ReadExpressions::multiplied))]
    fn multiplied<'a>(
        &self,
        operator: MultiplyOperator,
        tokens: &'a [Token],
    ) -> Result<((MultiplyOperator, Factor), &'a [Token]), ParseError>
        requires { Nests self.now.limit self.now.depth (E.pre self.now.expression) (E.post self.now.expression) (C.pre self.now.condition) (C.post self.now.condition) (Q.pre self.now.query) (Q.post self.now.query) }
        ensures { Gives result (expressions.multiplied self.now.limit (inner_at self.now.limit self.now.depth) operator (kinds tokens.now)) }
    {
        let (operand, rest) = self.factor(tokens)?;
        Ok(((operator, operand), rest))
    }

    /// `term = factor {(* | /) factor}`
    #[tactic(auto, unfolding(crate::specs::ReadExpressions::term))]
    fn term<'a>(&self, tokens: &'a [Token]) -> Result<(Term, &'a [Token]), ParseError>
        requires { Nests self.now.limit self.now.depth (E.pre self.now.expression) (E.post self.now.expression) (C.pre self.now.condition) (C.post self.now.condition) (Q.pre self.now.query) (Q.post self.now.query) }
        ensures { Gives result (expressions.term self.now.limit (inner_at self.now.limit self.now.depth) (kinds tokens.now)) }
    {
        let (first, rest) = self.factor(tokens)?;
        let others = many(
            self.limit,
            |at| multiply_operator(at),
            |operator, at| self.multiplied(operator, at),
            Items::new(self.alloc),
            rest,
        );
        let ((first, others), rest) = paired(first, others)?;
        Ok((Term { first, others }, rest))
    }

    /// What follows an operator between terms, with it.
    #[tactic(auto, unfolding(crate::specs::ReadExpressions::added))]
    fn added<'a>(
        &self,
        operator: AddOperator,
        tokens: &'a [Token],
    ) -> Result<((AddOperator, Term), &'a [Token]), ParseError>
        requires { Nests self.now.limit self.now.depth (E.pre self.now.expression) (E.post self.now.expression) (C.pre self.now.condition) (C.post self.now.condition) (Q.pre self.now.query) (Q.post self.now.query) }
        ensures { Gives result (expressions.added self.now.limit (inner_at self.now.limit self.now.depth) operator (kinds tokens.now)) }
    {
        let (operand, rest) = self.term(tokens)?;
        Ok(((operator, operand), rest))
    }

    /// `expr = term {(+ | - | ||) term}`: refuses tokens that begin with none, and for want of
    /// memory.
    #[tactic(auto, unfolding(crate::specs::ReadExpressions::expression))]
    pub fn expression<'a>(
        &self,
        tokens: &'a [Token],
    ) -> Result<(Expression, &'a [Token]), ParseError>
        requires { Nests self.now.limit self.now.depth (E.pre self.now.expression) (E.post self.now.expression) (C.pre self.now.condition) (C.post self.now.condition) (Q.pre self.now.query) (Q.post self.now.query) }
        ensures { Gives result (expressions.expression self.now.limit (inner_at self.now.limit self.now.depth) (kinds tokens.now)) }
    {
        let (first, rest) = self.term(tokens)?;
        let others = many(
            self.limit,
            |at| add_operator(at),
            |operator, at| self.added(operator, at),
            Items::new(self.alloc),
            rest,
        );
        let ((first, others), rest) = paired(first, others)?;
        Ok((Expression { first, others }, rest))
    }
}
