//! Conditions.

ghost use Rattle.parse_terminals.specs.Readers.{kinds, Finds, Gives};
ghost use Rattle.parse_terminals.specs.Readers as read;
ghost use Rattle.parse_terminals.specs.ReadTerminals as terminals;
ghost use Rattle.parse_expressions.specs.ReadExpressions as expressions;
ghost use Rattle.lexer.specs.declared.words.Word.TheVariants as w;
ghost use Rattle.parse_expressions.specs.Levels.{inner_at, Nests};

use crate::rules::Rules;
use ast::{
    Comparison, Condition, Conjunction, Expression, Literal, Negation, Predicate, Query, Test,
};
use items::Items;
use lexer::{Token, Word};
use parse_terminals::{
    ParseError, after_word, boxed, comparison, eat_word, listed, literal, many, opens_condition,
    opens_subquery, paired, parenthesized, truth_test, word,
};
use std::alloc::Global;

/// `[NOT] NULL`
#[tactic(auto, unfolding(parse_terminals::specs::Readers::word))]
fn null_test(tokens: &[Token]) -> Result<(bool, &[Token]), ParseError>
    ensures { Gives result (read.before (read.written w.Not) (read.word w.Null) (kinds tokens.now)) }
{
    let (is_negated, rest) = eat_word(Word::Not, tokens);
    let rest = word(Word::Null, rest)?;
    Ok((is_negated, rest))
}

/// What follows AND, if it comes next.
fn and(tokens: &[Token]) -> Option<((), &[Token])>
    ensures { Finds result (read.word w.And (kinds tokens.now)) }
{
    after_word(Word::And, tokens).map(|rest| ((), rest))
}

/// What follows OR, if it comes next.
fn or(tokens: &[Token]) -> Option<((), &[Token])>
    ensures { Finds result (read.word w.Or (kinds tokens.now)) }
{
    after_word(Word::Or, tokens).map(|rest| ((), rest))
}

impl<
    E: Fn(Global, Option<usize>, usize, &[Token]) -> Result<(Expression, &[Token]), ParseError>,
    C: Fn(Global, Option<usize>, usize, &[Token]) -> Result<(Condition, &[Token]), ParseError>,
    Q: Fn(Global, Option<usize>, usize, &[Token]) -> Result<(Query, &[Token]), ParseError>,
> Rules<E, C, Q> {
    /// What follows a comparison's operator.
    #[tactic(auto, unfolding(crate::specs::ReadExpressions::compare))]
    fn compare<'a>(
        &self,
        left: Expression,
        operator: Comparison,
        tokens: &'a [Token],
    ) -> Result<(Predicate, &'a [Token]), ParseError>
        requires { Nests self.now.limit self.now.depth (E.pre self.now.expression) (E.post self.now.expression) (C.pre self.now.condition) (C.post self.now.condition) (Q.pre self.now.query) (Q.post self.now.query) }
        ensures { Gives result (expressions.compare self.now.limit (inner_at self.now.limit self.now.depth) left operator (kinds tokens.now)) }
    {
        let ((left, right), rest) = paired(left, self.expression(tokens))?;
        Ok((Predicate::Compare(left, operator, right), rest))
    }

    /// What follows IS after an expression.
    #[tactic(auto, unfolding(crate::specs::ReadExpressions::is_null))]
    fn is_null<'a>(
        &self,
        left: Expression,
        tokens: &'a [Token],
    ) -> Result<(Predicate, &'a [Token]), ParseError>
        requires { Nests self.now.limit self.now.depth (E.pre self.now.expression) (E.post self.now.expression) (C.pre self.now.condition) (C.post self.now.condition) (Q.pre self.now.query) (Q.post self.now.query) }
        ensures { Gives result (expressions.is_null self.now.limit (inner_at self.now.limit self.now.depth) left (kinds tokens.now)) }
    {
        let ((left, is_negated), rest) = paired(left, null_test(tokens))?;
        Ok((Predicate::IsNull(left, is_negated), rest))
    }

    /// `AND expr`
    #[tactic(auto, unfolding(parse_terminals::specs::Readers::word))]
    fn upper_bound<'a>(&self, tokens: &'a [Token]) -> Result<(Expression, &'a [Token]), ParseError>
        requires { Nests self.now.limit self.now.depth (E.pre self.now.expression) (E.post self.now.expression) (C.pre self.now.condition) (C.post self.now.condition) (Q.pre self.now.query) (Q.post self.now.query) }
        ensures { Gives result (read.after (read.word w.And) (expressions.expression self.now.limit (inner_at self.now.limit self.now.depth)) (kinds tokens.now)) }
    {
        let rest = word(Word::And, tokens)?;
        self.expression(rest)
    }

    /// `expr AND expr`
    fn bounds<'a>(
        &self,
        tokens: &'a [Token],
    ) -> Result<((Expression, Expression), &'a [Token]), ParseError>
        requires { Nests self.now.limit self.now.depth (E.pre self.now.expression) (E.post self.now.expression) (C.pre self.now.condition) (C.post self.now.condition) (Q.pre self.now.query) (Q.post self.now.query) }
        ensures { Gives result (read.both (expressions.expression self.now.limit (inner_at self.now.limit self.now.depth)) (read.after (read.word w.And) (expressions.expression self.now.limit (inner_at self.now.limit self.now.depth))) (kinds tokens.now)) }
    {
        let (low, rest) = self.expression(tokens)?;
        paired(low, self.upper_bound(rest))
    }

    /// What follows BETWEEN.
    #[tactic(auto, unfolding(crate::specs::ReadExpressions::between))]
    fn between<'a>(
        &self,
        left: Expression,
        is_negated: bool,
        tokens: &'a [Token],
    ) -> Result<(Predicate, &'a [Token]), ParseError>
        requires { Nests self.now.limit self.now.depth (E.pre self.now.expression) (E.post self.now.expression) (C.pre self.now.condition) (C.post self.now.condition) (Q.pre self.now.query) (Q.post self.now.query) }
        ensures { Gives result (expressions.between self.now.limit (inner_at self.now.limit self.now.depth) left is_negated (kinds tokens.now)) }
    {
        let ((left, (low, high)), rest) = paired(left, self.bounds(tokens))?;
        Ok((Predicate::Between(left, is_negated, low, high), rest))
    }

    /// `literal {, literal}`
    fn literals<'a>(&self, tokens: &'a [Token]) -> Result<(Items<Literal>, &'a [Token]), ParseError>
        ensures { Gives result (read.listed terminals.literal (kinds tokens.now)) }
    {
        listed(self.alloc, |at| literal(self.alloc, at), tokens)
    }

    /// What follows IN.
    #[tactic(auto, unfolding(crate::specs::ReadExpressions::is_in))]
    fn is_in<'a>(
        &self,
        left: Expression,
        is_negated: bool,
        tokens: &'a [Token],
    ) -> Result<(Predicate, &'a [Token]), ParseError>
        requires { Nests self.now.limit self.now.depth (E.pre self.now.expression) (E.post self.now.expression) (C.pre self.now.condition) (C.post self.now.condition) (Q.pre self.now.query) (Q.post self.now.query) }
        ensures { Gives result (expressions.is_in self.now.limit (inner_at self.now.limit self.now.depth) left is_negated (kinds tokens.now)) }
    {
        if opens_subquery(tokens) {
            let ((left, query), rest) = paired(left, self.query_in_parentheses(tokens))?;
            Ok((Predicate::InQuery(left, is_negated, query), rest))
        } else {
            let list = parenthesized(|at| self.literals(at), tokens);
            let ((left, list), rest) = paired(left, list)?;
            Ok((Predicate::InList(left, is_negated, list), rest))
        }
    }

    /// `LIKE expr`
    #[tactic(auto, unfolding(parse_terminals::specs::Readers::word))]
    fn pattern<'a>(&self, tokens: &'a [Token]) -> Result<(Expression, &'a [Token]), ParseError>
        requires { Nests self.now.limit self.now.depth (E.pre self.now.expression) (E.post self.now.expression) (C.pre self.now.condition) (C.post self.now.condition) (Q.pre self.now.query) (Q.post self.now.query) }
        ensures { Gives result (read.after (read.word w.Like) (expressions.expression self.now.limit (inner_at self.now.limit self.now.depth)) (kinds tokens.now)) }
    {
        let rest = word(Word::Like, tokens)?;
        self.expression(rest)
    }

    /// LIKE and what follows it.
    #[tactic(auto, unfolding(crate::specs::ReadExpressions::like))]
    fn like<'a>(
        &self,
        left: Expression,
        is_negated: bool,
        tokens: &'a [Token],
    ) -> Result<(Predicate, &'a [Token]), ParseError>
        requires { Nests self.now.limit self.now.depth (E.pre self.now.expression) (E.post self.now.expression) (C.pre self.now.condition) (C.post self.now.condition) (Q.pre self.now.query) (Q.post self.now.query) }
        ensures { Gives result (expressions.like self.now.limit (inner_at self.now.limit self.now.depth) left is_negated (kinds tokens.now)) }
    {
        let ((left, pattern), rest) = paired(left, self.pattern(tokens))?;
        Ok((Predicate::Like(left, is_negated, pattern), rest))
    }

    /// BETWEEN, IN or LIKE, and what follows it.
    #[tactic(auto, unfolding(crate::specs::ReadExpressions::range_list_or_pattern))]
    fn range_list_or_pattern<'a>(
        &self,
        left: Expression,
        is_negated: bool,
        tokens: &'a [Token],
    ) -> Result<(Predicate, &'a [Token]), ParseError>
        requires { Nests self.now.limit self.now.depth (E.pre self.now.expression) (E.post self.now.expression) (C.pre self.now.condition) (C.post self.now.condition) (Q.pre self.now.query) (Q.post self.now.query) }
        ensures { Gives result (expressions.range_list_or_pattern self.now.limit (inner_at self.now.limit self.now.depth) left is_negated (kinds tokens.now)) }
    {
        if let Some(rest) = after_word(Word::Between, tokens) {
            return self.between(left, is_negated, rest);
        }
        match after_word(Word::In, tokens) {
            Some(rest) => self.is_in(left, is_negated, rest),
            None => self.like(left, is_negated, tokens),
        }
    }

    /// What follows a predicate's first operand.
    #[tactic(auto, unfolding(crate::specs::ReadExpressions::after_operand))]
    fn after_operand<'a>(
        &self,
        left: Expression,
        tokens: &'a [Token],
    ) -> Result<(Predicate, &'a [Token]), ParseError>
        requires { Nests self.now.limit self.now.depth (E.pre self.now.expression) (E.post self.now.expression) (C.pre self.now.condition) (C.post self.now.condition) (Q.pre self.now.query) (Q.post self.now.query) }
        ensures { Gives result (expressions.after_operand self.now.limit (inner_at self.now.limit self.now.depth) left (kinds tokens.now)) }
    {
        if let Some((operator, rest)) = comparison(tokens) {
            return self.compare(left, operator, rest);
        }
        if let Some(rest) = after_word(Word::Is, tokens) {
            return self.is_null(left, rest);
        }
        let (is_negated, rest) = eat_word(Word::Not, tokens);
        self.range_list_or_pattern(left, is_negated, rest)
    }

    /// What follows EXISTS.
    #[tactic(auto, unfolding(crate::specs::ReadExpressions::exists))]
    fn exists<'a>(&self, tokens: &'a [Token]) -> Result<(Predicate, &'a [Token]), ParseError>
        requires { Nests self.now.limit self.now.depth (E.pre self.now.expression) (E.post self.now.expression) (C.pre self.now.condition) (C.post self.now.condition) (Q.pre self.now.query) (Q.post self.now.query) }
        ensures { Gives result (expressions.exists self.now.limit (inner_at self.now.limit self.now.depth) (kinds tokens.now)) }
    {
        let (query, rest) = self.query_in_parentheses(tokens)?;
        Ok((Predicate::Exists(query), rest))
    }

    /// `( cond )`
    #[tactic(auto, unfolding(crate::specs::ReadExpressions::nested))]
    fn nested<'a>(&self, tokens: &'a [Token]) -> Result<(Predicate, &'a [Token]), ParseError>
        requires { Nests self.now.limit self.now.depth (E.pre self.now.expression) (E.post self.now.expression) (C.pre self.now.condition) (C.post self.now.condition) (Q.pre self.now.query) (Q.post self.now.query) }
        ensures { Gives result (expressions.nested self.now.limit (inner_at self.now.limit self.now.depth) (kinds tokens.now)) }
    {
        let inside = parenthesized(|at| self.inner_condition(at), tokens);
        let (inside, rest) = boxed(self.alloc, inside)?;
        Ok((Predicate::Nested(inside), rest))
    }

    /// `( cond ) | predicate`
    #[tactic(auto, unfolding(crate::specs::ReadExpressions::predicate))]
    fn predicate<'a>(&self, tokens: &'a [Token]) -> Result<(Predicate, &'a [Token]), ParseError>
        requires { Nests self.now.limit self.now.depth (E.pre self.now.expression) (E.post self.now.expression) (C.pre self.now.condition) (C.post self.now.condition) (Q.pre self.now.query) (Q.post self.now.query) }
        ensures { Gives result (expressions.predicate self.now.limit (inner_at self.now.limit self.now.depth) (kinds tokens.now)) }
    {
        if opens_condition(tokens) {
            return self.nested(tokens);
        }
        if let Some(rest) = after_word(Word::Exists, tokens) {
            return self.exists(rest);
        }
        let (left, rest) = self.expression(tokens)?;
        self.after_operand(left, rest)
    }

    /// `test = ( ( cond ) | predicate ) [IS [NOT] (TRUE | FALSE | UNKNOWN)]`
    #[tactic(auto, unfolding(crate::specs::ReadExpressions::test_))]
    fn test<'a>(&self, tokens: &'a [Token]) -> Result<(Test, &'a [Token]), ParseError>
        requires { Nests self.now.limit self.now.depth (E.pre self.now.expression) (E.post self.now.expression) (C.pre self.now.condition) (C.post self.now.condition) (Q.pre self.now.query) (Q.post self.now.query) }
        ensures { Gives result (expressions.test_ self.now.limit (inner_at self.now.limit self.now.depth) (kinds tokens.now)) }
    {
        let (predicate, rest) = self.predicate(tokens)?;
        let ((predicate, truth), rest) = paired(predicate, truth_test(rest))?;
        Ok((Test { predicate, truth }, rest))
    }

    /// `neg = [NOT] test`
    #[tactic(auto, unfolding(crate::specs::ReadExpressions::negation))]
    fn negation<'a>(&self, tokens: &'a [Token]) -> Result<(Negation, &'a [Token]), ParseError>
        requires { Nests self.now.limit self.now.depth (E.pre self.now.expression) (E.post self.now.expression) (C.pre self.now.condition) (C.post self.now.condition) (Q.pre self.now.query) (Q.post self.now.query) }
        ensures { Gives result (expressions.negation self.now.limit (inner_at self.now.limit self.now.depth) (kinds tokens.now)) }
    {
        let (is_negated, rest) = eat_word(Word::Not, tokens);
        let (test, rest) = self.test(rest)?;
        Ok((Negation { is_negated, test }, rest))
    }

    /// `conj = neg {AND neg}`
    #[tactic(auto, unfolding(crate::specs::ReadExpressions::conjunction))]
    fn conjunction<'a>(&self, tokens: &'a [Token]) -> Result<(Conjunction, &'a [Token]), ParseError>
        requires { Nests self.now.limit self.now.depth (E.pre self.now.expression) (E.post self.now.expression) (C.pre self.now.condition) (C.post self.now.condition) (Q.pre self.now.query) (Q.post self.now.query) }
        ensures { Gives result (expressions.conjunction self.now.limit (inner_at self.now.limit self.now.depth) (kinds tokens.now)) }
    {
        let (first, rest) = self.negation(tokens)?;
        let found = Items::new(self.alloc);
        let others = many(self.limit, and, |_, at| self.negation(at), found, rest);
        let ((first, others), rest) = paired(first, others)?;
        Ok((Conjunction { first, others }, rest))
    }

    /// `cond = conj {OR conj}`: refuses tokens that begin with none, and for want of memory.
    #[tactic(auto, unfolding(crate::specs::ReadExpressions::condition))]
    pub fn condition<'a>(&self, tokens: &'a [Token]) -> Result<(Condition, &'a [Token]), ParseError>
        requires { Nests self.now.limit self.now.depth (E.pre self.now.expression) (E.post self.now.expression) (C.pre self.now.condition) (C.post self.now.condition) (Q.pre self.now.query) (Q.post self.now.query) }
        ensures { Gives result (expressions.condition self.now.limit (inner_at self.now.limit self.now.depth) (kinds tokens.now)) }
    {
        let (first, rest) = self.conjunction(tokens)?;
        let found = Items::new(self.alloc);
        let others = many(self.limit, or, |_, at| self.conjunction(at), found, rest);
        let ((first, others), rest) = paired(first, others)?;
        Ok((Condition { first, others }, rest))
    }
}
