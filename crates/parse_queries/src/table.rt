//! The tables of a query, and what it selects.

ghost use Rattle.std.specs.Prelude.{◌≡◌};
ghost use Rattle.parse_terminals.specs.Readers.{kinds, Finds, Gives};
ghost use Rattle.parse_expressions.specs.ReadQueries as queries;
ghost use Rattle.parse_expressions.specs.Levels.{inner_at, Nests};

use crate::query::Queries;
use ast::{Condition, Expression, Join, Query, SelectItem, TableReference, TableSource};
use items::{Boxed, Items};
use lexer::{Symbol, Token, Word};
use parse_terminals::{
    ParseError, after_symbol, after_word, alias, boxed, eat_word, listed, many, may_alias, name,
    next_is_symbol, next_is_word, paired, word,
};
use std::alloc::Global;

fn begins_join(tokens: &[Token]) -> bool
    ensures { result ≡ queries.begins_join (kinds tokens.now) }
{
    next_is_word(Word::Cross, tokens)
        || next_is_word(Word::Inner, tokens)
        || next_is_word(Word::Join, tokens)
        || next_is_word(Word::Left, tokens)
}

fn join_ahead(tokens: &[Token]) -> Option<((), &[Token])>
    ensures { Finds result (queries.join_ahead (kinds tokens.now)) }
{
    if begins_join(tokens) {
        Some(((), tokens))
    } else {
        None
    }
}

impl<
    E: Fn(Global, Option<usize>, usize, &[Token]) -> Result<(Expression, &[Token]), ParseError>,
    C: Fn(Global, Option<usize>, usize, &[Token]) -> Result<(Condition, &[Token]), ParseError>,
    Q: Fn(Global, Option<usize>, usize, &[Token]) -> Result<(Query, &[Token]), ParseError>,
> Queries<E, C, Q> {
    /// `source1 = name [[AS] name] | ( query ) [AS] name`
    #[tactic(auto, unfolding(parse_expressions::specs::ReadQueries::table_source))]
    fn table_source<'a>(
        &self,
        tokens: &'a [Token],
    ) -> Result<(TableSource, &'a [Token]), ParseError>
        requires { Nests self.now.rules.limit self.now.rules.depth (E.pre self.now.rules.expression) (E.post self.now.rules.expression) (C.pre self.now.rules.condition) (C.post self.now.rules.condition) (Q.pre self.now.rules.query) (Q.post self.now.rules.query) }
        ensures { Gives result (queries.table_source self.now.rules.limit (inner_at self.now.rules.limit self.now.rules.depth) (kinds tokens.now)) }
    {
        if next_is_symbol(Symbol::LeftParenthesis, tokens) {
            let (query, rest) = self.rules.query_in_parentheses(tokens)?;
            let ((query, alias), rest) = paired(query, alias(self.rules.alloc, rest))?;
            Ok((TableSource::Derived(query, alias), rest))
        } else {
            let (table, rest) = name(self.rules.alloc, tokens)?;
            let ((table, alias), rest) = paired(table, may_alias(self.rules.alloc, rest))?;
            Ok((TableSource::Table(table, alias), rest))
        }
    }

    /// `ON cond`
    #[tactic(auto, unfolding(parse_expressions::specs::ReadQueries::on))]
    fn on<'a>(&self, tokens: &'a [Token]) -> Result<(Boxed<Condition>, &'a [Token]), ParseError>
        requires { Nests self.now.rules.limit self.now.rules.depth (E.pre self.now.rules.expression) (E.post self.now.rules.expression) (C.pre self.now.rules.condition) (C.post self.now.rules.condition) (Q.pre self.now.rules.query) (Q.post self.now.rules.query) }
        ensures { Gives result (queries.on self.now.rules.limit (inner_at self.now.rules.limit self.now.rules.depth) (kinds tokens.now)) }
    {
        let rest = word(Word::On, tokens)?;
        boxed(self.rules.alloc, self.rules.condition(rest))
    }

    /// `JOIN source1 ON cond`
    #[tactic(auto, unfolding(parse_expressions::specs::ReadQueries::joined))]
    fn joined<'a>(
        &self,
        tokens: &'a [Token],
    ) -> Result<((TableSource, Boxed<Condition>), &'a [Token]), ParseError>
        requires { Nests self.now.rules.limit self.now.rules.depth (E.pre self.now.rules.expression) (E.post self.now.rules.expression) (C.pre self.now.rules.condition) (C.post self.now.rules.condition) (Q.pre self.now.rules.query) (Q.post self.now.rules.query) }
        ensures { Gives result (queries.joined self.now.rules.limit (inner_at self.now.rules.limit self.now.rules.depth) (kinds tokens.now)) }
    {
        let rest = word(Word::Join, tokens)?;
        let (source, rest) = self.table_source(rest)?;
        paired(source, self.on(rest))
    }

    /// What follows CROSS.
    #[tactic(auto, unfolding(parse_expressions::specs::ReadQueries::crossed))]
    fn crossed<'a>(&self, tokens: &'a [Token]) -> Result<(Join, &'a [Token]), ParseError>
        requires { Nests self.now.rules.limit self.now.rules.depth (E.pre self.now.rules.expression) (E.post self.now.rules.expression) (C.pre self.now.rules.condition) (C.post self.now.rules.condition) (Q.pre self.now.rules.query) (Q.post self.now.rules.query) }
        ensures { Gives result (queries.crossed self.now.rules.limit (inner_at self.now.rules.limit self.now.rules.depth) (kinds tokens.now)) }
    {
        let rest = word(Word::Join, tokens)?;
        let (source, rest) = self.table_source(rest)?;
        Ok((Join::Cross(source), rest))
    }

    /// What follows LEFT.
    #[tactic(auto, unfolding(parse_expressions::specs::ReadQueries::left))]
    fn left<'a>(&self, tokens: &'a [Token]) -> Result<(Join, &'a [Token]), ParseError>
        requires { Nests self.now.rules.limit self.now.rules.depth (E.pre self.now.rules.expression) (E.post self.now.rules.expression) (C.pre self.now.rules.condition) (C.post self.now.rules.condition) (Q.pre self.now.rules.query) (Q.post self.now.rules.query) }
        ensures { Gives result (queries.left self.now.rules.limit (inner_at self.now.rules.limit self.now.rules.depth) (kinds tokens.now)) }
    {
        let (has_outer, rest) = eat_word(Word::Outer, tokens);
        let ((source, condition), rest) = self.joined(rest)?;
        Ok((Join::Left(has_outer, source, condition), rest))
    }

    /// `[INNER] JOIN source1 ON cond`
    #[tactic(auto, unfolding(parse_expressions::specs::ReadQueries::inner_join))]
    fn inner<'a>(&self, tokens: &'a [Token]) -> Result<(Join, &'a [Token]), ParseError>
        requires { Nests self.now.rules.limit self.now.rules.depth (E.pre self.now.rules.expression) (E.post self.now.rules.expression) (C.pre self.now.rules.condition) (C.post self.now.rules.condition) (Q.pre self.now.rules.query) (Q.post self.now.rules.query) }
        ensures { Gives result (queries.inner_join self.now.rules.limit (inner_at self.now.rules.limit self.now.rules.depth) (kinds tokens.now)) }
    {
        let (has_inner, rest) = eat_word(Word::Inner, tokens);
        let ((source, condition), rest) = self.joined(rest)?;
        Ok((Join::Inner(has_inner, source, condition), rest))
    }

    /// A table joined to those before it.
    #[tactic(auto, unfolding(parse_expressions::specs::ReadQueries::join))]
    fn join<'a>(&self, tokens: &'a [Token]) -> Result<(Join, &'a [Token]), ParseError>
        requires { Nests self.now.rules.limit self.now.rules.depth (E.pre self.now.rules.expression) (E.post self.now.rules.expression) (C.pre self.now.rules.condition) (C.post self.now.rules.condition) (Q.pre self.now.rules.query) (Q.post self.now.rules.query) }
        ensures { Gives result (queries.join self.now.rules.limit (inner_at self.now.rules.limit self.now.rules.depth) (kinds tokens.now)) }
    {
        if let Some(rest) = after_word(Word::Cross, tokens) {
            return self.crossed(rest);
        }
        match after_word(Word::Left, tokens) {
            Some(rest) => self.left(rest),
            None => self.inner(tokens),
        }
    }

    /// `ref = source1 {join}`
    #[tactic(auto, unfolding(parse_expressions::specs::ReadQueries::table_reference))]
    pub fn table_reference<'a>(
        &self,
        tokens: &'a [Token],
    ) -> Result<(TableReference, &'a [Token]), ParseError>
        requires { Nests self.now.rules.limit self.now.rules.depth (E.pre self.now.rules.expression) (E.post self.now.rules.expression) (C.pre self.now.rules.condition) (C.post self.now.rules.condition) (Q.pre self.now.rules.query) (Q.post self.now.rules.query) }
        ensures { Gives result (queries.table_reference self.now.rules.limit (inner_at self.now.rules.limit self.now.rules.depth) (kinds tokens.now)) }
    {
        let (first, rest) = self.table_source(tokens)?;
        let found = Items::new(self.rules.alloc);
        let joins = many(None, join_ahead, |_, at| self.join(at), found, rest);
        let ((first, joins), rest) = paired(first, joins)?;
        Ok((TableReference { first, joins }, rest))
    }

    /// `item = expr [[AS] name]`
    #[tactic(auto, unfolding(parse_expressions::specs::ReadQueries::select_item))]
    fn select_item<'a>(&self, tokens: &'a [Token]) -> Result<(SelectItem, &'a [Token]), ParseError>
        requires { Nests self.now.rules.limit self.now.rules.depth (E.pre self.now.rules.expression) (E.post self.now.rules.expression) (C.pre self.now.rules.condition) (C.post self.now.rules.condition) (Q.pre self.now.rules.query) (Q.post self.now.rules.query) }
        ensures { Gives result (queries.select_item self.now.rules.limit (inner_at self.now.rules.limit self.now.rules.depth) (kinds tokens.now)) }
    {
        let (value, rest) = self.rules.expression(tokens)?;
        let ((value, alias), rest) = paired(value, may_alias(self.rules.alloc, rest))?;
        Ok((SelectItem { value, alias }, rest))
    }

    /// `* | item {, item}`
    #[tactic(auto, unfolding(parse_expressions::specs::ReadQueries::select_items))]
    pub fn select_items<'a>(
        &self,
        tokens: &'a [Token],
    ) -> Result<(Option<Items<SelectItem>>, &'a [Token]), ParseError>
        requires { Nests self.now.rules.limit self.now.rules.depth (E.pre self.now.rules.expression) (E.post self.now.rules.expression) (C.pre self.now.rules.condition) (C.post self.now.rules.condition) (Q.pre self.now.rules.query) (Q.post self.now.rules.query) }
        ensures { Gives result (queries.select_items self.now.rules.limit (inner_at self.now.rules.limit self.now.rules.depth) (kinds tokens.now)) }
    {
        if let Some(rest) = after_symbol(Symbol::Asterisk, tokens) {
            return Ok((None, rest));
        }
        let (items, rest) = listed(self.rules.alloc, |at| self.select_item(at), tokens)?;
        Ok((Some(items), rest))
    }
}
