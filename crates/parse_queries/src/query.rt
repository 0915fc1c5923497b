//! Queries.

ghost use Rattle.std.specs.Prelude.{◌≡◌};
ghost use Rattle.ast.specs.Queries.{is_grouped, is_lone};
ghost use Rattle.parse_terminals.specs.Readers.{kinds, Gives};
ghost use Rattle.parse_terminals.specs.Readers as read;
ghost use Rattle.ast.specs.declared.tree.Addend.{out-Addend};
ghost use Rattle.parse_expressions.specs.ReadExpressions.{condition};
ghost use Rattle.parse_expressions.specs.ReadQueries as queries;
ghost use Rattle.parse_expressions.specs.Levels.{inner_at, Nests};

use ast::{
    Addend, Column, Condition, Expression, Operand, Query, Select, SelectItem, SetOperator,
    TableReference,
};
use items::{Boxed, Items};
use lexer::{Symbol, Token, Word};
use parse_expressions::{Clauses, Rules};
use parse_terminals::{
    ParseError, after_word, boxed, column, intersect, listed, many, may_quantifier, next_is_symbol,
    paired, set_operator, word,
};
use std::alloc::Global;

fn is_grouped(operand: &Operand) -> bool
    ensures { result ≡ is_grouped operand.now }
{
    match operand {
        Operand::Select(_) => false,
        Operand::Grouped(_) => true,
    }
}

/// Whether these are one query in parentheses and nothing more.
fn is_lone(first: &Addend, others: &Items<(SetOperator, Addend)>) -> bool
    ensures { result ≡ is_lone (out-Addend first.now).first (out-Addend first.now).others others.now }
{
    others.is_empty() && first.others.is_empty() && is_grouped(&first.first)
}

/// The rules of queries, over those of expressions and conditions.
#[derive(Clone, Copy)]
pub struct Queries<E, C, Q> {
    pub rules: Rules<E, C, Q>,
}

impl<
    E: Fn(Global, Option<usize>, usize, &[Token]) -> Result<(Expression, &[Token]), ParseError>,
    C: Fn(Global, Option<usize>, usize, &[Token]) -> Result<(Condition, &[Token]), ParseError>,
    Q: Fn(Global, Option<usize>, usize, &[Token]) -> Result<(Query, &[Token]), ParseError>,
> Queries<E, C, Q> {
    /// A condition, where `before` comes next.
    fn condition_after<'a>(
        &self,
        before: Word,
        tokens: &'a [Token],
    ) -> Result<(Option<Boxed<Condition>>, &'a [Token]), ParseError>
        requires { Nests self.now.rules.limit self.now.rules.depth (E.pre self.now.rules.expression) (E.post self.now.rules.expression) (C.pre self.now.rules.condition) (C.post self.now.rules.condition) (Q.pre self.now.rules.query) (Q.post self.now.rules.query) }
        ensures { Gives result (read.maybe (read.word before) (λ _. condition self.now.rules.limit (inner_at self.now.rules.limit self.now.rules.depth)) (kinds tokens.now)) }
    {
        match after_word(before, tokens) {
            None => Ok((None, tokens)),
            Some(rest) => {
                let (condition, rest) = boxed(self.rules.alloc, self.rules.condition(rest))?;
                Ok((Some(condition), rest))
            }
        }
    }

    /// `[GROUP BY column {, column}]`
    #[tactic(auto, unfolding(parse_expressions::specs::ReadQueries::groups))]
    fn groups<'a>(&self, tokens: &'a [Token]) -> Result<(Items<Column>, &'a [Token]), ParseError>
        requires { Nests self.now.rules.limit self.now.rules.depth (E.pre self.now.rules.expression) (E.post self.now.rules.expression) (C.pre self.now.rules.condition) (C.post self.now.rules.condition) (Q.pre self.now.rules.query) (Q.post self.now.rules.query) }
        ensures { Gives result (queries.groups self.now.rules.limit (inner_at self.now.rules.limit self.now.rules.depth) (kinds tokens.now)) }
    {
        match after_word(Word::Group, tokens) {
            None => Ok((Items::new(self.rules.alloc), tokens)),
            Some(rest) => {
                let rest = word(Word::By, rest)?;
                listed(self.rules.alloc, |at| column(self.rules.alloc, at), rest)
            }
        }
    }

    /// `[WHERE cond] [GROUP BY column {, column}] [HAVING cond]`
    #[tactic(auto, unfolding(parse_expressions::specs::ReadQueries::clauses, parse_expressions::specs::ReadQueries::filter, parse_expressions::specs::ReadQueries::having))]
    fn clauses<'a>(&self, tokens: &'a [Token]) -> Result<(Clauses, &'a [Token]), ParseError>
        requires { Nests self.now.rules.limit self.now.rules.depth (E.pre self.now.rules.expression) (E.post self.now.rules.expression) (C.pre self.now.rules.condition) (C.post self.now.rules.condition) (Q.pre self.now.rules.query) (Q.post self.now.rules.query) }
        ensures { Gives result (queries.clauses self.now.rules.limit (inner_at self.now.rules.limit self.now.rules.depth) (kinds tokens.now)) }
    {
        let (filter, rest) = self.condition_after(Word::Where, tokens)?;
        let (groups, rest) = self.groups(rest)?;
        let (having, rest) = self.condition_after(Word::Having, rest)?;
        let clauses = Clauses {
            filter,
            groups,
            having,
        };
        Ok((clauses, rest))
    }

    /// What follows FROM.
    #[tactic(auto, unfolding(parse_expressions::specs::ReadQueries::tables))]
    fn tables<'a>(
        &self,
        tokens: &'a [Token],
    ) -> Result<((Items<TableReference>, Clauses), &'a [Token]), ParseError>
        requires { Nests self.now.rules.limit self.now.rules.depth (E.pre self.now.rules.expression) (E.post self.now.rules.expression) (C.pre self.now.rules.condition) (C.post self.now.rules.condition) (Q.pre self.now.rules.query) (Q.post self.now.rules.query) }
        ensures { Gives result (queries.tables self.now.rules.limit (inner_at self.now.rules.limit self.now.rules.depth) (kinds tokens.now)) }
    {
        let (from, rest) = listed(self.rules.alloc, |at| self.table_reference(at), tokens)?;
        paired(from, self.clauses(rest))
    }

    /// What follows SELECT and ALL or DISTINCT.
    #[tactic(auto, unfolding(parse_expressions::specs::ReadQueries::selected))]
    fn selected<'a>(
        &self,
        tokens: &'a [Token],
    ) -> Result<
        (
            (Option<Items<SelectItem>>, (Items<TableReference>, Clauses)),
            &'a [Token],
        ),
        ParseError,
    >
        requires { Nests self.now.rules.limit self.now.rules.depth (E.pre self.now.rules.expression) (E.post self.now.rules.expression) (C.pre self.now.rules.condition) (C.post self.now.rules.condition) (Q.pre self.now.rules.query) (Q.post self.now.rules.query) }
        ensures { Gives result (queries.selected self.now.rules.limit (inner_at self.now.rules.limit self.now.rules.depth) (kinds tokens.now)) }
    {
        let (items, rest) = self.select_items(tokens)?;
        let rest = word(Word::From, rest)?;
        let (tables, rest) = self.tables(rest)?;
        Ok(((items, tables), rest))
    }

    /// `select = SELECT [ALL | DISTINCT] ( * | item {, item} ) FROM ref {, ref}` and the clauses
    #[tactic(auto, unfolding(parse_expressions::specs::ReadQueries::select))]
    fn select<'a>(&self, tokens: &'a [Token]) -> Result<(Select, &'a [Token]), ParseError>
        requires { Nests self.now.rules.limit self.now.rules.depth (E.pre self.now.rules.expression) (E.post self.now.rules.expression) (C.pre self.now.rules.condition) (C.post self.now.rules.condition) (Q.pre self.now.rules.query) (Q.post self.now.rules.query) }
        ensures { Gives result (queries.select self.now.rules.limit (inner_at self.now.rules.limit self.now.rules.depth) (kinds tokens.now)) }
    {
        let rest = word(Word::Select, tokens)?;
        let (quantifier, rest) = may_quantifier(rest);
        let ((items, (from, clauses)), rest) = self.selected(rest)?;
        let Clauses {
            filter,
            groups,
            having,
        } = clauses;
        let select = Select {
            quantifier,
            items,
            from,
            filter,
            groups,
            having,
        };
        Ok((select, rest))
    }

    /// `operand = select | ( query )`
    #[tactic(auto, unfolding(parse_expressions::specs::ReadQueries::operand))]
    fn operand<'a>(&self, tokens: &'a [Token]) -> Result<(Operand, &'a [Token]), ParseError>
        requires { Nests self.now.rules.limit self.now.rules.depth (E.pre self.now.rules.expression) (E.post self.now.rules.expression) (C.pre self.now.rules.condition) (C.post self.now.rules.condition) (Q.pre self.now.rules.query) (Q.post self.now.rules.query) }
        ensures { Gives result (queries.operand self.now.rules.limit (inner_at self.now.rules.limit self.now.rules.depth) (kinds tokens.now)) }
    {
        if next_is_symbol(Symbol::LeftParenthesis, tokens) {
            let (query, rest) = self.rules.query_in_parentheses(tokens)?;
            Ok((Operand::Grouped(query), rest))
        } else {
            let (select, rest) = boxed(self.rules.alloc, self.select(tokens))?;
            Ok((Operand::Select(select), rest))
        }
    }

    /// What follows INTERSECT and ALL, with whether that is written.
    #[tactic(auto, unfolding(parse_expressions::specs::ReadQueries::intersected))]
    fn intersected<'a>(
        &self,
        all: bool,
        tokens: &'a [Token],
    ) -> Result<((bool, Operand), &'a [Token]), ParseError>
        requires { Nests self.now.rules.limit self.now.rules.depth (E.pre self.now.rules.expression) (E.post self.now.rules.expression) (C.pre self.now.rules.condition) (C.post self.now.rules.condition) (Q.pre self.now.rules.query) (Q.post self.now.rules.query) }
        ensures { Gives result (queries.intersected self.now.rules.limit (inner_at self.now.rules.limit self.now.rules.depth) all (kinds tokens.now)) }
    {
        let (operand, rest) = self.operand(tokens)?;
        Ok(((all, operand), rest))
    }

    /// `addend = operand {INTERSECT [ALL] operand}`
    #[tactic(auto, unfolding(parse_expressions::specs::ReadQueries::addend))]
    fn addend<'a>(&self, tokens: &'a [Token]) -> Result<(Addend, &'a [Token]), ParseError>
        requires { Nests self.now.rules.limit self.now.rules.depth (E.pre self.now.rules.expression) (E.post self.now.rules.expression) (C.pre self.now.rules.condition) (C.post self.now.rules.condition) (Q.pre self.now.rules.query) (Q.post self.now.rules.query) }
        ensures { Gives result (queries.addend self.now.rules.limit (inner_at self.now.rules.limit self.now.rules.depth) (kinds tokens.now)) }
    {
        let (first, rest) = self.operand(tokens)?;
        let found = Items::new(self.rules.alloc);
        let others = many(
            self.rules.limit,
            |at| intersect(at),
            |all, at| self.intersected(all, at),
            found,
            rest,
        );
        let ((first, others), rest) = paired(first, others)?;
        Ok((Addend { first, others }, rest))
    }

    /// What follows an operator between addends, with it.
    #[tactic(auto, unfolding(parse_expressions::specs::ReadQueries::united))]
    fn united<'a>(
        &self,
        operator: SetOperator,
        tokens: &'a [Token],
    ) -> Result<((SetOperator, Addend), &'a [Token]), ParseError>
        requires { Nests self.now.rules.limit self.now.rules.depth (E.pre self.now.rules.expression) (E.post self.now.rules.expression) (C.pre self.now.rules.condition) (C.post self.now.rules.condition) (Q.pre self.now.rules.query) (Q.post self.now.rules.query) }
        ensures { Gives result (queries.united self.now.rules.limit (inner_at self.now.rules.limit self.now.rules.depth) operator (kinds tokens.now)) }
    {
        let (operand, rest) = self.addend(tokens)?;
        Ok(((operator, operand), rest))
    }

    /// `query = select | sum`, where `sum = addend {(UNION | EXCEPT) [ALL] addend}` has a set
    /// operator in it
    #[tactic(auto, unfolding(parse_expressions::specs::ReadQueries::query))]
    pub fn query<'a>(&self, tokens: &'a [Token]) -> Result<(Query, &'a [Token]), ParseError>
        requires { Nests self.now.rules.limit self.now.rules.depth (E.pre self.now.rules.expression) (E.post self.now.rules.expression) (C.pre self.now.rules.condition) (C.post self.now.rules.condition) (Q.pre self.now.rules.query) (Q.post self.now.rules.query) }
        ensures { Gives result (queries.query self.now.rules.limit (inner_at self.now.rules.limit self.now.rules.depth) (kinds tokens.now)) }
    {
        let (first, rest) = self.addend(tokens)?;
        let found = Items::new(self.rules.alloc);
        let others = many(
            self.rules.limit,
            |at| set_operator(at),
            |operator, at| self.united(operator, at),
            found,
            rest,
        );
        let ((first, others), rest) = paired(first, others)?;
        if is_lone(&first, &others) {
            return Err(ParseError::Syntax);
        }
        Ok((Query { first, others }, rest))
    }
}
