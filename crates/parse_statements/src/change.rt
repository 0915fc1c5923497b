//! INSERT, UPDATE and DELETE.

ghost use Rattle.std.specs.Prelude.{◌≡◌};
ghost use Rattle.parse_terminals.specs.Readers.{kinds, Finds, Gives};
ghost use Rattle.parse_terminals.specs.Readers as read;
ghost use Rattle.parse_statements.specs.ReadStatements as statements;
ghost use Rattle.parse_expressions.specs.Levels.{inner_at};

use crate::statement::Statements;
use ast::{Assignment, Condition, Delete, Insert, InsertRows, Statement, StoredSource, Update};
use items::{Boxed, Items};
use lexer::{Name, Symbol, Token, Word};
use parse_terminals::{
    ParseError, after_word, listed, name, names, next_is_name, next_is_symbol, paired,
    parenthesized, symbol, word,
};

/// Whether names in parentheses come next.
fn opens_names(tokens: &[Token]) -> bool
    ensures { result ≡ statements.opens_names (kinds tokens.now) }
{
    match tokens {
        [_, rest @ ..] => next_is_symbol(Symbol::LeftParenthesis, tokens) && next_is_name(rest),
        [] => false,
    }
}

impl Statements {
    /// `source = expr | NULL`
    #[tactic(auto, unfolding(crate::specs::ReadStatements::stored_source))]
    fn stored_source<'a>(
        &self,
        tokens: &'a [Token],
    ) -> Result<(StoredSource, &'a [Token]), ParseError>
        ensures { Gives result (statements.stored_source (inner_at self.now.limit self.now.depth) (kinds tokens.now)) }
    {
        if let Some(rest) = after_word(Word::Null, tokens) {
            return Ok((StoredSource::Null, rest));
        }
        let (value, rest) = self.expression(tokens)?;
        Ok((StoredSource::Value(value), rest))
    }

    /// `source {, source}`
    #[tactic(auto, unfolding(crate::specs::ReadStatements::stored_sources))]
    fn stored_sources<'a>(
        &self,
        tokens: &'a [Token],
    ) -> Result<(Items<StoredSource>, &'a [Token]), ParseError>
        ensures { Gives result (statements.stored_sources (inner_at self.now.limit self.now.depth) (kinds tokens.now)) }
    {
        listed(self.alloc, |at| self.stored_source(at), tokens)
    }

    /// `row = ( source {, source} )`
    #[tactic(auto, unfolding(crate::specs::ReadStatements::row_of_sources))]
    fn row<'a>(&self, tokens: &'a [Token]) -> Result<(Items<StoredSource>, &'a [Token]), ParseError>
        ensures { Gives result (statements.row_of_sources (inner_at self.now.limit self.now.depth) (kinds tokens.now)) }
    {
        parenthesized(|at| self.stored_sources(at), tokens)
    }

    /// `VALUES row {, row} | query`
    #[tactic(auto, unfolding(crate::specs::ReadStatements::insert_rows))]
    fn insert_rows<'a>(&self, tokens: &'a [Token]) -> Result<(InsertRows, &'a [Token]), ParseError>
        ensures { Gives result (statements.insert_rows (inner_at self.now.limit self.now.depth) (kinds tokens.now)) }
    {
        if let Some(rest) = after_word(Word::Values, tokens) {
            let (rows, rest) = listed(self.alloc, |at| self.row(at), rest)?;
            return Ok((InsertRows::Values(rows), rest));
        }
        let (query, rest) = self.query(tokens)?;
        Ok((InsertRows::Query(query), rest))
    }

    /// `[( names )]`
    #[tactic(auto, unfolding(crate::specs::ReadStatements::insert_columns))]
    fn insert_columns<'a>(
        &self,
        tokens: &'a [Token],
    ) -> Result<(Items<Name>, &'a [Token]), ParseError>
        ensures { Gives result (statements.insert_columns (kinds tokens.now)) }
    {
        if opens_names(tokens) {
            parenthesized(|at| names(self.alloc, at), tokens)
        } else {
            Ok((Items::new(self.alloc), tokens))
        }
    }

    /// What follows INSERT.
    #[tactic(auto, unfolding(crate::specs::ReadStatements::insert))]
    pub fn insert<'a>(&self, tokens: &'a [Token]) -> Result<(Statement, &'a [Token]), ParseError>
        ensures { Gives result (statements.insert (inner_at self.now.limit self.now.depth) (kinds tokens.now)) }
    {
        let rest = word(Word::Into, tokens)?;
        let (table, rest) = name(self.alloc, rest)?;
        let (columns, rest) = self.insert_columns(rest)?;
        let (rows, rest) = self.insert_rows(rest)?;
        let statement = Insert {
            table,
            columns,
            rows,
        };
        Ok((Statement::Insert(Boxed::new(self.alloc, statement)?), rest))
    }

    /// `name = source`
    #[tactic(auto, unfolding(crate::specs::ReadStatements::assignment))]
    fn assignment<'a>(&self, tokens: &'a [Token]) -> Result<(Assignment, &'a [Token]), ParseError>
        ensures { Gives result (statements.assignment (inner_at self.now.limit self.now.depth) (kinds tokens.now)) }
    {
        let (column, rest) = name(self.alloc, tokens)?;
        let rest = symbol(Symbol::Equal, rest)?;
        let (source, rest) = self.stored_source(rest)?;
        Ok((Assignment { column, source }, rest))
    }

    /// `SET name = source {, name = source} [WHERE cond]`
    #[tactic(auto, unfolding(crate::specs::ReadStatements::assigned))]
    fn assigned<'a>(
        &self,
        tokens: &'a [Token],
    ) -> Result<((Items<Assignment>, Option<Condition>), &'a [Token]), ParseError>
        ensures { Gives result (statements.assigned (inner_at self.now.limit self.now.depth) (kinds tokens.now)) }
    {
        let rest = word(Word::Set, tokens)?;
        let (assignments, rest) = listed(self.alloc, |at| self.assignment(at), rest)?;
        paired(assignments, self.filter(rest))
    }

    /// What follows UPDATE.
    #[tactic(auto, unfolding(crate::specs::ReadStatements::update))]
    pub fn update<'a>(&self, tokens: &'a [Token]) -> Result<(Statement, &'a [Token]), ParseError>
        ensures { Gives result (statements.update (inner_at self.now.limit self.now.depth) (kinds tokens.now)) }
    {
        let (table, rest) = name(self.alloc, tokens)?;
        let ((assignments, filter), rest) = self.assigned(rest)?;
        let statement = Update {
            table,
            assignments,
            filter,
        };
        Ok((Statement::Update(Boxed::new(self.alloc, statement)?), rest))
    }

    /// What follows DELETE.
    #[tactic(auto, unfolding(crate::specs::ReadStatements::delete))]
    pub fn delete<'a>(&self, tokens: &'a [Token]) -> Result<(Statement, &'a [Token]), ParseError>
        ensures { Gives result (statements.delete (inner_at self.now.limit self.now.depth) (kinds tokens.now)) }
    {
        let rest = word(Word::From, tokens)?;
        let (table, rest) = name(self.alloc, rest)?;
        let (filter, rest) = self.filter(rest)?;
        let statement = Delete { table, filter };
        Ok((Statement::Delete(Boxed::new(self.alloc, statement)?), rest))
    }
}
