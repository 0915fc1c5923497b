//! Statements by their first words.

ghost use Rattle.std.specs.Prelude.{◌≡◌};
ghost use Rattle.parse_terminals.specs.Readers.{kinds, Finds, Gives};
ghost use Rattle.parse_terminals.specs.Readers as read;
ghost use Rattle.parse_statements.specs.ReadStatements as statements;
ghost use Rattle.parse_expressions.specs.Levels.{inner_at};

use ast::{
    AccessMode, Condition, DeclareCursor, Expression, OrderedQuery, Query, SortKey, Statement,
};
use items::{Boxed, Items};
use lexer::{Symbol, Token, Word};
use parse_queries::entry;
use parse_terminals::{
    ParseError, after_word, eat_word, is_symbol, listed, name, next_is_word, only_if, paired,
    sort_key, word,
};
use std::alloc::Global;

/// The rules of statements, over parentheses nested less than `depth` deep and chains of at most
/// `limit` operands.
#[derive(Clone, Copy)]
pub struct Statements {
    pub alloc: Global,
    pub limit: Option<usize>,
    pub depth: usize,
}

fn begins_data_change(tokens: &[Token]) -> bool
    ensures { result ≡ statements.begins_data_change (kinds tokens.now) }
{
    next_is_word(Word::Insert, tokens)
        || next_is_word(Word::Update, tokens)
        || next_is_word(Word::Delete, tokens)
}

fn begins_schema_change(tokens: &[Token]) -> bool
    ensures { result ≡ statements.begins_schema_change (kinds tokens.now) }
{
    next_is_word(Word::Create, tokens) || next_is_word(Word::Drop, tokens)
}

fn begins_transaction_control(tokens: &[Token]) -> bool
    ensures { result ≡ statements.begins_transaction_control (kinds tokens.now) }
{
    next_is_word(Word::Commit, tokens)
        || next_is_word(Word::Rollback, tokens)
        || next_is_word(Word::Set, tokens)
}

fn begins_cursor_control(tokens: &[Token]) -> bool
    ensures { result ≡ statements.begins_cursor_control (kinds tokens.now) }
{
    next_is_word(Word::Declare, tokens)
        || next_is_word(Word::Open, tokens)
        || next_is_word(Word::Fetch, tokens)
        || next_is_word(Word::Close, tokens)
}

fn is_nothing(tokens: &[Token]) -> bool
    ensures { result ≡ statements.is_nothing (kinds tokens.now) }
{
    match tokens {
        [] => true,
        [_, ..] => false,
    }
}

/// Whether nothing is left but perhaps a `;`.
fn is_end(tokens: &[Token]) -> bool
    ensures { result ≡ statements.is_end (kinds tokens.now) }
{
    match tokens {
        [] => true,
        [first, rest @ ..] => is_symbol(first, Symbol::Semicolon) && is_nothing(rest),
    }
}

impl Statements {
    /// An expression.
    pub fn expression<'a>(
        &self,
        tokens: &'a [Token],
    ) -> Result<(Expression, &'a [Token]), ParseError>
        ensures { Gives result ((inner_at self.now.limit self.now.depth).expression (kinds tokens.now)) }
    {
        entry::expression(self.alloc, self.limit, self.depth, tokens)
    }

    /// A condition.
    pub fn condition<'a>(&self, tokens: &'a [Token]) -> Result<(Condition, &'a [Token]), ParseError>
        ensures { Gives result ((inner_at self.now.limit self.now.depth).condition (kinds tokens.now)) }
    {
        entry::condition(self.alloc, self.limit, self.depth, tokens)
    }

    /// A query.
    pub fn query<'a>(&self, tokens: &'a [Token]) -> Result<(Query, &'a [Token]), ParseError>
        ensures { Gives result ((inner_at self.now.limit self.now.depth).query (kinds tokens.now)) }
    {
        entry::query(self.alloc, self.limit, self.depth, tokens)
    }

    /// `[ORDER BY key {, key}]`
    #[tactic(auto, unfolding(crate::specs::ReadStatements::order))]
    fn order<'a>(&self, tokens: &'a [Token]) -> Result<(Items<SortKey>, &'a [Token]), ParseError>
        ensures { Gives result (statements.order (kinds tokens.now)) }
    {
        match after_word(Word::Order, tokens) {
            None => Ok((Items::new(self.alloc), tokens)),
            Some(rest) => {
                let rest = word(Word::By, rest)?;
                listed(self.alloc, |at| sort_key(self.alloc, at), rest)
            }
        }
    }

    /// `query [order]`
    #[tactic(auto, unfolding(crate::specs::ReadStatements::ordered_query))]
    fn ordered_query<'a>(
        &self,
        tokens: &'a [Token],
    ) -> Result<(OrderedQuery, &'a [Token]), ParseError>
        ensures { Gives result (statements.ordered_query (inner_at self.now.limit self.now.depth) (kinds tokens.now)) }
    {
        let (query, rest) = self.query(tokens)?;
        let ((query, order), rest) = paired(query, self.order(rest))?;
        Ok((OrderedQuery { query, order }, rest))
    }

    /// `[WHERE cond]`
    #[tactic(auto, unfolding(crate::specs::ReadStatements::filter))]
    pub fn filter<'a>(
        &self,
        tokens: &'a [Token],
    ) -> Result<(Option<Condition>, &'a [Token]), ParseError>
        ensures { Gives result (statements.filter (inner_at self.now.limit self.now.depth) (kinds tokens.now)) }
    {
        match after_word(Word::Where, tokens) {
            None => Ok((None, tokens)),
            Some(rest) => {
                let (condition, rest) = self.condition(rest)?;
                Ok((Some(condition), rest))
            }
        }
    }

    /// What follows READ.
    #[tactic(auto, unfolding(crate::specs::ReadStatements::access_mode))]
    fn access_mode<'a>(&self, tokens: &'a [Token]) -> Result<(AccessMode, &'a [Token]), ParseError>
        ensures { Gives result (statements.access_mode (kinds tokens.now)) }
    {
        if let Some(rest) = after_word(Word::Only, tokens) {
            return Ok((AccessMode::ReadOnly, rest));
        }
        let rest = word(Word::Write, tokens)?;
        Ok((AccessMode::ReadWrite, rest))
    }

    /// What follows SET.
    #[tactic(auto, unfolding(crate::specs::ReadStatements::set_transaction))]
    fn set_transaction<'a>(
        &self,
        tokens: &'a [Token],
    ) -> Result<(Statement, &'a [Token]), ParseError>
        ensures { Gives result (statements.set_transaction (kinds tokens.now)) }
    {
        let rest = word(Word::Transaction, tokens)?;
        let rest = word(Word::Read, rest)?;
        let (mode, rest) = self.access_mode(rest)?;
        Ok((Statement::SetTransaction(mode), rest))
    }

    /// `CURSOR FOR query [order]`
    #[tactic(auto, unfolding(crate::specs::ReadStatements::cursor_query))]
    fn cursor_query<'a>(
        &self,
        tokens: &'a [Token],
    ) -> Result<(OrderedQuery, &'a [Token]), ParseError>
        ensures { Gives result (statements.cursor_query (inner_at self.now.limit self.now.depth) (kinds tokens.now)) }
    {
        let rest = word(Word::Cursor, tokens)?;
        let rest = word(Word::For, rest)?;
        self.ordered_query(rest)
    }

    /// What follows DECLARE.
    #[tactic(auto, unfolding(crate::specs::ReadStatements::declare_cursor))]
    fn declare_cursor<'a>(
        &self,
        tokens: &'a [Token],
    ) -> Result<(Statement, &'a [Token]), ParseError>
        ensures { Gives result (statements.declare_cursor (inner_at self.now.limit self.now.depth) (kinds tokens.now)) }
    {
        let (cursor, rest) = name(self.alloc, tokens)?;
        let (query, rest) = self.cursor_query(rest)?;
        let statement = DeclareCursor { cursor, query };
        Ok((
            Statement::DeclareCursor(Boxed::new(self.alloc, statement)?),
            rest,
        ))
    }

    /// INSERT, UPDATE and DELETE.
    #[tactic(auto, unfolding(crate::specs::ReadStatements::data_change))]
    fn data_change<'a>(&self, tokens: &'a [Token]) -> Result<(Statement, &'a [Token]), ParseError>
        ensures { Gives result (statements.data_change (inner_at self.now.limit self.now.depth) (kinds tokens.now)) }
    {
        if let Some(rest) = after_word(Word::Insert, tokens) {
            return self.insert(rest);
        }
        if let Some(rest) = after_word(Word::Update, tokens) {
            return self.update(rest);
        }
        let rest = word(Word::Delete, tokens)?;
        self.delete(rest)
    }

    /// CREATE and DROP.
    #[tactic(auto, unfolding(crate::specs::ReadStatements::schema_change))]
    fn schema_change<'a>(&self, tokens: &'a [Token]) -> Result<(Statement, &'a [Token]), ParseError>
        ensures { Gives result (statements.schema_change (inner_at self.now.limit self.now.depth) (kinds tokens.now)) }
    {
        if let Some(rest) = after_word(Word::Create, tokens) {
            return self.create(rest);
        }
        let rest = word(Word::Drop, tokens)?;
        self.drop_from(rest)
    }

    /// COMMIT, ROLLBACK and SET TRANSACTION.
    #[tactic(auto, unfolding(crate::specs::ReadStatements::transaction_control))]
    fn transaction_control<'a>(
        &self,
        tokens: &'a [Token],
    ) -> Result<(Statement, &'a [Token]), ParseError>
        ensures { Gives result (statements.transaction_control (kinds tokens.now)) }
    {
        if let Some(rest) = after_word(Word::Commit, tokens) {
            let (work, rest) = eat_word(Word::Work, rest);
            return Ok((Statement::Commit(work), rest));
        }
        if let Some(rest) = after_word(Word::Rollback, tokens) {
            let (work, rest) = eat_word(Word::Work, rest);
            return Ok((Statement::Rollback(work), rest));
        }
        let rest = word(Word::Set, tokens)?;
        self.set_transaction(rest)
    }

    /// DECLARE, OPEN, FETCH and CLOSE.
    #[tactic(auto, unfolding(crate::specs::ReadStatements::cursor_control))]
    fn cursor_control<'a>(
        &self,
        tokens: &'a [Token],
    ) -> Result<(Statement, &'a [Token]), ParseError>
        ensures { Gives result (statements.cursor_control (inner_at self.now.limit self.now.depth) (kinds tokens.now)) }
    {
        if let Some(rest) = after_word(Word::Declare, tokens) {
            return self.declare_cursor(rest);
        }
        if let Some(rest) = after_word(Word::Open, tokens) {
            let (cursor, rest) = name(self.alloc, rest)?;
            return Ok((Statement::OpenCursor(cursor), rest));
        }
        if let Some(rest) = after_word(Word::Fetch, tokens) {
            let (cursor, rest) = name(self.alloc, rest)?;
            return Ok((Statement::Fetch(cursor), rest));
        }
        let rest = word(Word::Close, tokens)?;
        let (cursor, rest) = name(self.alloc, rest)?;
        Ok((Statement::CloseCursor(cursor), rest))
    }

    /// `query [order] | EXPLAIN query [order]`
    #[tactic(auto, unfolding(crate::specs::ReadStatements::query_statement))]
    fn query_statement<'a>(
        &self,
        tokens: &'a [Token],
    ) -> Result<(Statement, &'a [Token]), ParseError>
        ensures { Gives result (statements.query_statement (inner_at self.now.limit self.now.depth) (kinds tokens.now)) }
    {
        if let Some(rest) = after_word(Word::Explain, tokens) {
            let (query, rest) = self.ordered_query(rest)?;
            return Ok((Statement::Explain(Boxed::new(self.alloc, query)?), rest));
        }
        let (query, rest) = self.ordered_query(tokens)?;
        Ok((Statement::Query(Boxed::new(self.alloc, query)?), rest))
    }

    /// `statement`
    #[tactic(auto, unfolding(crate::specs::ReadStatements::statement))]
    fn statement<'a>(&self, tokens: &'a [Token]) -> Result<(Statement, &'a [Token]), ParseError>
        ensures { Gives result (statements.statement (inner_at self.now.limit self.now.depth) (kinds tokens.now)) }
    {
        if begins_data_change(tokens) {
            self.data_change(tokens)
        } else if begins_schema_change(tokens) {
            self.schema_change(tokens)
        } else if begins_transaction_control(tokens) {
            self.transaction_control(tokens)
        } else if begins_cursor_control(tokens) {
            self.cursor_control(tokens)
        } else {
            self.query_statement(tokens)
        }
    }

    /// One statement and perhaps a `;`. Refuses where anything is left after it, where there is
    /// none, and for want of memory.
    #[tactic(auto, unfolding(crate::specs::ReadStatements::text))]
    pub fn text<'a>(&self, tokens: &'a [Token]) -> Result<(Statement, &'a [Token]), ParseError>
        ensures { Gives result (statements.text (inner_at self.now.limit self.now.depth) (kinds tokens.now)) }
    {
        let (statement, rest) = self.statement(tokens)?;
        only_if(is_end(rest), statement, rest)
    }

    /// One condition. Refuses where anything is left after it, where there is none, and for want of
    /// memory.
    #[tactic(auto, unfolding(crate::specs::ReadStatements::condition_text))]
    pub fn condition_text<'a>(
        &self,
        tokens: &'a [Token],
    ) -> Result<(Condition, &'a [Token]), ParseError>
        ensures { Gives result (statements.condition_text (inner_at self.now.limit self.now.depth) (kinds tokens.now)) }
    {
        let (condition, rest) = self.condition(tokens)?;
        only_if(is_nothing(rest), condition, rest)
    }
}
