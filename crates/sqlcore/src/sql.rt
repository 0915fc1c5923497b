//! The language of sessions.
use ast::{OrderedQuery, Statement};
use change::{insert_given, make};
use denote::Rows;
use items::Text;
use query_types::typed_query;
use refusals::Refusal;
use replies::Reply;
use resolve::typed_statement;
use sessions::{Changes, Language};
use sqlval::Schema;
use statement_reader::{is_rollback, read_statement};
use std::alloc::Global;
use store::Store;
use typing::{Change, OrderedQuery as TypedQuery, Typed};

/// SQL, as far as it is built.
#[derive(Clone, Copy)]
pub struct Sql;

/// Sessions of SQL over a store.
pub type Core<S> = sessions::Core<S, Sql>;

impl Language for Sql {
    fn is_rollback(&self, text: &[u8]) -> bool {
        is_rollback(text)
    }

    fn read(&self, alloc: Global, text: &[u8]) -> Result<Statement, Refusal> {
        read_statement(alloc, text)
    }

    fn typed(
        &self,
        alloc: Global,
        statement: &Statement,
        schema: &Schema,
    ) -> Result<Typed, Refusal> {
        typed_statement(alloc, statement, schema)
    }

    fn typed_query(
        &self,
        alloc: Global,
        query: &OrderedQuery,
        schema: &Schema,
    ) -> Result<TypedQuery, Refusal> {
        typed_query(alloc, query, schema)
    }
}

impl<S: Store> Changes<S> for Sql {
    fn make(&self, alloc: Global, store: &mut S, change: Change) -> Result<Reply, Refusal> {
        make(alloc, store, change)
    }

    fn insert(
        &self,
        alloc: Global,
        store: &mut S,
        table: &Text,
        rows: Rows,
    ) -> Result<Reply, Refusal> {
        insert_given(alloc, store, table, rows)
    }
}
