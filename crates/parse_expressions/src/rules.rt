//! The rules of the grammar over function values that read what stands between parentheses.

ghost use Rattle.parse_terminals.specs.Readers.{kinds, Gives};
ghost use Rattle.parse_terminals.specs.Readers as read;
ghost use Rattle.parse_expressions.specs.Levels.{inner_at, Nests};

use ast::{Condition, Expression, Query};
use items::Boxed;
use lexer::Token;
use parse_terminals::{ParseError, boxed, parenthesized};
use std::alloc::Global;

/// The rules, where the function values read what stands between parentheses: that is nested less
/// than `depth` deep, and no chain in it has more than `limit` operands. So all recursion goes
/// through these three.
#[derive(Clone, Copy)]
pub struct Rules<E, C, Q> {
    pub alloc: Global,
    pub limit: Option<usize>,
    pub depth: usize,
    pub expression: E,
    pub condition: C,
    pub query: Q,
}

impl<
    E: Fn(Global, Option<usize>, usize, &[Token]) -> Result<(Expression, &[Token]), ParseError>,
    C: Fn(Global, Option<usize>, usize, &[Token]) -> Result<(Condition, &[Token]), ParseError>,
    Q: Fn(Global, Option<usize>, usize, &[Token]) -> Result<(Query, &[Token]), ParseError>,
> Rules<E, C, Q> {
    /// An expression between parentheses.
    pub fn inner_expression<'a>(
        &self,
        tokens: &'a [Token],
    ) -> Result<(Expression, &'a [Token]), ParseError>
        requires { Nests self.now.limit self.now.depth (E.pre self.now.expression) (E.post self.now.expression) (C.pre self.now.condition) (C.post self.now.condition) (Q.pre self.now.query) (Q.post self.now.query) }
        ensures { Gives result ((inner_at self.now.limit self.now.depth).expression (kinds tokens.now)) }
    {
        (self.expression)(self.alloc, self.limit, self.depth, tokens)
    }

    /// A condition between parentheses.
    pub fn inner_condition<'a>(
        &self,
        tokens: &'a [Token],
    ) -> Result<(Condition, &'a [Token]), ParseError>
        requires { Nests self.now.limit self.now.depth (E.pre self.now.expression) (E.post self.now.expression) (C.pre self.now.condition) (C.post self.now.condition) (Q.pre self.now.query) (Q.post self.now.query) }
        ensures { Gives result ((inner_at self.now.limit self.now.depth).condition (kinds tokens.now)) }
    {
        (self.condition)(self.alloc, self.limit, self.depth, tokens)
    }

    /// A query between parentheses. Refuses what the function value refuses.
    pub fn inner_query<'a>(&self, tokens: &'a [Token]) -> Result<(Query, &'a [Token]), ParseError>
        requires { Nests self.now.limit self.now.depth (E.pre self.now.expression) (E.post self.now.expression) (C.pre self.now.condition) (C.post self.now.condition) (Q.pre self.now.query) (Q.post self.now.query) }
        ensures { Gives result ((inner_at self.now.limit self.now.depth).query (kinds tokens.now)) }
    {
        (self.query)(self.alloc, self.limit, self.depth, tokens)
    }

    /// A query and its parentheses. Refuses where one of the two is wanting, what the function
    /// value refuses, and for want of memory.
    pub fn query_in_parentheses<'a>(
        &self,
        tokens: &'a [Token],
    ) -> Result<(Boxed<Query>, &'a [Token]), ParseError>
        requires { Nests self.now.limit self.now.depth (E.pre self.now.expression) (E.post self.now.expression) (C.pre self.now.condition) (C.post self.now.condition) (Q.pre self.now.query) (Q.post self.now.query) }
        ensures { Gives result (read.parenthesized (inner_at self.now.limit self.now.depth).query (kinds tokens.now)) }
    {
        boxed(self.alloc, parenthesized(|at| self.inner_query(at), tokens))
    }
}
