//! What the places of a text see, and what is found there.

use crate::typed::{Condition, Expression, Query, SetFunction, Source};
use items::{Items, Text};
use sqlval::ValueType;

/// A column that a FROM offers: the name of its table there, its own name if it has one, and its
/// type.
#[derive(Drop)]
pub struct Offer {
    pub table: Text,
    pub name: Option<Text>,
    pub value_type: ValueType,
}

/// What a SELECT shows to a place inside it: the tables of its FROM, and their columns in order.
/// Where the place stands in the select list or HAVING of a grouped SELECT, `key` has the grouping
/// columns, by their places in FROM's row: only these may be named there, and the row that is seen
/// begins with their values.
#[derive(Drop)]
pub struct Frame {
    pub tables: Items<Text>,
    pub columns: Items<Offer>,
    pub key: Option<Items<usize>>,
}

/// A column of a FROM, by its place from 0.
#[derive(Clone, Copy, PartialEq, Eq)]
pub struct Found {
    pub place: usize,
    pub value_type: ValueType,
}

/// The columns of a FROM that a name means.
#[derive(Clone, Copy, PartialEq, Eq)]
pub enum Matches {
    Nothing,
    One(Found),
    Several,
}

/// An expression and its type.
#[derive(Drop)]
pub struct TypedExpression {
    pub expression: Expression,
    pub value_type: ValueType,
}

/// A column of a query's result: its name if it has one, and its type.
#[derive(Drop)]
pub struct ResultColumn {
    pub name: Option<Text>,
    pub value_type: ValueType,
}

/// A query and the columns of its result.
#[derive(Drop)]
pub struct TypedQuery {
    pub query: Query,
    pub columns: Items<ResultColumn>,
}

/// A FROM or a part of it: what it shows, and what gives its rows.
#[derive(Drop)]
pub struct TypedFrom {
    pub frame: Frame,
    pub source: Source,
}

/// Both sides of a join, how many columns the right one has, and ON.
#[derive(Drop)]
pub struct Sides {
    pub left: Source,
    pub right: Source,
    pub right_width: usize,
    pub on: Condition,
}

/// An item of a select list, with its name if it has one, and its type.
#[derive(Drop)]
pub struct ShownItem {
    pub expression: Expression,
    pub name: Option<Text>,
    pub value_type: ValueType,
}

/// What the groups of a SELECT, its select list and HAVING are found to be. `key` has the grouping
/// columns, by their places in FROM's row; `None` where the SELECT is not grouped.
#[derive(Drop)]
pub struct Groups {
    pub key: Option<Items<usize>>,
    pub items: Items<ShownItem>,
    pub having: Option<Condition>,
}

/// What depends on the columns that the FROM of a SELECT offers: WHERE, the set functions, and the
/// rest.
#[derive(Drop)]
pub struct Settled {
    pub filter: Option<Condition>,
    pub functions: Items<SetFunction>,
    pub groups: Groups,
}
