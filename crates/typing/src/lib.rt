//! The typed trees of the whole language, and which of them each statement stands for over a
//! schema.
//!
//! The trees are data; the rules of names and types are definitions, in `specs`. No function here
//! does anything.
#![tactic(auto)]

mod known;
pub mod laws;
mod scope;
mod statement;
mod typed;

pub use known::{KnownKey, KnownTable, Meant};
pub use scope::{
    Found, Frame, Groups, Matches, Offer, ResultColumn, Settled, ShownItem, Sides, TypedExpression,
    TypedFrom, TypedQuery,
};
pub use statement::{
    AccessMode, Assignment, Change, CreateIndex, CreateTable, Delete, Insert, InsertSource, Typed,
    Update,
};
pub use typed::{
    Arithmetic, Condition, Expression, Grouping, Item, OrderKey, OrderedQuery, Query, Select,
    SetFunction, SetFunctionType, SetOperation, SetOperator, Source,
};
