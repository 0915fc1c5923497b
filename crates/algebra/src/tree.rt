//! Operator trees. A plan is such a tree too: the nodes from `Seek` on come of rules alone.
//!
//! They have expressions and conditions of their own, which hold trees where typed ones hold
//! queries. A column is named as in typed trees: by how many rows outwards its row stands, and its
//! place there.

use items::{Boxed, Items, Text};
use sqlval::{CompOp, Truth, Value};
use typing::{Arithmetic, OrderKey, SetFunctionType, SetOperation};

/// What a tree knows of a stored table. Columns are given by their places in the table, from 0.
#[derive(Drop)]
pub struct StoredTable {
    pub name: Text,
    /// How many columns it has.
    pub width: usize,
    /// The columns of its primary key, if it has one.
    pub key: Option<Items<usize>>,
    /// The columns of each index.
    pub indexes: Items<Items<usize>>,
}

/// Where a range begins or ends.
#[derive(Drop)]
pub struct Bound {
    pub value: Value,
    /// Whether rows with this very value are in the range.
    pub inclusive: bool,
}

/// What gives a value at a row.
#[cycle(trees)]
#[derive(Drop)]
pub enum Expression {
    Constant(Value),
    Column { depth: usize, place: usize },
    /// A chain of `+` and `-`, or one of `*` and `/`: at least one operator with its operand.
    Calculation(Boxed<Expression>, Items<(Arithmetic, Expression)>),
    /// A chain of `||`: at least one more operand.
    Concatenation(Boxed<Expression>, Items<Expression>),
    Negation(Boxed<Expression>),
    /// The value of a subquery's only row.
    Scalar(Boxed<Tree>),
}

/// What gives a truth value at a row.
#[cycle(trees)]
#[derive(Drop)]
pub enum Condition {
    Or(Items<Condition>),
    And(Items<Condition>),
    Not(Boxed<Condition>),
    IsTruth(Boxed<Condition>, Truth),
    Compare(CompOp, Boxed<Expression>, Boxed<Expression>),
    /// The operand, the lower bound and the upper bound.
    Between(Boxed<Expression>, Boxed<Expression>, Boxed<Expression>),
    InList(Boxed<Expression>, Items<Value>),
    InQuery(Boxed<Expression>, Boxed<Tree>),
    /// The text and the pattern.
    Like(Boxed<Expression>, Boxed<Expression>),
    IsNull(Boxed<Expression>),
    Exists(Boxed<Tree>),
}

/// What gives a value of a group of rows.
#[cycle(trees)]
#[derive(Drop)]
pub enum SetFunction {
    CountRows,
    Over {
        function: SetFunctionType,
        distinct: bool,
        argument: Expression,
    },
}

/// What gives rows.
#[cycle(trees)]
#[derive(Drop)]
pub enum Tree {
    /// The rows of a stored table.
    Scan(StoredTable),
    /// The rows at which a condition is true.
    Filter(Boxed<Condition>, Boxed<Tree>),
    /// All pairs of a left and a right row.
    Product(Boxed<Tree>, Boxed<Tree>),
    /// The pairs at which a condition is true. It sees the left row and then the right one as one
    /// row.
    Inner(Boxed<Condition>, Boxed<Tree>, Boxed<Tree>),
    /// As `Inner`, and with nulls beside it each left row without a match. `width` is the number of
    /// the right side's columns.
    Left {
        on: Boxed<Condition>,
        left: Boxed<Tree>,
        right: Boxed<Tree>,
        width: usize,
    },
    /// The left rows for which some pair is true.
    Half(Boxed<Condition>, Boxed<Tree>, Boxed<Tree>),
    /// The left rows for which no pair is true.
    OppositeHalf(Boxed<Condition>, Boxed<Tree>, Boxed<Tree>),
    /// A row for each group: its key, and then the values of its set functions. Without columns all
    /// rows are one group.
    Group {
        columns: Option<Items<usize>>,
        functions: Items<SetFunction>,
        rows: Boxed<Tree>,
    },
    /// The values of these expressions at each row.
    Project(Items<Expression>, Boxed<Tree>),
    /// One of each alike rows.
    Distinct(Boxed<Tree>),
    Set(SetOperation, Boxed<Tree>, Boxed<Tree>),
    Sort(Items<OrderKey>, Boxed<Tree>),
    /// The rows of a table whose columns equal a key: an equality `Filter` of a `Scan`, by an
    /// index.
    Seek {
        table: StoredTable,
        columns: Items<usize>,
        key: Items<Value>,
    },
    /// The rows of a table in the order of an index. Those whose first of its columns meets the
    /// bounds, if there are any.
    Range {
        table: StoredTable,
        columns: Items<usize>,
        low: Option<Bound>,
        high: Option<Bound>,
    },
    /// An `Inner` whose right side is a `Scan`, by an index: of the table's rows those whose
    /// `columns` equal the left row's `places`.
    IndexLoop {
        on: Boxed<Condition>,
        left: Boxed<Tree>,
        places: Items<usize>,
        table: StoredTable,
        columns: Items<usize>,
    },
    /// An `Inner` by equal columns: of the right rows those whose `right_places` equal the left
    /// row's `left_places`.
    HashJoin {
        on: Boxed<Condition>,
        left: Boxed<Tree>,
        right: Boxed<Tree>,
        left_places: Items<usize>,
        right_places: Items<usize>,
    },
    /// The rows at which the operand is IN, or with `negated` NOT IN, the first column of
    /// `members`, which sees the rows outside alone.
    Member {
        operand: Boxed<Expression>,
        negated: bool,
        members: Boxed<Tree>,
        rows: Boxed<Tree>,
    },
}
