//! The names of rules, and where in a tree one is used.

use items::Items;

/// A rule that makes a tree another one with the same outcome.
#[derive(Clone, Copy, PartialEq, Eq)]
pub enum Rule {
    /// Q1: an AND of a filter becomes two filters.
    SplitFilter,
    /// Q2: a filter goes below a product.
    FilterBelowProduct,
    /// Q3: a filter goes to the left of a left join.
    FilterLeftOfLeftJoin,
    /// Q4: a part of ON that speaks of the right side alone goes into the right side of a left
    /// join.
    OnIntoRightSide,
    /// Q5: a filter of a product becomes an inner join.
    ProductToInner,
    /// Q6: inner joins are exchanged and regrouped.
    RegroupInner,
    /// Q7: a left join below a filter that no padded row passes becomes an inner join.
    LeftToInner,
    /// Q8: equalities become a seek.
    FilterToSeek,
    /// Q9: bounds become a range.
    FilterToRange,
    /// Q10: a join by equal columns becomes a hash join.
    InnerToHashJoin,
    /// Q11: a join by equal columns goes by an index.
    InnerToIndexLoop,
    /// Q12: DISTINCT of rows that have their whole primary key goes away.
    DropDistinct,
    /// Q13: EXISTS becomes a half join, NOT EXISTS its opposite.
    ExistsToHalf,
    /// Q14: IN becomes a member node.
    InToMember,
    /// Q15: a sort becomes a range in the order of an index.
    SortToRange,
    /// Q16: a conjunct is tried before the whole condition.
    PreFilter,
}

/// A way from the root of a tree to one of its nodes: at each node the place of the part in which
/// it goes on, from 0. The parts of a node are its children, left first (of a member node its rows
/// and then its members; of an index loop its outer side alone), and then the subqueries in its
/// expressions and conditions, in the order of the text.
#[derive(Drop)]
pub struct Path {
    pub places: Items<usize>,
}

/// A rule, used at a node.
#[derive(Drop)]
pub struct Step {
    pub rule: Rule,
    pub path: Path,
}
