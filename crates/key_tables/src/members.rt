//! What decides whether a value is among the rows of a list.

ghost use Rattle.std.specs.Prelude.{◌≡◌, List, [], ◌∷◌, ◌++◌, IfOk, OnOk};
ghost use Rattle.denote.specs.Condition.{among, first_column};
ghost use Rattle.denote.specs.Expression.{cell};
ghost use Rattle.key_tables.specs.Among.{Adds, AreMembers, is_unknown as is_unknown_at};
ghost use Rattle.sqlval.specs.declared.value.Value.{Value};

use crate::member::Member;
use denote::Row;
use sqlval::{Truth, Value};
use std::alloc::{AllocError, Global};
use std::collections::BTreeSet;

/// What IN asks of a list of values: those that are not null, each once, and of what kinds its
/// values are.
#[derive(Drop)]
pub struct Members {
    values: BTreeSet<Member>,
    nulls: bool,
    integers: bool,
    texts: bool,
}

/// A copy of one value more.
fn put_value(alloc: Global, values: &mut BTreeSet<Member>, value: &Value) -> Result<(), AllocError>
    ensures { OnOk result (Adds value.now values.old values.new) }
{
    let value = value.copy(alloc)?;
    values.insert(Member { value })?;
    Ok(())
}

/// One value more.
fn add_value(alloc: Global, members: &mut Members, value: &Value) -> Result<(), AllocError>
    ensures { (values : List Value) → AreMembers members.old values
        → OnOk result (AreMembers members.new (values ++ value.now ∷ [])) }
{
    match value {
        Value::Null => {
            members.nulls = true;
            Ok(())
        }
        Value::Int(_) => {
            members.integers = true;
            put_value(alloc, &mut members.values, value)
        }
        Value::Text(_) => {
            members.texts = true;
            put_value(alloc, &mut members.values, value)
        }
    }
}

/// The first value of a row more; null where it has none.
fn add_first(alloc: Global, members: &mut Members, row: &[Value]) -> Result<(), AllocError>
    ensures { (values : List Value) → AreMembers members.old values
        → OnOk result (AreMembers members.new (values ++ cell row.now 0 ∷ [])) }
{
    match row.get(0) {
        Some(value) => add_value(alloc, members, value),
        None => {
            members.nulls = true;
            Ok(())
        }
    }
}

/// Whether a value's comparison with one of a list is unknown, of a list with these kinds of
/// values.
fn is_unknown(x: &Value, nulls: bool, integers: bool, texts: bool) -> bool
    ensures { result ≡ is_unknown_at x.now nulls integers texts }
{
    match x {
        Value::Null => nulls || integers || texts,
        Value::Int(_) => nulls || texts,
        Value::Text(_) => nulls || integers,
    }
}

/// No members.
fn none(alloc: Global) -> Members
    ensures { AreMembers result [] }
{
    Members {
        values: BTreeSet::new(alloc),
        nulls: false,
        integers: false,
        texts: false,
    }
}

impl Members {
    /// The members that these rows have in their first column. Copies each of its values; refuses
    /// for want of memory alone.
    pub fn new(alloc: Global, rows: &[Row]) -> Result<Members, AllocError>
        ensures { IfOk result (λ members. AreMembers members (first_column rows.now)) }
    {
        let mut members = none(alloc);
        for row in rows {
            add_first(alloc, &mut members, row.as_slice())?;
        }
        Ok(members)
    }

    /// The members of a list that is written out. Copies each value; refuses for want of memory
    /// alone.
    pub fn of_values(alloc: Global, values: &[Value]) -> Result<Members, AllocError>
        ensures { IfOk result (λ members. AreMembers members values.now) }
    {
        let mut members = none(alloc);
        for value in values {
            add_value(alloc, &mut members, value)?;
        }
        Ok(members)
    }

    /// Whether a value is IN the members: true where it equals one, else unknown where its
    /// comparison with one is, else false.
    pub fn truth_of(&self, x: Value) -> Truth
        ensures { (values : List Value) → AreMembers self.now values → result ≡ among x values }
    {
        let member = Member { value: x };
        if self.values.contains(&member) {
            return Truth::True;
        }
        if is_unknown(&member.value, self.nulls, self.integers, self.texts) {
            Truth::Unknown
        } else {
            Truth::False
        }
    }
}
