//! What the rows of a subquery come to.

ghost use Rattle.std.specs.Prelude.{◌≡◌, map, [], ◌∷◌, IfOk};
ghost use Rattle.sqlval.specs.Truth.{truth_of};
ghost use Rattle.sqlval.specs.Value.{is_null};
ghost use Rattle.denote.specs.Condition.{among, exists, first_column};
ghost use Rattle.denote.specs.Expression.{scalar};
ghost use Rattle.executor.specs.Halves.{among_after, member_rows, negated_after};
ghost use Rattle.algebra.specs.Listing.{listed_rows};
ghost use Rattle.denote.specs.Evaluation.{Evaluation};
ghost use Rattle.denote.specs.Outcome.{Outcome};
ghost use Rattle.executor.specs.Members.{HasMembers};
ghost use Rattle.sqlval.specs.declared.value.Value.{Value};
ghost use Rattle.executor.specs.Reply.{Gives, outcome_of, among_rows};

use crate::listed::Listed;
use crate::rows::cell_of;
use denote::{Fault, Row, Stop};
use key_tables::Members;
use sqlval::{CompOp, Truth, Value, compare};
use std::alloc::{AllocError, Global};

/// The value of a scalar subquery.
#[tactic(auto, using(crate::proofs::SubqueryLemmas::subquery_lemmas))]
pub fn only_value_of(alloc: Global, listed: &Listed) -> Result<Value, Stop>
    ensures gives { Gives result (scalar (outcome_of listed.now)) }
{
    match listed.fault {
        Some(fault) => Err(Stop::Fault(fault)),
        None => {
            if listed.rows.len() > 1 {
                return Err(Stop::Fault(Fault::ManyRows));
            }
            match listed.rows.get(0) {
                Some(row) => Ok(cell_of(alloc, row.as_slice(), 0)?),
                None => Ok(Value::Null),
            }
        }
    }
}

/// Whether there is a row.
#[tactic(auto, using(crate::proofs::SubqueryLemmas::subquery_lemmas))]
pub fn exists_in(listed: &Listed) -> Result<Truth, Stop>
    ensures gives { Gives result (exists (outcome_of listed.now)) }
{
    match listed.fault {
        Some(fault) => Err(Stop::Fault(fault)),
        None => {
            if listed.rows.len() > 0 {
                Ok(Truth::True)
            } else {
                Ok(Truth::False)
            }
        }
    }
}

/// Whether a value equals the first of one of these rows: the OR of the comparisons.
fn is_among(x: &Value, rows: &[Row]) -> Truth
    ensures { result ≡ among x.now (first_column rows.now) }
{
    let mut found = Truth::False;
    for row in rows {
        match row.get(0) {
            Some(value) => {
                found = found.or(compare(CompOp::Equal, x, value));
            }
            None => {
                found = found.or(Truth::Unknown);
            }
        }
    }
    found
}

/// Whether a value is among the rows of a subquery.
#[tactic(auto, using(crate::proofs::SubqueryLemmas::subquery_lemmas))]
pub fn is_listed(x: &Value, listed: &Listed) -> Result<Truth, Stop>
    ensures gives { Gives result (among_rows x.now (outcome_of listed.now)) }
{
    match listed.fault {
        Some(fault) => Err(Stop::Fault(fault)),
        None => Ok(is_among(x, listed.rows.as_slice())),
    }
}

/// A list whose members are asked for: what decides IN, and the fault that ends it, if one does.
#[derive(Drop)]
pub struct MemberList {
    members: Members,
    fault: Option<Fault>,
}

/// The members that the rows of a tree have in their first column.
pub fn member_list(alloc: Global, listed: &Listed) -> Result<MemberList, AllocError>
    ensures { IfOk result (λ list. HasMembers list (outcome_of listed.now)) }
{
    let members = Members::new(alloc, listed.rows.as_slice())?;
    Ok(MemberList {
        members,
        fault: listed.fault,
    })
}

/// A list whose members are known.
pub fn list_of_members(members: Members, fault: Option<Fault>) -> MemberList
    ensures members { result.members ≡ members }
    ensures fault { result.fault ≡ fault }
{
    MemberList { members, fault }
}

/// What decides IN, out of a list.
pub fn members_of(list: MemberList) -> Members
    ensures { result ≡ list.members }
{
    list.members
}

/// The members that these values are.
pub fn list_of_values(alloc: Global, values: &[Value]) -> Result<MemberList, AllocError>
    ensures { IfOk result (λ list. HasMembers list (listed_rows (map (λ value. value ∷ []) values.now))) }
{
    let members = Members::of_values(alloc, values)?;
    Ok(MemberList {
        members,
        fault: None,
    })
}

/// Whether a value is, or with `negated` is not, among the members of a list.
pub fn member_of(x: Result<Value, Stop>, list: &MemberList, negated: bool) -> Result<Truth, Stop>
    ensures gives { (meant : Evaluation Value) (listed : Outcome) → Gives x meant → HasMembers list.now listed
        → Gives result (member_rows negated meant listed) }
{
    negated_if(negated, among_members(x, list))
}

/// Whether a value is among the members of a list.
fn among_members(x: Result<Value, Stop>, list: &MemberList) -> Result<Truth, Stop>
    ensures gives { (meant : Evaluation Value) (listed : Outcome) → Gives x meant → HasMembers list.now listed
        → Gives result (among_after meant listed) }
{
    match x {
        Err(stop) => Err(stop),
        Ok(x) => match list.fault {
            Some(fault) => Err(Stop::Fault(fault)),
            None => Ok(list.members.truth_of(x)),
        },
    }
}

fn negated_if(negated: bool, found: Result<Truth, Stop>) -> Result<Truth, Stop>
    ensures gives { (meant : Evaluation Truth) → Gives found meant → Gives result (negated_after negated meant) }
{
    match found {
        Err(stop) => Err(stop),
        Ok(truth) => { if negated { Ok(truth.not()) } else { Ok(truth) } }
    }
}

/// Whether a value equals one of these: the OR of the comparisons.
pub fn is_in(x: &Value, values: &[Value]) -> Truth
    ensures { result ≡ among x.now values.now }
{
    let mut found = Truth::False;
    for value in values {
        found = found.or(compare(CompOp::Equal, x, value));
    }
    found
}

/// Whether a value is null.
pub fn null_truth(x: &Value) -> Truth
    ensures { result ≡ truth_of (is_null x.now) }
{
    match x {
        Value::Null => Truth::True,
        Value::Int(_) => Truth::False,
        Value::Text(_) => Truth::False,
    }
}
