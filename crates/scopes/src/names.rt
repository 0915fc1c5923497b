//! Lists of names.

ghost use Rattle.std.specs.Prelude.{◌≡◌};
ghost use Rattle.std.specs.List.{list_any};
ghost use Rattle.sqlval.specs.Schema.{same_name};
ghost use Rattle.typing.specs.Table.{are_distinct};

use items::Text;

/// Whether no name stands twice.
#[tactic(auto, using(crate::proofs::NameLists::distinct_steps))]
pub fn are_distinct(names: &[Text]) -> bool
    ensures { result ≡ are_distinct names.now }
{
    let mut left = names;
    while let Some((name, others)) = left.split_first() {
        if is_among(others, name) {
            return false;
        }
        left = others;
    }
    true
}

#[tactic(auto, using(crate::proofs::NameLists::any_steps))]
pub fn is_among(names: &[Text], name: &Text) -> bool
    ensures { result ≡ list_any (λ other. same_name other name.now) names.now }
{
    for other in names {
        if other.as_slice() == name.as_slice() {
            return true;
        }
    }
    false
}
