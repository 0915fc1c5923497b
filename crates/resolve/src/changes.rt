//! Typed statements of what is found of their kinds. They are taken with their refusals, so that
//! nothing is owned where one is refused.

ghost use Rattle.std.specs.Prelude.{ℕ, List};
ghost use Rattle.typing.specs.declared.statement.Change.{Change as ChangeOf};
ghost use Rattle.typing.specs.declared.statement.CreateIndex.{CreateIndex as CreateIndexOf};
ghost use Rattle.typing.specs.declared.statement.CreateTable.{CreateTable as CreateTableOf};
ghost use Rattle.typing.specs.declared.statement.Delete.{Delete as DeleteOf};
ghost use Rattle.typing.specs.declared.statement.Insert.{Insert as InsertOf};
ghost use Rattle.typing.specs.declared.statement.Update.{Update as UpdateOf};
ghost use Rattle.typing.specs.declared.typed.OrderedQuery.{OrderedQuery as OrderedQueryOf};
ghost use Rattle.typing.specs.Finding.{Finding};
ghost use Rattle.typing.specs.Finds.{Finds};
ghost use Rattle.typing.specs.Statement.{changes};
ghost use Rattle.resolve.specs.Kinds.{close_of, delete_of, drop_index_of, drop_table_of, explain_of, fetch_of, index_of, insert_of, open_of, query_of, table_of, update_of};

use items::Text;
use refusals::Refusal;
use typing::{Change, CreateIndex, CreateTable, Delete, Insert, OrderedQuery, Typed, Update};

#[tactic(auto, using(type_rules::proofs::FindsLemmas::part_steps))]
pub fn query(found: Result<OrderedQuery, Refusal>) -> Result<Typed, Refusal>
    ensures { (x : Finding OrderedQueryOf) → Finds found x → Finds result (query_of x) }
{
    Ok(Typed::Query(found?))
}

#[tactic(auto, using(type_rules::proofs::FindsLemmas::part_steps))]
pub fn explain(found: Result<OrderedQuery, Refusal>) -> Result<Typed, Refusal>
    ensures { (x : Finding OrderedQueryOf) → Finds found x → Finds result (explain_of x) }
{
    Ok(Typed::Explain(found?))
}

#[tactic(auto, using(type_rules::proofs::FindsLemmas::part_steps))]
pub fn open_cursor(name: Result<Text, Refusal>) -> Result<Typed, Refusal>
    ensures { (x : Finding (List ℕ)) → Finds name x → Finds result (open_of x) }
{
    Ok(Typed::Open(name?))
}

#[tactic(auto, using(type_rules::proofs::FindsLemmas::part_steps))]
pub fn fetch_cursor(name: Result<Text, Refusal>) -> Result<Typed, Refusal>
    ensures { (x : Finding (List ℕ)) → Finds name x → Finds result (fetch_of x) }
{
    Ok(Typed::Fetch(name?))
}

#[tactic(auto, using(type_rules::proofs::FindsLemmas::part_steps))]
pub fn close_cursor(name: Result<Text, Refusal>) -> Result<Typed, Refusal>
    ensures { (x : Finding (List ℕ)) → Finds name x → Finds result (close_of x) }
{
    Ok(Typed::Close(name?))
}

#[tactic(auto, using(type_rules::proofs::FindsLemmas::part_steps))]
pub fn change(found: Result<Change, Refusal>) -> Result<Typed, Refusal>
    ensures { (x : Finding ChangeOf) → Finds found x → Finds result (changes x) }
{
    Ok(Typed::Change(found?))
}

#[tactic(auto, using(type_rules::proofs::FindsLemmas::part_steps))]
pub fn create_table(found: Result<CreateTable, Refusal>) -> Result<Change, Refusal>
    ensures { (x : Finding CreateTableOf) → Finds found x → Finds result (table_of x) }
{
    Ok(Change::CreateTable(found?))
}

#[tactic(auto, using(type_rules::proofs::FindsLemmas::part_steps))]
pub fn drop_table(found: Result<Text, Refusal>) -> Result<Change, Refusal>
    ensures { (x : Finding (List ℕ)) → Finds found x → Finds result (drop_table_of x) }
{
    Ok(Change::DropTable(found?))
}

#[tactic(auto, using(type_rules::proofs::FindsLemmas::part_steps))]
pub fn create_index(found: Result<CreateIndex, Refusal>) -> Result<Change, Refusal>
    ensures { (x : Finding CreateIndexOf) → Finds found x → Finds result (index_of x) }
{
    Ok(Change::CreateIndex(found?))
}

#[tactic(auto, using(type_rules::proofs::FindsLemmas::part_steps))]
pub fn drop_index(found: Result<Text, Refusal>) -> Result<Change, Refusal>
    ensures { (x : Finding (List ℕ)) → Finds found x → Finds result (drop_index_of x) }
{
    Ok(Change::DropIndex(found?))
}

#[tactic(auto, using(type_rules::proofs::FindsLemmas::part_steps))]
pub fn insert(found: Result<Insert, Refusal>) -> Result<Change, Refusal>
    ensures { (x : Finding InsertOf) → Finds found x → Finds result (insert_of x) }
{
    Ok(Change::Insert(found?))
}

#[tactic(auto, using(type_rules::proofs::FindsLemmas::part_steps))]
pub fn update(found: Result<Update, Refusal>) -> Result<Change, Refusal>
    ensures { (x : Finding UpdateOf) → Finds found x → Finds result (update_of x) }
{
    Ok(Change::Update(found?))
}

#[tactic(auto, using(type_rules::proofs::FindsLemmas::part_steps))]
pub fn delete(found: Result<Delete, Refusal>) -> Result<Change, Refusal>
    ensures { (x : Finding DeleteOf) → Finds found x → Finds result (delete_of x) }
{
    Ok(Change::Delete(found?))
}
