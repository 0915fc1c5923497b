//! That what a tree knows of its tables is so.

ghost use Rattle.algebra.specs.Described.{described_in};
ghost use Rattle.algebra.specs.Translated.{tree_of_ordered};
ghost use Rattle.algebra.specs.declared.tree.Tree.{Tree};
ghost use Rattle.denote.specs.Database.{CheckReading, Database, IsGood, rows_in};
ghost use Rattle.denote.specs.SchemaOf.{IsSchemaOf};
ghost use Rattle.places.specs.Indexes.{HasIndexes};
ghost use Rattle.rules.specs.Same.{AreAmong, Fits};
ghost use Rattle.rules.specs.Stored.{stored_in_tree};
ghost use Rattle.sqlval.specs.declared.schema.Schema.{Schema};
ghost use Rattle.store.specs.Contents.{Contents, database_of};
ghost use Rattle.typing.specs.declared.typed.OrderedQuery.{OrderedQuery};

/// The tables of a good database fit the tree of a query that is translated over its schema. A tree
/// that reads no other tables reads by indexes that the stored tables have.
pub fn described_tables_are_known()
    ensures fits { (reading : CheckReading) (schema : Schema) (db : Database) (query : OrderedQuery) → IsGood reading db
        → IsSchemaOf schema db → Fits (rows_in db) (tree_of_ordered (described_in schema) query) }
    ensures indexed { (contents : Contents) (schema : Schema) (query : OrderedQuery) (plan : Tree)
        → IsSchemaOf schema (database_of contents)
        → AreAmong (stored_in_tree plan) (stored_in_tree (tree_of_ordered (described_in schema) query))
        → HasIndexes contents plan }
{}
