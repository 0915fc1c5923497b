//! What callers may rely on beside the calls.
ghost use Rattle.std.specs.Prelude.{◌≡◌, List};
ghost use Rattle.sqlval.specs.declared.schema.Table.{Table};
ghost use Rattle.catalog_records.specs.Records.{schema_records};
ghost use Rattle.catalog_records.specs.Keepable.{AreTables};

/// Different schemas that the program can hold have different records.
pub fn records_tell_apart()
    ensures { (tables others : List Table) → AreTables tables → AreTables others
        → schema_records tables ≡ schema_records others → tables ≡ others }
{}
