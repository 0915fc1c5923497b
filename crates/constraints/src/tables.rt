//! The table of a name.
ghost use Rattle.std.specs.Prelude.{◌≡◌, false, IfSome, IfNone, Contains};
ghost use Rattle.std.specs.List.{list_any};
ghost use Rattle.sqlval.specs.Schema.{same_name};

use items::Text;
use sqlval::{Schema, Table};

/// The table of a name.
pub fn table_named<'a>(schema: &'a Schema, name: &Text) -> Option<&'a Table>
    ensures there { IfSome result (λ table. Contains schema.now.tables table.now) }
    ensures named { IfSome result (λ table. table.now.name ≡ name.now) }
    ensures none { IfNone result (list_any (λ table. same_name table.name name.now) schema.now.tables ≡ false) }
{
    for table in schema.tables.as_slice() {
        if table.name.as_slice() == name.as_slice() {
            return Some(table);
        }
    }
    None
}
