//! One page of a tree, written.

ghost use Rattle.std.specs.Prelude.{◌≡◌, ◌≢◌, ◌≤◌, ℕ, IsSome, IfErr, OnOk};
ghost use Rattle.page_space.specs.Space.{ChangeRefused};
ghost use Rattle.sqlrecord.specs.Build.{lent, Fits};
ghost use Rattle.sqlrecord.specs.Page.{cells_of, link_of, AreCells, IsSound};
ghost use Rattle.btree_read.specs.Nodes.{node_of, IsStocked, HasNode};
ghost use Rattle.std.specs.Prelude.{None};

use page_space::{PAGE_SIZE, Page, PageSpace, SpaceError};
use sqlrecord::{PageKind, build_page};

/// Writes a page that is sound. Refused as `PageSpace::write` is.
pub fn write_sound<S: PageSpace>(
    space: &mut S,
    page: u32,
    kind: PageKind,
    bytes: &Page,
) -> Result<(), SpaceError>
    requires { IsSound bytes.now kind }
    ensures node { OnOk result (IsSome (S.pages space.old page)
        → IsStocked (node_of kind (link_of bytes.now) (cells_of bytes.now))
        → HasNode (S.pages space.new) page (node_of kind (link_of bytes.now) (cells_of bytes.now))) }
    ensures others { (n : ℕ) → n ≢ page → S.pages space.new n ≡ S.pages space.old n }
    ensures whole { OnOk result (S.is_whole space.old → S.is_whole space.new) }
    ensures refusal { IfErr result (ChangeRefused (S.at_limit space.new) (S.pages space.old page ≡ None) (S.refused space.old) (S.refused space.new)) }
    ensures rising { S.refused space.old ≤ S.refused space.new }
    ensures follows { S.follows space.old space.new }
{
    space.write(page, bytes)
}

/// Writes a page of these cells. Refused as `PageSpace::write` is.
pub fn write_page<S: PageSpace>(
    space: &mut S,
    page: u32,
    kind: PageKind,
    link: u32,
    cells: &[&[u8]],
) -> Result<(), SpaceError>
    requires fits { Fits (lent cells.now) }
    requires cells { AreCells kind (lent cells.now) }
    ensures node { OnOk result (IsSome (S.pages space.old page) → IsStocked (node_of kind link (lent cells.now))
        → HasNode (S.pages space.new) page (node_of kind link (lent cells.now))) }
    ensures others { (n : ℕ) → n ≢ page → S.pages space.new n ≡ S.pages space.old n }
    ensures whole { OnOk result (S.is_whole space.old → S.is_whole space.new) }
    ensures refusal { IfErr result (ChangeRefused (S.at_limit space.new) (S.pages space.old page ≡ None) (S.refused space.old) (S.refused space.new)) }
    ensures rising { S.refused space.old ≤ S.refused space.new }
    ensures follows { S.follows space.old space.new }
{
    let mut bytes = [0; PAGE_SIZE];
    build_page(&mut bytes, kind, link, cells);
    space.write(page, &bytes)
}
