//! Laws of the codes.

ghost use Rattle.std.specs.Prelude.{◌≡◌, ◌<◌, ◌^◌, ◌+◌, ℕ, List, length};
ghost use Rattle.std.specs.Ordering.{nat_cmp, ordering_then};
ghost use Rattle.sqlval.specs.declared.value.Value.{Value};
ghost use Rattle.sqlval.specs.CodedLength.{row_length, key_length};
ghost use Rattle.sqlrecord.specs.Storable.{AllStorable};
ghost use Rattle.sqlrecord.specs.Row.{row_code};
ghost use Rattle.sqlrecord.specs.Key.{key_code, index_key_code, byte_order, key_order};
ghost use Rattle.sqlrecord.specs.declared.kind.PageKind.{PageKind};
ghost use Rattle.sqlrecord.specs.Page.{cells_of, IsSound};
ghost use Rattle.sqlrecord.specs.Build.{Fits};

/// Keys compared byte by byte have the order of their values. Of index keys with equal values the
/// row numbers decide.
pub fn keys_keep_order()
    ensures keys { (a b : List Value) → AllStorable a → AllStorable b
        → byte_order (key_code a) (key_code b) ≡ key_order a b }
    ensures index_keys { (a b : List Value) (m n : ℕ) → AllStorable a → AllStorable b → length a ≡ length b → m < 2 ^ 64
        → n < 2 ^ 64
        → byte_order (index_key_code a m) (index_key_code b n) ≡ ordering_then (key_order a b) (nat_cmp m n) }
{}

/// Different keys have different codes, and so have index keys of different values or of different
/// rows.
pub fn keys_tell_apart()
    ensures keys { (a b : List Value) → AllStorable a → AllStorable b → key_code a ≡ key_code b → a ≡ b }
    ensures index_keys { (a b : List Value) (m n : ℕ) → AllStorable a → AllStorable b → length a ≡ length b → m < 2 ^ 64
        → n < 2 ^ 64
        → index_key_code a m ≡ index_key_code b n → (a ≡ b) × (m ≡ n) }
{}

/// Different rows have different codes.
pub fn rows_tell_apart()
    ensures { (a b : List Value) → AllStorable a → AllStorable b → row_code a ≡ row_code b → a ≡ b }
{}

/// The codes have the lengths that the limits speak of.
pub fn codes_have_their_lengths()
    ensures rows { (row : List Value) → length (row_code row) ≡ row_length row }
    ensures keys { (key : List Value) → length (key_code key) ≡ key_length key }
    ensures index_keys { (key : List Value) (n : ℕ) → length (index_key_code key n) ≡ key_length key + 8 }
{}

/// The cells of a page that is not damaged fit into a page, so a page holds just the lists of cells
/// that `fits` accepts.
pub fn cells_of_pages_fit()
    ensures { (page : List ℕ) (kind : PageKind) → IsSound page kind → Fits (cells_of page) }
{}
