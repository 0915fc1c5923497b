ghost use Rattle.std.specs.Prelude.{◌≡◌, ◌≢◌, ◌<◌, ◌≤◌, ℕ, List, Some, None, IsSome, IfOk, IfErr, OnOk, OnErr, true, slice_index};
ghost use Rattle.sqlrecord.specs.Page.{IsNode};
ghost use Rattle.page_space.specs.declared.error.SpaceError.{SpaceError};
ghost use Rattle.page_space.specs.Space.{PageMap, IsFresh, ReadRefused, ChangeRefused};

use crate::{Page, SpaceError};

/// A space of numbered pages that can be read.
///
/// It shows the pages in use: page 0 is none of them, nor is a free page, nor one of a number from
/// 65,536 on. Where nothing is known of a page, nothing is said of what a read of it gives.
pub trait PageReader {
    /// The bytes of each page in use.
    ghost pages: { Self → PageMap };

    /// How many calls its device has refused.
    ghost refused: { Self → ℕ };

    /// What every call keeps, also one that is refused.
    ghost follows: { Self → Self → Type 0 };

    /// Whether the list of free pages is one.
    ghost is_whole: { Self → Type 0 };

    /// Gives what lies at a page, where one lies there, and tells whether it is known to be a sound
    /// page of a tree. Refused for memory, where the device refuses a call, and as damaged only
    /// where no page lies. After a refusal `into` may hold anything.
    fn read(&mut self, page: u32, into: &mut Page) -> Result<bool, SpaceError>
        ensures node { IfOk result (λ known. known ≡ true → IsNode into.new) }
        ensures bytes { OnOk result ((bytes : List ℕ) → pages self.old page ≡ Some bytes → into.new ≡ bytes) }
        ensures same { pages self.new ≡ pages self.old }
        ensures whole { is_whole self.old → is_whole self.new }
        ensures refusal { IfErr result (ReadRefused (pages self.old page ≡ None) (refused self.old) (refused self.new)) }
        ensures rising { refused self.old ≤ refused self.new }
        ensures follows { follows self.old self.new };

    /// A page in use has a number from 1 to 65,535.
    ghost bounded: { (s : Self) (n : ℕ) → IsSome (pages s n) → (0 < n) × (n < 65536) };

    /// Nothing called keeps all.
    ghost follows_refl: { (s : Self) → follows s s };

    /// What two calls keep, both together keep.
    ghost follows_trans: { (a b c : Self) → follows a b → follows b c → follows a c };
}

/// A space of numbered pages that can be changed.
///
/// A refused call leaves every page but the one it names; of that one nothing is said. A limit
/// comes only where the space is at it.
pub trait PageSpace: PageReader {
    /// That the space is at the limit that a fault names.
    ghost at_limit: { Self → SpaceError → Type 0 };

    /// Puts these bytes, which are those of a sound page of a tree, in place of a page in use.
    /// Refused for memory, where the device refuses a call, at the limit of private pages, and as
    /// damaged only where the page is not in use.
    fn write(&mut self, page: u32, bytes: &Page) -> Result<(), SpaceError>
        requires kind { slice_index bytes.now 0 ≢ 3 }
        requires node { IsNode bytes.now }
        ensures written { OnOk result (IsSome (Self.pages self.old page) → Self.pages self.new page ≡ Some bytes.now) }
        ensures others { (n : ℕ) → n ≢ page → Self.pages self.new n ≡ Self.pages self.old n }
        ensures whole { OnOk result (Self.is_whole self.old → Self.is_whole self.new) }
        ensures refusal { IfErr result (ChangeRefused (at_limit self.new) (Self.pages self.old page ≡ None) (Self.refused self.old) (Self.refused self.new)) }
        ensures rising { Self.refused self.old ≤ Self.refused self.new }
        ensures follows { Self.follows self.old self.new };

    /// Takes a page into use that was not in use; it then has some bytes. Refused for memory, where
    /// the device refuses a call, at the limits of pages and of private pages, and as damaged only
    /// where the list of free pages is none.
    fn allocate(&mut self) -> Result<u32, SpaceError>
        ensures fresh { IfOk result (IsFresh (Self.pages self.old) (Self.pages self.new)) }
        ensures others { IfOk result (λ page. (n : ℕ) → n ≢ page → Self.pages self.new n ≡ Self.pages self.old n) }
        ensures kept { OnErr result ((n : ℕ) → IsSome (Self.pages self.old n)
            → Self.pages self.new n ≡ Self.pages self.old n) }
        ensures whole { OnOk result (Self.is_whole self.old → Self.is_whole self.new) }
        ensures refusal { IfErr result (ChangeRefused (at_limit self.new) (Self.is_whole self.old
            → ⊥) (Self.refused self.old) (Self.refused self.new)) }
        ensures rising { Self.refused self.old ≤ Self.refused self.new }
        ensures follows { Self.follows self.old self.new };

    /// Takes a page out of use. Refused as `write` is, and as damaged also where the list of free
    /// pages is none.
    fn free(&mut self, page: u32) -> Result<(), SpaceError>
        ensures freed { OnOk result (Self.pages self.new page ≡ None) }
        ensures others { (n : ℕ) → n ≢ page → Self.pages self.new n ≡ Self.pages self.old n }
        ensures whole { OnOk result (Self.is_whole self.old → Self.is_whole self.new) }
        ensures refusal { IfErr result (ChangeRefused (at_limit self.new) (Self.is_whole self.old
            → IsSome (Self.pages self.old page) → ⊥) (Self.refused self.old) (Self.refused self.new)) }
        ensures rising { Self.refused self.old ≤ Self.refused self.new }
        ensures follows { Self.follows self.old self.new };
}
