/// What a page of a tree is.
#[derive(Clone, Copy, PartialEq, Eq)]
pub enum PageKind {
    /// It has the tree's entries.
    Leaf,
    /// It has the tree's branches.
    Inner,
}
