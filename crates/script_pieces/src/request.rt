/// What a piece asks for.
#[derive(Clone, Copy, PartialEq, Eq)]
pub enum Request {
    /// Nothing: white space, comments and a semicolon.
    Nothing,
    /// To choose this session, from 1 to 64.
    Chooses(usize),
    /// To choose this session, where there is one, and to make the call of the text.
    Calls(Option<usize>),
    /// To write all pages.
    Flushes,
    /// It begins with `@` and is none of these.
    Wrong,
}
