//! Queries that were declared, and cursors that are open.
ghost use Rattle.std.specs.Prelude.{◌≡◌, ◌⊎◌, ◌<◌, ◌≤◌, nat_lt, ◌||◌, Bool, true, false, [], ◌++◌, ◌∷◌, length, is_some, is_none, IsSome, OnOk, OnErr, IfErr, Some, None};
ghost use Rattle.std.specs.List.{list_any};
ghost use Rattle.std.specs.Option.{option_copied};
ghost use Rattle.std.specs.FinMap.{contains_key, empty, get, insert, len};
ghost use Rattle.refusals.specs.declared.limit.Limit.TheVariants as limit;
ghost use Rattle.refusals.specs.declared.refusal.Refusal.TheVariants.{Exceeded, Memory};
ghost use Rattle.session_definitions.specs.Statements.{most_cursors};
ghost use Rattle.store.specs.Contents.{Contents};
ghost use Rattle.cursors.specs.Apart.{place_named};
ghost use Rattle.cursors.specs.ByName.{FitsIf, IsShut, StandsOver, changed_at, closed_upto, cursor_at, cursor_if, declared_of, is_open, opened_of, put_if, unnamed_of, with_cursor, with_query};

use crate::cursor::OpenCursor;
use crate::held::{Cursors, Declared};
use ast::OrderedQuery;
use items::Items;
use lexer::Name;
use refusals::{Limit, Refusal};
use std::alloc::Global;

/// The greatest number of queries that a session has declared.
pub const MOST_CURSORS: usize = 8;

/// Where the query of this name was declared.
fn place_of(declared: &Items<Declared>, name: &Name) -> Option<usize>
    ensures { result ≡ place_named name.now declared.now }
{
    for (at, entry) in declared.as_slice().iter().enumerate() {
        if entry.name.as_text().as_slice() == name.as_text().as_slice() {
            return Some(at);
        }
    }
    None
}

/// Puts a query in the place of another.
fn put_query(declared: &mut Items<Declared>, at: usize, query: OrderedQuery)
    ensures { declared.new ≡ changed_at (with_query query) at declared.old }
{
    match declared.get_mut(at) {
        Some(entry) => entry.query = query,
        None => (),
    }
}

/// Opens or closes the cursor at a place, and answers what stood there.
fn put_open(
    declared: &mut Items<Declared>,
    at: usize,
    cursor: Option<OpenCursor>,
) -> Option<OpenCursor>
    ensures puts { declared.new ≡ changed_at (with_cursor cursor) at declared.old }
    ensures was { result ≡ cursor_at at declared.old }
{
    match declared.get_mut(at) {
        Some(entry) => std::mem::replace(&mut entry.cursor, cursor),
        None => None,
    }
}

/// Closes all cursors.
fn close_each(declared: &mut Items<Declared>)
    ensures { declared.new ≡ closed_upto (length declared.old) declared.old }
{
    for at in 0..declared.len() {
        put_open(declared, at, None);
    }
}

/// Whether one of them is open.
fn is_one_open(declared: &Items<Declared>) -> bool
    ensures { result ≡ list_any is_open declared.now }
{
    for entry in declared.as_slice() {
        if entry.cursor.is_some() {
            return true;
        }
    }
    false
}

impl Cursors {
    /// Nothing is declared. Takes no memory.
    pub fn new(alloc: Global) -> Cursors
        ensures declared { declared_of result ≡ empty }
        ensures shut { IsShut result }
    {
        Cursors {
            declared: Items::new(alloc),
            unnamed: None,
        }
    }

    /// Whether a cursor is open, with a name or without one.
    pub fn has_open(&self) -> bool
        ensures is { (contents : Contents)
            → result ≡ nat_lt 0 (len (opened_of self.now contents)) || is_some (unnamed_of self.now contents) }
        ensures shut { result ≡ false → IsShut self.now }
    {
        is_one_open(&self.declared) || self.unnamed.is_some()
    }

    /// Closes all cursors. Takes no memory.
    pub fn close_all(&mut self)
        ensures declared { declared_of self.new ≡ declared_of self.old }
        ensures shut { IsShut self.new }
    {
        close_each(&mut self.declared);
        self.unnamed = None;
    }

    /// Whether the cursor of this name is open.
    pub fn is_open(&self, name: &Name) -> bool
        ensures { (contents : Contents) → result ≡ contains_key (opened_of self.now contents) name.now }
    {
        match place_of(&self.declared, name) {
            None => false,
            Some(at) => match self.declared.get(at) {
                None => false,
                Some(entry) => entry.cursor.is_some(),
            },
        }
    }

    /// The query that was declared under this name.
    pub fn query_of(&self, name: &Name) -> Option<&OrderedQuery>
        ensures { option_copied result ≡ get (declared_of self.now) name.now }
    {
        match place_of(&self.declared, name) {
            None => None,
            Some(at) => match self.declared.get(at) {
                None => None,
                Some(entry) => Some(&entry.query),
            },
        }
    }

    /// Keeps a query under a name. Its cursor, if there is one, is as it was. More than eight names
    /// are refused, and nothing is kept where memory is wanting.
    pub fn declare(&mut self, name: Name, query: OrderedQuery) -> Result<(), Refusal>
        ensures declares { OnOk result (declared_of self.new ≡ insert (declared_of self.old) name query) }
        ensures room { OnOk result ((contains_key (declared_of self.old) name ≡ true)
            ⊎ (len (declared_of self.old) < most_cursors)) }
        ensures opened { (contents : Contents) → opened_of self.new contents ≡ opened_of self.old contents }
        ensures unnamed { self.new.unnamed ≡ self.old.unnamed }
        ensures same { OnErr result (declared_of self.new ≡ declared_of self.old) }
        ensures refused { IfErr result (λ refusal. (refusal ≡ Memory)
            ⊎ ((refusal ≡ Exceeded limit.Cursors) × (contains_key (declared_of self.old) name ≡ false)
            × (most_cursors ≤ len (declared_of self.old)))) }
        ensures fits { (contents : Contents) → StandsOver self.old contents → StandsOver self.new contents }
        ensures shut { IsShut self.old → IsShut self.new }
    {
        match place_of(&self.declared, &name) {
            Some(at) => {
                put_query(&mut self.declared, at, query);
                Ok(())
            }
            None => {
                if MOST_CURSORS <= self.declared.len() {
                    return Err(Refusal::Exceeded(Limit::Cursors));
                }
                let entry = Declared {
                    name,
                    query,
                    cursor: None,
                };
                match self.declared.push(entry) {
                    Ok(()) => Ok(()),
                    Err(_) => Err(Refusal::Memory),
                }
            }
        }
    }

    /// Opens or closes the cursor of this name, and answers what stood there. Takes no memory.
    /// Where nothing was declared under it, nothing changes.
    pub fn exchange(&mut self, name: &Name, cursor: Option<OpenCursor>) -> Option<OpenCursor>
        ensures opened { (contents : Contents) → IsSome (get (declared_of self.old) name.now)
            → opened_of self.new contents ≡ put_if (opened_of self.old contents) name.now (cursor_if cursor contents) }
        ensures was { (contents : Contents) → cursor_if result contents ≡ get (opened_of self.old contents) name.now }
        ensures declared { declared_of self.new ≡ declared_of self.old }
        ensures unnamed { self.new.unnamed ≡ self.old.unnamed }
        ensures fits { (contents : Contents) → StandsOver self.old contents → FitsIf cursor contents
            → StandsOver self.new contents }
        ensures fitted { (contents : Contents) → StandsOver self.old contents → FitsIf result contents }
        ensures none { IsShut self.old → result ≡ None }
        ensures found { IsSome result → IsSome (get (declared_of self.old) name.now) }
    {
        match place_of(&self.declared, name) {
            None => None,
            Some(at) => put_open(&mut self.declared, at, cursor),
        }
    }

    /// Opens or closes the cursor without a name, and answers what stood there. Takes no memory.
    pub fn exchange_unnamed(&mut self, cursor: Option<OpenCursor>) -> Option<OpenCursor>
        ensures puts { self.new.unnamed ≡ cursor }
        ensures was { result ≡ self.old.unnamed }
        ensures named { self.new.declared ≡ self.old.declared }
    {
        std::mem::replace(&mut self.unnamed, cursor)
    }

    /// Whether the cursor without a name is open.
    pub fn has_unnamed(&self) -> bool
        ensures { result ≡ is_some self.now.unnamed }
    {
        self.unnamed.is_some()
    }
}
