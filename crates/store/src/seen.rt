use crate::error::StoreError;
use crate::reading::Reading;
use crate::rows::{Numbered, NumberedRow, Position};
use crate::storing::Store;
use crate::view::View;
use items::Text;
use sqlval::Value;
use std::alloc::Global;
use std::ops::Bound;

/// One version of a store, lent for a call.
#[derive(Drop)]
pub struct Seen<'a, S: Store> {
    pub store: &'a mut S,
    pub view: View,
}

impl<'a, S: Store> Reading for Seen<'a, S> {
    ghost use Rattle.std.specs.Prelude.{◌≡◌, refl};
    ghost use Rattle.std.proofs.Common.{◌∙◌};
    ghost use Rattle.store.specs.View.{shown_by};
    ghost use Rattle.store.specs.Going.{reads};
    ghost use Rattle.store.specs.Readings.{goes_keeps};

    ghost is_sound = { λ s. S.is_sound s.store.now };

    ghost shows = { λ s. shown_by (S.shows s.store.now) s.view (S.refused s.store.now) (S.damaged s.store.now) (S.read s.store.now) };

    ghost follows = { λ a b. S.goes_on a.store.now b.store.now reads × (b.store.ghost_name ≡ a.store.ghost_name)
        × (b.view ≡ a.view) };

    ghost numbers_rise = { λ s name table sound found. S.numbers_rise s.store.now s.view name table sound found };

    ghost follows_refl = { λ s. (S.goes_on_refl s.store.now reads, refl, refl) };

    ghost follows_trans = { λ a b c h g. (S.goes_on_trans a.store.now b.store.now c.store.now reads reads h.0 g.0, g.1 ∙ h.1, g.2 ∙ h.2) };

    ghost follows_keeps = { λ a b h. goes_keeps _ _ _ _ _ _ _ _ (S.goes_on_goes _ _ _ h.0) h.2 };

    ghost follows_sound = { λ a b h sound. (S.goes_on_goes _ _ _ h.0).sound sound };

    fn scan(&mut self, alloc: Global, name: &Text) -> Result<Numbered, StoreError> {
        self.store.scan(alloc, self.view, name)
    }

    fn next(
        &mut self,
        alloc: Global,
        name: &Text,
        after: Option<u64>,
    ) -> Result<Option<NumberedRow>, StoreError> {
        self.store.next(alloc, self.view, name, after)
    }

    fn seek(
        &mut self,
        alloc: Global,
        name: &Text,
        index: usize,
        key: &[Value],
    ) -> Result<Numbered, StoreError> {
        self.store.seek(alloc, self.view, name, index, key)
    }

    fn range(
        &mut self,
        alloc: Global,
        name: &Text,
        index: usize,
        low: &Bound<Value>,
        high: &Bound<Value>,
    ) -> Result<Numbered, StoreError> {
        self.store.range(alloc, self.view, name, index, low, high)
    }

    fn next_in(
        &mut self,
        alloc: Global,
        name: &Text,
        index: usize,
        after: Option<&Position>,
    ) -> Result<Option<NumberedRow>, StoreError> {
        self.store.next_in(alloc, self.view, name, index, after)
    }

    fn scan_block(
        &mut self,
        alloc: Global,
        name: &Text,
        after: Option<u64>,
        most: usize,
    ) -> Result<Numbered, StoreError> {
        self.store.scan_block(alloc, self.view, name, after, most)
    }

    fn seek_block(
        &mut self,
        alloc: Global,
        name: &Text,
        index: usize,
        key: &[Value],
        after: Option<u64>,
        most: usize,
    ) -> Result<Numbered, StoreError> {
        self.store
            .seek_block(alloc, self.view, name, index, key, after, most)
    }

    fn range_block(
        &mut self,
        alloc: Global,
        name: &Text,
        index: usize,
        low: &Bound<Value>,
        high: &Bound<Value>,
        after: Option<&Position>,
        most: usize,
    ) -> Result<Numbered, StoreError> {
        self.store
            .range_block(alloc, self.view, name, index, low, high, after, most)
    }

    fn rows_read(&self) -> u64 {
        self.store.rows_read()
    }
}
