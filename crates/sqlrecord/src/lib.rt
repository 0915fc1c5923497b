//! Rows, keys and slotted pages as bytes.
#![tactic(auto)]

mod build;
mod cell;
mod characters;
mod error;
mod key;
mod key_check;
mod key_decode;
mod kind;
mod laws;
mod page;
mod row;
mod row_check;
mod sound;
mod splice;

pub use build::{build_page, fits};
pub use cell::{are_cells, inner_cell, leaf_cell};
pub use error::{DecodeError, EncodeError};
pub use key::{MAXIMUM_KEY, encode_index_key, encode_key};
pub use key_decode::{decode_key, row_number_of};
pub use kind::PageKind;
pub use laws::{
    cells_of_pages_fit, codes_have_their_lengths, keys_keep_order, keys_tell_apart, rows_tell_apart,
};
pub use page::{KeptCells, SlotPage, is_node};
pub use row::{MAXIMUM_ROW, decode_row, encode_row};
pub use splice::splice_page;

/// The bytes of a page.
pub const PAGE_SIZE: usize = 4096;
