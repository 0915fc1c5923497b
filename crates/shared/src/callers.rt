//! Callers, without a session and with one.

use crate::rule::{Room, Token};
use sessions::SessionId;
use std::marker::{Model, PhantomData};

/// A caller without a session. Contracts see which beginning of the history it has seen, and the
/// calls that it made.
#[derive(Drop)]
pub struct Client<J: Room> {
    pub(crate) token: Token,
    pub(crate) of: PhantomData<J>,
}

impl<J: Room> Model for Client<J> {
    ghost use Rattle.std.specs.Prelude.{◌≡◌, true, None, []};
    ghost use Rattle.crossbeam_utils.specs.Seq.{cell_view};
    ghost use Rattle.shared.specs.Views.{Past, past};

    ghost Value = { Past };

    ghost view = { λ c. past (cell_view c.token) };

    ghost invariant = { λ c. (c.token.table_id ≡ J.table) × (c.token.me.1 ≡ []) × ((cell_view c.token).calls ≡ true)
        × ((cell_view c.token).at ≡ None) };
}

/// A caller with a session, which has to be ended: there is no other way to spend it.
pub struct Session<J: Room> {
    pub(crate) id: SessionId,
    pub(crate) token: Token,
    pub(crate) of: PhantomData<J>,
}

impl<J: Room> Model for Session<J> {
    ghost use Rattle.std.specs.Prelude.{◌≡◌, true, Some, []};
    ghost use Rattle.crossbeam_utils.specs.Seq.{cell_view};
    ghost use Rattle.sessions.specs.OfCore.{number_of};
    ghost use Rattle.shared.specs.Views.{Past, past};

    ghost Value = { Past };

    ghost view = { λ c. past (cell_view c.token) };

    ghost invariant = { λ c. (c.token.table_id ≡ J.table) × (c.token.me.1 ≡ []) × ((cell_view c.token).calls ≡ true)
        × ((cell_view c.token).at ≡ Some (number_of c.id)) };
}
