//! The rule of the table, and the meaning of its steps.
ghost use Rattle.std.specs.Prelude.{Bool};
ghost use Rattle.plain_store.specs.{Setup};
ghost use Rattle.board.specs.Views.{ViewState};

use atomic_table::{Join, Play, Split, TableRule};
use std::marker::{Brand, Model, PhantomData};

/// The ghost state of a seat. No value of it is made.
pub struct View {
    marker: PhantomData<u8>,
    pub ghost state: { ViewState },
}

impl Model for View {
    ghost use Rattle.board.specs.Views.{ViewState};
    ghost use base.Fml.{ftrue};

    ghost Value = { ViewState };

    ghost view = { λ v. v.state };

    ghost also_owns = { λ _. ftrue };
}

/// The rule: words and views agree.
pub struct Agreement;

impl TableRule<(), View, plain_store::Setup> for Agreement {
    ghost use Rattle.board.specs.Agreement.{Agree};
    ghost use Rattle.board.specs.Views.{first_view};

    ghost holds = { λ s t. Agree s t.words t.views };

    ghost first = { λ s. first_view };
}

/// A word step, for the proof alone: its setup, its flick, and the view of its seat after the events of its process
/// since the seat's last word step.
pub trait Turn {
    ghost setup: { Setup };

    ghost flick: { Bool };

    ghost view: { ViewState };
}

impl Turn for Brand {
    ghost use Rattle.std.specs.Prelude.{false};
    ghost use Rattle.board.specs.WordSteps.{any_setup};
    ghost use Rattle.board.specs.Views.{first_view};

    ghost setup = { any_setup };

    ghost flick = { false };

    ghost view = { first_view };
}

/// The meaning of a load.
pub struct Load<T> {
    turn: PhantomData<T>,
}

impl<T: Turn> Play<(), View> for Load<T> {
    ghost use Rattle.board.specs.WordSteps.{Loads};
    ghost use Rattle.std.specs.Prelude.{◌≡◌};

    ghost then = { λ _ before found after. Loads T.setup T.flick T.view found after.0 × (after.1 ≡ before.1) };
}

/// The meaning of a store.
pub struct WordStore<T> {
    turn: PhantomData<T>,
}

impl<T: Turn> Play<(), View> for WordStore<T> {
    ghost use Rattle.board.specs.WordSteps.{Stores};
    ghost use Rattle.std.specs.Prelude.{◌≡◌};

    ghost then = { λ _ before _ after. Stores T.setup T.flick T.view after.0 × (after.1 ≡ before.1) };
}

/// The split that makes the next port's seat from port 0's.
pub struct SeatSplit;

impl Split<View> for SeatSplit {
    ghost use Rattle.board.specs.Views.{new_view, with_made};

    ghost left = { with_made };

    ghost right = { λ v. new_view v.made 0 };
}

/// The join of a port's seat to port 0's.
pub struct SeatJoin;

impl Join<View> for SeatJoin {
    ghost use Rattle.board.specs.Views.{spent_view, with_joined};

    ghost both = { with_joined };

    ghost spent = { spent_view };
}
