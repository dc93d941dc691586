//! What an evaluation gave, as it is handed back.
ghost use Rattle.std.specs.Prelude.{◌≡◌, IfOk};

use ex_model::{Ran, Shown};
use std::alloc::AllocError;
use std::marker::Model;

/// What an evaluation gave. What it shows is there twice, for the history and for the cell, so that its
/// answer takes no memory. Contracts see it as the `Ran` that it is.
#[derive(Drop)]
pub struct Evaluated {
    ran: Ran,
    kept: Shown,
}

impl Model for Evaluated {
    ghost use Rattle.std.specs.Prelude.{◌≡◌};
    ghost use Rattle.ex_model.specs.declared.ran.Ran.{Ran as AnyRan};

    ghost Value = { AnyRan };

    ghost view = { λ e. e.ran };

    ghost invariant = { λ e. e.kept ≡ e.ran.shown };
}

impl Evaluated {
    /// What an evaluation gave, made ready to be handed back.
    pub fn of(ran: Ran) -> Result<Evaluated, AllocError>
        ensures { IfOk result (λ e. e ≡ ran) }
    {
        let kept = ran.shown.copy()?;
        Ok(Evaluated { ran, kept })
    }

    /// What the evaluation showed, twice. Takes no memory.
    pub(crate) fn twice(self) -> (Shown, Shown)
        ensures { (result.0 ≡ self.shown) × (result.1 ≡ self.shown) }
    {
        let Evaluated { ran, kept } = self;
        (ran.shown, kept)
    }
}
