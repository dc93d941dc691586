//! Evaluations that are handed out.
ghost use Rattle.std.specs.Prelude.{◌≡◌, IfOk, map, MatchOption, None};
ghost use Rattle.ex_model.specs.Along.{After, MeansInCell};
ghost use Rattle.ex_model.specs.Bound.{put_all};
ghost use Rattle.ex_model.specs.declared.ran.Ran.{Ran as AnyRan};
ghost use Rattle.notebook.specs.Before.{left};
ghost use Rattle.notebook.specs.Flow.{passed};
ghost use Rattle.session_ops.specs.State.{source_bytes};
ghost use Rattle.session_core.specs.Jobs.{HasAfter};

use ex_machine::run;
use ex_model::Bindings;
use notebook::{Cell, CellId, FlowCells};
use std::alloc::{AllocError, Global};
use utf16_text::Text;

/// The steps that one cell's evaluation may take.
pub const STEPS: u64 = 200_000;

/// An evaluation that was handed out: its number, its cell, the source that is to be evaluated, and
/// the bindings over which it is to be.
#[derive(Drop)]
pub struct PlainJob {
    pub eval: u64,
    pub cell: CellId,
    pub source: Text,
    pub base: Bindings,
}

/// The bindings after some cells, evaluated one after the other from no bindings.
pub(crate) fn base_of(alloc: Global, cells: FlowCells<'_>) -> Result<Bindings, AllocError>
    ensures { HasAfter (map passed (left cells.entry))
        → IfOk result (λ b. After (map source_bytes (map passed (left cells.entry))) b) }
{
    let mut bindings = Bindings::new(alloc);
    let mut rest = cells;
    while let Some((cell, after)) = rest.next() {
        bindings = further(alloc, cell, bindings)?;
        rest = after;
    }
    Ok(bindings)
}

/// The bindings after one cell more.
fn further(alloc: Global, cell: &Cell, bindings: Bindings) -> Result<Bindings, AllocError>
    ensures { IfOk result (λ b. (ran : AnyRan)
        × MeansInCell (source_bytes (passed cell.now)) bindings ran
        × (b ≡ put_all bindings ran.made)) }
{
    let ran = run(alloc, cell.source.as_str(), &bindings, STEPS)?;
    bindings.with(&ran.made)
}
