//! The reading of a source.
ghost use Rattle.std.specs.Prelude.{List, MatchOption, IfOk};
ghost use Rattle.ex_model.specs.Tree.{Tree};
ghost use Rattle.ex_model.specs.Reads.{Reads};
ghost use Rattle.ex_source.specs.Reading.{IsReading};

use crate::nesting::nests_within;
use crate::parser::parse;
use crate::tokens::tokens;
use ex_model::Ast;
use std::alloc::{AllocError, Global};

/// The expressions that a source reads as, or none where it reads as none. Its time is linear in
/// the source, and the depth of its nesting takes no stack.
pub fn read(alloc: Global, source: &str) -> Result<Option<Ast>, AllocError>
    ensures { IfOk result (λ r. MatchOption r ((trees : List Tree) → ¬ (Reads source.now trees)) (IsReading source.now)) }
{
    let Some(tokens) = tokens(alloc, source)? else {
        return Ok(None);
    };
    let within = nests_within(alloc, tokens.as_slice())?;
    if !within {
        return Ok(None);
    }
    let read = parse(alloc, tokens.as_slice())?;
    Ok(read)
}
