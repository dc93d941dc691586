//! Plays tables over the crates of the language of cells, through their public calls, and prints a line for each:
//! `ok`, or the first row that isn't as wanted, or that a call was refused.
#![tactic(auto)]

mod bindings;
mod calls;
mod cells;
mod faults;
mod rows;
mod sources;
mod terms;
mod texts;
mod tokens;
mod trees;
mod values;
mod written;

use calls::misanswered;
use std::alloc::Global;
use std::io;
use tokens::miscut;
use trees::{blocks, brackets, deep, misread, operators, places, primaries};

fn main(rt: HostRuntime) -> io::Result<()> {
    let alloc = rt.alloc();
    tell_of_built(&rt, alloc)?;
    tell_of_terms(&rt, alloc)?;
    tell_of_calls(&rt, alloc)?;
    tell_of_tokens(&rt, alloc)?;
    tell_of_trees(&rt, alloc)?;
    Ok(())
}

/// Prints how a table went, of which the first row that is wrong is given: 0 where there is none.
fn tell<R: Print>(rt: &R, name: &str, answer: Option<usize>) -> io::Result<()> {
    match answer {
        Some(0) => println!(rt; "{name}: ok"),
        Some(row) => println!(rt; "{name}: row {row}"),
        None => println!(rt; "{name}: a call was refused"),
    }
}

/// The part of the language that is built.
fn tell_of_built<R: Print>(rt: &R, alloc: Global) -> io::Result<()> {
    tell(rt, "values of cells are shown", values::shown(alloc))?;
    tell(rt, "values of cells stand in order", values::ordered(alloc))?;
    tell(rt, "values of cells have sizes", values::sized(alloc))?;
    tell(rt, "names are bound", bindings::bound(alloc))?;
    tell(rt, "faults of cells are told", bindings::faults(alloc))?;
    tell(rt, "sources of cells are read", sources::short(alloc))?;
    tell(
        rt,
        "deep and long sources of cells are read",
        sources::long(alloc),
    )?;
    tell(rt, "cells are evaluated", cells::short(alloc))?;
    tell(rt, "deep and long cells are evaluated", cells::long(alloc))?;
    tell(
        rt,
        "cells are evaluated over bindings",
        cells::over_bindings(alloc),
    )
}

/// The whole values, and the faults over them.
fn tell_of_terms<R: Print>(rt: &R, alloc: Global) -> io::Result<()> {
    tell(rt, "values stand in order", terms::ordered(alloc))?;
    tell(rt, "texts have sizes", terms::texts_sized(alloc))?;
    tell(
        rt,
        "sizes end at the largest number",
        terms::doubled_sized(alloc),
    )?;
    tell(
        rt,
        "values are copied, and nest",
        terms::copied_and_deep(alloc),
    )?;
    tell(rt, "values are written in sources", texts::written(alloc))?;
    tell(rt, "values are shown to readers", texts::shown(alloc))?;
    tell(
        rt,
        "faults of words alone are told",
        faults::words_alone(alloc),
    )?;
    tell(rt, "faults of places are told", faults::places(alloc))?;
    tell(rt, "faults of values are told", faults::of_values(alloc))?;
    tell(rt, "faults of names are told", faults::of_names(alloc))
}

/// The built-in calls.
fn tell_of_calls<R: Print>(rt: &R, alloc: Global) -> io::Result<()> {
    tell(
        rt,
        "calls calculate",
        misanswered(alloc, calls::CALCULATING),
    )?;
    tell(
        rt,
        "calls read numerals",
        misanswered(alloc, calls::NUMERALS),
    )?;
    tell(rt, "calls work on lists", misanswered(alloc, calls::LISTS))?;
    tell(rt, "calls work on texts", misanswered(alloc, calls::TEXTS))?;
    tell(rt, "calls are refused", misanswered(alloc, calls::REFUSED))?;
    tell(rt, "calls are limited", calls::limited(alloc))
}

/// The tokens of the whole grammar.
fn tell_of_tokens<R: Print>(rt: &R, alloc: Global) -> io::Result<()> {
    tell(
        rt,
        "sources are cut into tokens",
        miscut(alloc, tokens::CUT),
    )?;
    tell(
        rt,
        "newlines separate or go",
        miscut(alloc, tokens::NEWLINES),
    )?;
    tell(
        rt,
        "the first refusal of a token stands",
        miscut(alloc, tokens::REFUSED),
    )?;
    tell(rt, "open texts nest without a limit", tokens::nested(alloc))
}

/// The trees of the whole grammar.
fn tell_of_trees<R: Print>(rt: &R, alloc: Global) -> io::Result<()> {
    tell(
        rt,
        "primaries are read",
        misread(alloc, primaries::PRIMARIES),
    )?;
    tell(
        rt,
        "operators are read",
        misread(alloc, operators::OPERATORS),
    )?;
    tell(rt, "matches are read", misread(alloc, operators::MATCHES))?;
    tell(
        rt,
        "tuples and lists are read",
        misread(alloc, brackets::TUPLES_AND_LISTS),
    )?;
    tell(rt, "calls are read", misread(alloc, brackets::CALLS))?;
    tell(rt, "ifs are read", misread(alloc, blocks::CONDITIONALS))?;
    tell(
        rt,
        "cases and conds are read",
        misread(alloc, blocks::CASES),
    )?;
    tell(rt, "fors are read", misread(alloc, blocks::COMPREHENSIONS))?;
    tell(rt, "bodies are read", misread(alloc, places::BODIES))?;
    tell(
        rt,
        "the first refusal stands",
        misread(alloc, places::REFUSALS),
    )?;
    tell(rt, "levels are counted", deep::levels(alloc))?;
    tell(rt, "deep sources take no stack", deep::deep(alloc))?;
    tell(rt, "long sources take no stack", deep::long(alloc))?;
    tell(
        rt,
        "a long list within many is no pattern",
        deep::no_pattern(alloc),
    )
}
