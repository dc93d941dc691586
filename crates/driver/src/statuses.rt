//! The printed states of the cells.
ghost use Rattle.std.specs.Prelude.{◌≡◌, OnOk};
ghost use Rattle.notebook.specs.declared.parts.Parts.{Parts as PartsValue};
ghost use Rattle.notebook.specs.Flow.{section_lane};
ghost use Rattle.lanes.specs.declared.work.Work.{Work};
ghost use Rattle.transcript.specs.Texts.{ended_line};
ghost use Rattle.driver.specs.Statuses.{Tells, HasPath, HasPathIfCode, AllHavePaths, AllSectionsHavePaths, cell_line, line_of_kind, code_lines, section_code_lines, setup_line, status_lines, Lists};
ghost use Rattle.transcript.specs.Printed.{Appends, AppendsLines};

use notebook::{Cell, CellId, Kind, Lane, Parts, Section};
use session_core::{Row, Session};
use std::alloc::{AllocError, Global};
use transcript::push_state;

/// Puts the states of the setup and code cells of a notebook in its order, a line each.
pub(crate) fn push_statuses(
    out: &mut String,
    alloc: Global,
    book: &Parts,
    session: &Session,
) -> Result<(), AllocError>
    ensures { (w : Work) → Tells book.now w session.now
        → OnOk result (AppendsLines (status_lines book.now w) out.old out.new) }
{
    push_setup(out, alloc, &book.setup, session)?;
    push_sections(out, alloc, book.sections.as_slice(), session)?;
    Ok(())
}

/// The setup cell's state, unless its source is empty.
fn push_setup(
    out: &mut String,
    alloc: Global,
    setup: &Cell,
    session: &Session,
) -> Result<(), AllocError>
    ensures { Lists result (λ n. HasPath n setup.now.id) (λ n w. setup_line n w setup.now)
        session.now out.old out.new }
{
    if setup.source.is_empty() {
        return Ok(());
    }
    push_cell(out, alloc, setup.id, Lane::Main, session)?;
    Ok(())
}

fn push_sections(
    out: &mut String,
    alloc: Global,
    sections: &[Section],
    session: &Session,
) -> Result<(), AllocError>
    ensures { Lists result (λ n. AllSectionsHavePaths n sections.now)
        (λ n w. section_code_lines n w sections.now) session.now out.old out.new }
{
    for section in sections {
        push_section(out, alloc, section, session)?;
    }
    Ok(())
}

fn push_section(
    out: &mut String,
    alloc: Global,
    section: &Section,
    session: &Session,
) -> Result<(), AllocError>
    ensures { Lists result (λ n. AllHavePaths n section.now.cells)
        (λ n w. code_lines n w (section_lane section.now) section.now.cells)
        session.now out.old out.new }
{
    push_cells(
        out,
        alloc,
        lane_of(section),
        section.cells.as_slice(),
        session,
    )?;
    Ok(())
}

/// The lane of a section's cells.
fn lane_of(section: &Section) -> Lane
    ensures { result ≡ section_lane section.now }
{
    match section.parent {
        None => Lane::Main,
        Some(_) => Lane::Branch(section.id),
    }
}

fn push_cells(
    out: &mut String,
    alloc: Global,
    home: Lane,
    cells: &[Cell],
    session: &Session,
) -> Result<(), AllocError>
    ensures { Lists result (λ n. AllHavePaths n cells.now) (λ n w. code_lines n w home cells.now)
        session.now out.old out.new }
{
    for cell in cells {
        push_code(out, alloc, home, cell, session)?;
    }
    Ok(())
}

/// The state of a code cell; nothing for any other.
fn push_code(
    out: &mut String,
    alloc: Global,
    home: Lane,
    cell: &Cell,
    session: &Session,
) -> Result<(), AllocError>
    ensures { Lists result (λ n. HasPathIfCode n cell.now cell.now.kind)
        (λ n w. line_of_kind n w home cell.now cell.now.kind) session.now out.old out.new }
{
    match cell.kind {
        Kind::Setup | Kind::Markdown => Ok(()),
        Kind::Code => {
            push_cell(out, alloc, cell.id, home, session)?;
            Ok(())
        }
    }
}

/// The state of a cell that has a path.
fn push_cell(
    out: &mut String,
    alloc: Global,
    cell: CellId,
    home: Lane,
    session: &Session,
) -> Result<(), AllocError>
    ensures { (n : PartsValue) (w : Work) → Tells n w session.now → HasPath n cell
        → OnOk result (Appends (ended_line (cell_line n w home cell)) out.old out.new) }
{
    match session.row(cell) {
        None => Ok(()),
        Some(
            Row {
                status,
                validity,
                shown,
            },
        ) => {
            push_state(out, alloc, cell, home, status, validity, shown)?;
            Ok(())
        }
    }
}
