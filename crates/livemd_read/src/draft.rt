//! The notebook and the notices that settled items make, one after the other.
ghost use Rattle.std.specs.Prelude.{◌≡◌, ◌^◌, ◌<◌, [], length, chars, IfOk, OnOk};
ghost use Rattle.livemd_format.specs.Made.{stem_at};
ghost use Rattle.livemd_format.specs.Walk.{add_last_output, keep, new_draft, take_branch, take_cell, take_name, take_output, take_section, take_setup, with_cell, with_item, with_notice, with_output, with_section, with_some_section};
ghost use Rattle.livemd_read.specs.Views.{draft_of, item_of};

use crate::items::Item;
use livemd_format::{Notice, NoticeKind};
use notebook::{Cell, Kind, Notebook, Parts, Saved, Section, SectionId};
use plain_list::Items;
use std::alloc::{AllocError, Global};
use std::mem;
use utf16_text::Text;

/// The notebook so far.
#[derive(Debug, Drop)]
pub(crate) struct Draft {
    pub(crate) parts: Parts,
    /// The section from which the next one branches, if it does.
    pub(crate) parent: Option<SectionId>,
    /// Kept lines that wait for a name, a section or a cell.
    pub(crate) waiting: Items<Text>,
    pub(crate) notices: Items<Notice>,
}

/// Puts a section with the next number at the end.
fn push_section(
    alloc: Global,
    parts: &mut Parts,
    name: &str,
    before: Items<Text>,
    parent: Option<SectionId>,
) -> Result<(), AllocError>
    requires { parts.old.next_section < 2 ^ 63 }
    ensures ok { OnOk result (parts.new ≡ with_section (chars name.now) before parent parts.old) }
{
    parts.sections.push(Section {
        id: parts.next_section,
        name: Text::of(alloc, name)?,
        before,
        parent,
        cells: Items::new(alloc),
    })?;
    parts.next_section += 1;
    Ok(())
}

/// Makes the section `Section` where there is none.
fn need_section(alloc: Global, parts: &mut Parts) -> Result<(), AllocError>
    requires { parts.old.next_section < 2 ^ 63 }
    ensures ok { OnOk result (parts.new ≡ with_some_section parts.old) }
    ensures some { OnOk result (0 < length parts.new.sections) }
    ensures cells { OnOk result (parts.new.next_cell ≡ parts.old.next_cell) }
{
    if parts.sections.is_empty() {
        push_section(alloc, parts, "Section", Items::new(alloc), None)?;
    }
    Ok(())
}

/// Puts a cell with the next number at the end of the last section.
fn push_cell(
    alloc: Global,
    parts: &mut Parts,
    kind: Kind,
    source: &str,
    before: Items<Text>,
) -> Result<(), AllocError>
    requires section { 0 < length parts.old.sections }
    requires number { parts.old.next_cell < 2 ^ 63 }
    ensures ok { OnOk result (parts.new ≡ with_cell kind (chars source.now) before parts.old) }
{
    let cell = Cell {
        id: parts.next_cell,
        kind,
        source: Text::of(alloc, source)?,
        before,
        saved: Items::new(alloc),
    };
    let last = parts.sections.len() - 1;
    let section = parts.sections.item_mut(last);
    section.cells.push(cell)?;
    parts.next_cell += 1;
    Ok(())
}

/// Gives the last cell of a section one saved output more.
fn push_cell_output(section: &mut Section, output: Saved) -> Result<(), AllocError>
    ensures ok { OnOk result (section.new ≡ add_last_output output section.old) }
{
    let count = section.cells.len();
    if count == 0 {
        return Ok(());
    }
    let cell = section.cells.item_mut(count - 1);
    cell.saved.push(output)?;
    Ok(())
}

/// Gives the last cell one saved output more: the setup cell where there is no section yet.
fn push_output(parts: &mut Parts, output: Saved) -> Result<(), AllocError>
    ensures ok { OnOk result (parts.new ≡ with_output output parts.old) }
{
    let count = parts.sections.len();
    if count == 0 {
        parts.setup.saved.push(output)?;
        return Ok(());
    }
    let section = parts.sections.item_mut(count - 1);
    push_cell_output(section, output)?;
    Ok(())
}

/// The section with the index, from 0, if others may branch from it.
fn stem_at(sections: &[Section], index: u64) -> Option<SectionId>
    ensures { result ≡ stem_at index sections.now }
{
    let section = sections.get(index as usize)?;
    if section.parent.is_none() {
        Some(section.id)
    } else {
        None
    }
}

impl Draft {
    /// A new notebook.
    pub(crate) fn new(alloc: Global) -> Result<Draft, AllocError>
        ensures { IfOk result (λ d. draft_of d ≡ new_draft) }
    {
        Ok(Draft {
            parts: Notebook::untitled(alloc)?.into_parts(),
            parent: None,
            waiting: Items::new(alloc),
            notices: Items::new(alloc),
        })
    }

    /// The kept lines that wait; none waits any more.
    fn take_waiting(&mut self, alloc: Global) -> Items<Text>
        ensures lines { result ≡ self.old.waiting }
        ensures rest { self.new ≡ record self.old { waiting = [] } }
    {
        mem::replace(&mut self.waiting, Items::new(alloc))
    }

    fn take_name(&mut self, alloc: Global, name: &str) -> Result<(), AllocError>
        ensures ok { OnOk result
            (draft_of self.new ≡ take_name (chars name.now) (draft_of self.old)) }
    {
        self.parts.name = Text::of(alloc, name)?;
        self.parts.before = self.take_waiting(alloc);
        Ok(())
    }

    fn take_section(&mut self, alloc: Global, name: &str) -> Result<(), AllocError>
        requires { self.old.parts.next_section < 2 ^ 63 }
        ensures ok { OnOk result
            (draft_of self.new ≡ take_section (chars name.now) (draft_of self.old)) }
    {
        let before = self.take_waiting(alloc);
        push_section(alloc, &mut self.parts, name, before, self.parent)?;
        self.parent = None;
        Ok(())
    }

    fn take_setup(&mut self, alloc: Global, source: &str) -> Result<(), AllocError>
        ensures ok { OnOk result
            (draft_of self.new ≡ take_setup (chars source.now) (draft_of self.old)) }
    {
        self.parts.setup.source = Text::of(alloc, source)?;
        self.parts.setup.before = self.take_waiting(alloc);
        Ok(())
    }

    fn take_cell(&mut self, alloc: Global, kind: Kind, source: &str) -> Result<(), AllocError>
        requires sections { self.old.parts.next_section < 2 ^ 63 }
        requires cells { self.old.parts.next_cell < 2 ^ 63 }
        ensures ok { OnOk result
            (draft_of self.new ≡ take_cell kind (chars source.now) (draft_of self.old)) }
    {
        let before = self.take_waiting(alloc);
        need_section(alloc, &mut self.parts)?;
        push_cell(alloc, &mut self.parts, kind, source, before)?;
        Ok(())
    }

    fn notice(&mut self, line: u64, kind: NoticeKind) -> Result<(), AllocError>
        ensures ok { OnOk result (draft_of self.new ≡ with_notice line kind (draft_of self.old)) }
    {
        self.notices.push(Notice { line, kind })?;
        Ok(())
    }

    fn take_branch(&mut self, line: u64, parent: Option<SectionId>) -> Result<(), AllocError>
        ensures ok { OnOk result (draft_of self.new ≡ take_branch line parent (draft_of self.old)) }
    {
        match parent {
            Some(_) => {
                self.parent = parent;
                Ok(())
            }
            None => self.notice(line, NoticeKind::BadBranch),
        }
    }

    fn keep(&mut self, alloc: Global, line: &str) -> Result<(), AllocError>
        ensures ok { OnOk result (draft_of self.new ≡ keep (chars line.now) (draft_of self.old)) }
    {
        self.waiting.push(Text::of(alloc, line)?)?;
        Ok(())
    }

    fn take_output(&mut self, alloc: Global, info: &str, text: &str) -> Result<(), AllocError>
        ensures ok { OnOk result
            (draft_of self.new ≡ take_output (chars info.now) (chars text.now)
            (draft_of self.old)) }
    {
        let output = Saved {
            info: Text::of(alloc, info)?,
            text: Text::of(alloc, text)?,
        };
        push_output(&mut self.parts, output)?;
        Ok(())
    }

    /// Takes a settled item.
    pub(crate) fn take(&mut self, alloc: Global, item: &Item<'_>) -> Result<(), AllocError>
        requires sections { self.old.parts.next_section < 2 ^ 63 }
        requires cells { self.old.parts.next_cell < 2 ^ 63 }
        ensures ok { OnOk result
            (draft_of self.new ≡ with_item (draft_of self.old) (item_of item.now)) }
    {
        match item {
            Item::Name(name) => self.take_name(alloc, name),
            Item::Section(name) => self.take_section(alloc, name),
            Item::Setup(source) => self.take_setup(alloc, source.as_str()),
            Item::Code(source) => self.take_cell(alloc, Kind::Code, source.as_str()),
            Item::Markdown(source) => self.take_cell(alloc, Kind::Markdown, source.as_str()),
            Item::Saved { info, text } => self.take_output(alloc, info, text.as_str()),
            Item::Kept(line) => self.keep(alloc, line),
            Item::Branch { line, index } => {
                let parent = stem_at(self.parts.sections.as_slice(), *index);
                self.take_branch(*line, parent)
            }
            Item::Misplaced { line } => self.notice(*line, NoticeKind::Misplaced),
            Item::Stamp(_) | Item::Dropped => Ok(()),
        }
    }
}
