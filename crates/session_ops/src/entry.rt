//! Calls, replies and the entries of a history.
ghost use Rattle.std.specs.Prelude.{◌≡◌, IfOk};
ghost use Rattle.session_ops.specs.Structure.{change_of, is_postable};

use delta::Delta;
use ex_model::Shown;
use notebook::{CellId, CellKind, Change, Lane, SectionId};
use std::alloc::{AllocError, Global};
use utf16_text::Text;

/// What a client asks of the session. Places (`index`) are counted from 0 among what stands there
/// after what moves is taken out.
#[derive(Debug, Drop)]
pub enum Op {
    /// To take part: the client then knows the present revision of each cell.
    Join,
    /// To take part no more.
    Leave,
    /// To give the notebook a name.
    SetName {
        name: Text,
    },
    /// To put a new section without parent at a place.
    InsertSection {
        index: u64,
        name: Text,
    },
    /// To give a section a name.
    SetSectionName {
        section: SectionId,
        name: Text,
    },
    /// To delete a section from which none branches; its cells go to the bin.
    DeleteSection {
        section: SectionId,
    },
    /// To put a section at another place.
    MoveSection {
        section: SectionId,
        index: u64,
    },
    /// To have a section branch from an earlier one, or from none.
    SetParent {
        section: SectionId,
        parent: Option<SectionId>,
    },
    /// To put a new empty cell at a place in a section.
    InsertCell {
        section: SectionId,
        index: u64,
        kind: CellKind,
    },
    /// To put a cell into the bin.
    DeleteCell {
        cell: CellId,
    },
    /// To take a cell out of the bin, as a new cell with a number of its own.
    RestoreCell {
        cell: CellId,
        section: SectionId,
        index: u64,
    },
    /// To put a cell at another place, in this or another section.
    MoveCell {
        cell: CellId,
        section: SectionId,
        index: u64,
    },
    /// To edit a cell's source by a delta that was made at the cell's revision `base`.
    Delta {
        cell: CellId,
        base: u64,
        delta: Delta,
    },
    /// To tell that the client has a cell's revision `rev`, and will build on none before it.
    Report {
        cell: CellId,
        rev: u64,
    },
    /// To have a setup or code cell evaluated, and before it what it stands on.
    Queue {
        cell: CellId,
    },
    /// To have a cell neither queued nor running any more.
    Cancel {
        cell: CellId,
    },
}

impl Op {
    /// Whether a client may post it as it is: a join and a leave are made at once, and deltas and
    /// reports are posted by calls of their own.
    pub fn is_postable(&self) -> bool
        ensures { result ≡ is_postable self.now }
    {
        !matches!(
            self,
            Op::Join | Op::Leave | Op::Delta { .. } | Op::Report { .. }
        )
    }

    /// The change of the notebook's structure that it asks for; `None` where it asks for none.
    pub fn change(&self) -> Result<Option<Change>, AllocError>
        ensures { IfOk result (λ asked. asked ≡ change_of self.now) }
    {
        match self {
            Op::SetName { name } => Ok(Some(Change::SetName { name: name.copy()? })),
            Op::InsertSection { index, name } => Ok(Some(Change::InsertSection {
                index: *index,
                name: name.copy()?,
            })),
            Op::SetSectionName { section, name } => Ok(Some(Change::SetSectionName {
                section: *section,
                name: name.copy()?,
            })),
            Op::DeleteSection { section } => Ok(Some(Change::DeleteSection { section: *section })),
            Op::MoveSection { section, index } => Ok(Some(Change::MoveSection {
                section: *section,
                index: *index,
            })),
            Op::SetParent { section, parent } => Ok(Some(Change::SetParent {
                section: *section,
                parent: *parent,
            })),
            Op::InsertCell {
                section,
                index,
                kind,
            } => Ok(Some(Change::InsertCell {
                section: *section,
                index: *index,
                kind: *kind,
            })),
            Op::DeleteCell { cell } => Ok(Some(Change::DeleteCell { cell: *cell })),
            Op::RestoreCell {
                cell,
                section,
                index,
            } => Ok(Some(Change::RestoreCell {
                cell: *cell,
                section: *section,
                index: *index,
            })),
            Op::MoveCell {
                cell,
                section,
                index,
            } => Ok(Some(Change::MoveCell {
                cell: *cell,
                section: *section,
                index: *index,
            })),
            Op::Join
            | Op::Leave
            | Op::Delta { .. }
            | Op::Report { .. }
            | Op::Queue { .. }
            | Op::Cancel { .. } => Ok(None),
        }
    }

    /// An equal operation.
    pub fn copy(&self, alloc: Global) -> Result<Op, AllocError>
        ensures { IfOk result (λ op. op ≡ self.now) }
    {
        match self {
            Op::Join => Ok(Op::Join),
            Op::Leave => Ok(Op::Leave),
            Op::SetName { name } => Ok(Op::SetName { name: name.copy()? }),
            Op::InsertSection { index, name } => Ok(Op::InsertSection {
                index: *index,
                name: name.copy()?,
            }),
            Op::SetSectionName { section, name } => Ok(Op::SetSectionName {
                section: *section,
                name: name.copy()?,
            }),
            Op::DeleteSection { section } => Ok(Op::DeleteSection { section: *section }),
            Op::MoveSection { section, index } => Ok(Op::MoveSection {
                section: *section,
                index: *index,
            }),
            Op::SetParent { section, parent } => Ok(Op::SetParent {
                section: *section,
                parent: *parent,
            }),
            Op::InsertCell {
                section,
                index,
                kind,
            } => Ok(Op::InsertCell {
                section: *section,
                index: *index,
                kind: *kind,
            }),
            Op::DeleteCell { cell } => Ok(Op::DeleteCell { cell: *cell }),
            Op::RestoreCell {
                cell,
                section,
                index,
            } => Ok(Op::RestoreCell {
                cell: *cell,
                section: *section,
                index: *index,
            }),
            Op::MoveCell {
                cell,
                section,
                index,
            } => Ok(Op::MoveCell {
                cell: *cell,
                section: *section,
                index: *index,
            }),
            Op::Delta { cell, base, delta } => Ok(Op::Delta {
                cell: *cell,
                base: *base,
                delta: delta.copy(alloc)?,
            }),
            Op::Report { cell, rev } => Ok(Op::Report {
                cell: *cell,
                rev: *rev,
            }),
            Op::Queue { cell } => Ok(Op::Queue { cell: *cell }),
            Op::Cancel { cell } => Ok(Op::Cancel { cell: *cell }),
        }
    }
}

/// One call of the session.
#[derive(Debug, Drop)]
pub enum Call {
    /// A client's.
    Client { client: u32, op: Op },
    /// An evaluator's: to be handed the lane's first due cell.
    Start { lane: Lane },
    /// An evaluator's: the evaluation of that number is done and showed this.
    Respond { eval: u64, shown: Shown },
}

impl Call {
    /// An equal call.
    pub fn copy(&self, alloc: Global) -> Result<Call, AllocError>
        ensures { IfOk result (λ call. call ≡ self.now) }
    {
        match self {
            Call::Client { client, op } => Ok(Call::Client {
                client: *client,
                op: op.copy(alloc)?,
            }),
            Call::Start { lane } => Ok(Call::Start { lane: *lane }),
            Call::Respond { eval, shown } => Ok(Call::Respond {
                eval: *eval,
                shown: shown.copy()?,
            }),
        }
    }
}

/// Why a client's call is refused, in the order of the checks. A refused call changes nothing.
#[derive(Clone, Copy, Debug, PartialEq, Eq)]
pub enum Refusal {
    /// The client hasn't joined.
    NotJoined,
    /// The client has joined already.
    AlreadyJoined,
    /// No live cell has the number; none in the bin for a restore; it is the setup cell, which can
    /// be neither deleted nor moved.
    NoCell,
    /// No live section has the number, or the given parent's.
    NoSection,
    /// The cell is no code: a Markdown cell. The setup cell counts as code.
    NotCode,
    /// The place is above `len`, the number of sections or of the section's cells after what moves
    /// is taken out.
    BadIndex { len: u64 },
    /// A branch would not stand after its parent, or a parent would have a parent.
    BadParent,
    /// Some section branches from this one.
    HasBranches,
    /// The notebook has no room for another cell, or another code cell.
    TooManyCells,
    /// The notebook has no room for another section.
    TooManySections,
    /// The base, or the revision that is reported, is above the cell's present revision `now`.
    TooNew { now: u64 },
    /// The base is below the least revision `kept` that some joined client may still build on.
    TooOld { kept: u64 },
    /// The delta reaches past the text's `len` UTF-16 units.
    PastEnd { len: u64 },
    /// The delta cuts the text inside the character at the UTF-16 units before and after `at`.
    SplitsPair { at: u64 },
    /// The cell stands on `cell`, which is evaluated and shows a fault.
    AncestorFailed { cell: CellId },
    /// The cell is neither queued nor running.
    NotQueued,
}

/// The session's answer to a call.
#[derive(Debug, Drop)]
pub enum Reply {
    /// Done, with nothing to tell.
    Accepted,
    /// The delta was applied, as `delta` says; the cell has now the revision `rev`.
    Applied { rev: u64, delta: Delta },
    /// The notebook has a new cell of this number.
    NewCell { cell: CellId },
    /// The notebook has a new section of this number.
    NewSection { section: SectionId },
    /// The evaluation of the number `eval` has begun, of the cell.
    Started { eval: u64, cell: CellId },
    /// What the evaluation showed is the cell's now.
    Stored { eval: u64 },
    /// The evaluation isn't the cell's running one any more; nothing was changed.
    Late { eval: u64 },
    /// Nothing was changed.
    Refused(Refusal),
}

impl Reply {
    /// An equal reply.
    pub fn copy(&self, alloc: Global) -> Result<Reply, AllocError>
        ensures { IfOk result (λ reply. reply ≡ self.now) }
    {
        match self {
            Reply::Accepted => Ok(Reply::Accepted),
            Reply::Applied { rev, delta } => Ok(Reply::Applied {
                rev: *rev,
                delta: delta.copy(alloc)?,
            }),
            Reply::NewCell { cell } => Ok(Reply::NewCell { cell: *cell }),
            Reply::NewSection { section } => Ok(Reply::NewSection { section: *section }),
            Reply::Started { eval, cell } => Ok(Reply::Started {
                eval: *eval,
                cell: *cell,
            }),
            Reply::Stored { eval } => Ok(Reply::Stored { eval: *eval }),
            Reply::Late { eval } => Ok(Reply::Late { eval: *eval }),
            Reply::Refused(why) => Ok(Reply::Refused(*why)),
        }
    }
}

/// A call with its answer, under the number of the caller's seat.
#[derive(Debug, Drop)]
pub struct Entry {
    pub by: u32,
    pub call: Call,
    pub reply: Reply,
}

impl Entry {
    /// An equal entry.
    pub fn copy(&self, alloc: Global) -> Result<Entry, AllocError>
        ensures { IfOk result (λ entry. entry ≡ self.now) }
    {
        Ok(Entry {
            by: self.by,
            call: self.call.copy(alloc)?,
            reply: self.reply.copy(alloc)?,
        })
    }
}
