//! What a worker reported. It exists in the proofs alone: it takes no memory, and its calls do
//! nothing.

ghost use Rattle.std.specs.Prelude.{◌≡◌, ℕ, List, [], ◌++◌};
ghost use Rattle.std.specs.Borrow.{ftrue};
ghost use Rattle.bm_work.specs.Stream.{Report};

use crate::sent::Finish;
use bm_lines::Letter;
use std::marker::Model;

/// What a worker reported in its session, and the numbers of its requests that were answered.
#[derive(Drop)]
pub(crate) struct History {
    pub ghost reports: { List Report },
    pub ghost answered: { List ℕ },
}

impl Model for History {
    ghost also_owns = { λ _. ftrue };
}

// It has no bytes, so a worker may go to another thread with it.
unsafe impl Send for History {}

unsafe impl Sync for History {}

/// What is added to a history.
#[derive(Clone, Copy, Drop)]
pub(crate) enum Note<'a> {
    /// A text of the command was said.
    Text(u64, Letter, &'a str),
    /// The command's end was reported.
    End(u64, &'a Finish),
    /// The request with that number was answered.
    WorkerAnswer(u64),
}

impl History {
    ghost use Rattle.bm_work.specs.Notes.{reported_by, answered_by};

    /// Nothing was reported.
    pub(crate) fn new() -> History
        ensures { (result.reports ≡ []) × (result.answered ≡ []) }
    {
        History {}
    }

    /// The history with what the note adds.
    pub(crate) fn with(&self, _note: &Note<'_>) -> History
        ensures { (result.reports ≡ self.now.reports ++ reported_by _note.now)
            × (result.answered ≡ self.now.answered ++ answered_by _note.now) }
    {
        History {}
    }
}
