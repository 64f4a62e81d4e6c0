//! The numbers that were heard.

ghost use Rattle.std.specs.Prelude.{◌≡◌, OnOk, OnErr};
ghost use Rattle.std.specs.Ordering.{nat_cmp};
ghost use Rattle.std.specs.FinMap.{empty, get, insert};

use crate::worker_answer::WorkerAnswer;
use std::alloc::{AllocError, Global};
use std::collections::BTreeMap;
use std::marker::Model;

/// The numbers of the requests that were heard, each with its first answer.
#[derive(Drop)]
pub struct ReplyCache {
    map: BTreeMap<u64, WorkerAnswer>,
}

impl Model for ReplyCache {
    ghost use Rattle.std.specs.Ordering.{nat_cmp};
    ghost use Rattle.std.specs.FinMap.{FinMap, from_entries, code};
    ghost use Rattle.std.specs.Coded.{coded_ℕ};
    ghost use Rattle.bm_work.specs.declared.worker_answer.WorkerAnswer.{WorkerAnswer};
    ghost use Rattle.bm_work.specs.contracts.worker_answer.WorkerAnswer as answer;

    ghost Value = { FinMap nat_cmp WorkerAnswer };

    ghost coded = { code coded_ℕ answer.the_row.coded };

    ghost view = { λ a. from_entries a.map.entries };
}

impl ReplyCache {
    /// No answer is kept. It takes no memory.
    pub fn new(alloc: Global) -> ReplyCache
        ensures { result ≡ empty }
    {
        ReplyCache {
            map: BTreeMap::new(alloc),
        }
    }

    /// The answer to that number, if it was heard.
    pub fn get(&self, number: u64) -> Option<WorkerAnswer>
        ensures { result ≡ get self.now number }
    {
        self.map.get(&number).copied()
    }

    /// Keeps the answer to that number. Want of memory changes nothing.
    pub fn insert(&mut self, number: u64, answer: WorkerAnswer) -> Result<(), AllocError>
        ensures ok { OnOk result (self.new ≡ insert self.old number answer) }
        ensures err { OnErr result (self.new ≡ self.old) }
    {
        self.map.insert(number, answer)?;
        Ok(())
    }
}
