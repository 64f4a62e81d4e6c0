//! The entries that a port keeps, one for each step that it started.

ghost use Rattle.std.specs.Prelude.{◌≡◌, ◌+◌, ◌<◌, ◌≤◌, ◌^◌, ◌++◌, ◌∷◌, [], List, IsOk, OnOk, OnErr};
ghost use Rattle.bm_runner.specs.Port.{IsAsking, asked, first_entry};
ghost use Rattle.bm_runner.specs.declared.port.Told.{Told};

use crate::port::{Polled, Told};
use std::alloc::{AllocError, Global};
use std::marker::Model;

/// The entries that a port keeps, oldest first.
///
/// A type of its own, so that no port has to prove for itself that memory is taken before a start.
#[derive(Drop)]
pub struct Entries {
    vec: Vec<Told>,
}

impl Model for Entries {
    ghost use Rattle.std.specs.Prelude.{◌-◌, vec_len, vec_capacity};
    ghost use Rattle.bm_runner.specs.Entries.{Kept};

    ghost Value = { Kept };

    ghost view = { λ e. record { told = e.vec.items; room = vec_capacity e.vec - vec_len e.vec } };
}

impl Entries {
    /// No entry. It takes no memory.
    pub fn new(alloc: Global) -> Entries
        ensures { result.told ≡ [] }
    {
        Entries {
            vec: Vec::new(alloc),
        }
    }

    /// The entries, in the order in which their commands were started.
    pub fn as_slice(&self) -> &[Told]
        ensures { result.now ≡ self.now.told }
    {
        self.vec.as_slice()
    }

    /// Makes room for one entry more, so that the next `begin` succeeds. It is called before each
    /// start: so every running command has an entry. Want of memory changes nothing.
    pub fn reserve(&mut self) -> Result<(), AllocError>
        ensures told { self.new.told ≡ self.old.told }
        ensures room { OnOk result (0 < self.new.room) }
        ensures more { self.old.room ≤ self.new.room }
        ensures succeeds { 0 < self.old.room → IsOk result }
        ensures err { OnErr result (self.new ≡ self.old) }
    {
        self.vec.reserve(1)
    }

    /// A command was started. Want of memory, which comes only without room, changes nothing.
    pub fn begin(&mut self, k: u64) -> Result<(), AllocError>
        ensures ok { OnOk result (self.new.told ≡ self.old.told ++ first_entry k ∷ []) }
        ensures room { OnOk result (self.old.room ≤ self.new.room + 1) }
        ensures succeeds { 0 < self.old.room → IsOk result }
        ensures err { OnErr result (self.new ≡ self.old) }
    {
        self.reserve()?;
        self.vec.push_reserved(Told {
            k,
            polls: 0,
            ended: None,
        });
        Ok(())
    }

    /// The last command said this.
    pub fn note(&mut self, k: u64, said: Polled)
        requires { IsAsking self.old.told k }
        ensures told { (before : List Told) (entry : Told) → self.old.told ≡ before ++ entry ∷ []
            → self.new.told ≡ before ++ asked entry said ∷ [] }
        ensures room { self.new.room ≡ self.old.room }
    {
        let last = self.vec.len() - 1;
        let entry = self.vec[last];
        self.vec[last] = after(entry, said);
    }
}

// The entry after its command was asked for once more.
fn after(entry: Told, said: Polled) -> Told
    requires { entry.polls + 1 < 2 ^ 64 }
    ensures { result ≡ asked entry said }
{
    Told {
        k: entry.k,
        polls: entry.polls + 1,
        ended: match said {
            Polled::Ended(outcome) => Some(outcome),
            _ => entry.ended,
        },
    }
}
