//! What carries out commands, and what it tells of them.

use bm_board::StepPlan;
use bm_session::Results;

/// What a port told of one step that it started.
#[derive(Clone, Copy, PartialEq, Eq)]
pub struct Told {
    /// The command's number.
    pub k: u64,
    /// How often it was asked.
    pub polls: u64,
    /// How it ended, if it did.
    pub ended: Option<Results>,
}

/// What a port says of a command that it started.
#[derive(Clone, Copy, PartialEq, Eq)]
pub enum Polled {
    /// It runs.
    Running,
    /// It runs, and its build was cancelled.
    Cancel,
    /// It ended so.
    Ended(Results),
}

/// What carries out commands. It keeps what it told, an entry for each step that it started.
pub trait Port {
    ghost use Rattle.std.specs.Prelude.{◌≡◌, Bool, true, List, IfSome, IfNone, ◌++◌, ◌∷◌, []};
    ghost use Rattle.bm_runner.specs.declared.port.Told.{Told};
    ghost use Rattle.bm_runner.specs.Port.{asked, first_entry, IsAsking};

    /// The entries, oldest first.
    ghost told: { Self → List Told };

    /// A start was refused.
    ghost refused: { Self → Bool };

    /// Starts the step's command, and tells its number. None where it can't, or without memory.
    fn start(&mut self, step: &StepPlan) -> Option<u64>
        ensures started { IfSome result (λ k. told self.new ≡ told self.old ++ first_entry k ∷ []) }
        ensures stands { IfSome result (λ k. refused self.new ≡ refused self.old) }
        ensures nothing_told { IfNone result (told self.new ≡ told self.old) }
        ensures refuses { IfNone result (refused self.new ≡ true) };

    /// Asks how the last command does.
    fn poll(&mut self, k: u64) -> Polled
        requires { IsAsking (told self.old) k }
        ensures told { (before : List Told) (entry : Told) → told self.old ≡ before ++ entry ∷ []
            → told self.new ≡ before ++ asked entry result ∷ [] }
        ensures refused { refused self.new ≡ refused self.old };

    /// Interrupts the command.
    fn interrupt(&mut self, k: u64)
        ensures told { told self.new ≡ told self.old }
        ensures refused { refused self.new ≡ refused self.old };
}
