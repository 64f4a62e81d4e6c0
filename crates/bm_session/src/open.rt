//! An open command of a session.

ghost use Rattle.std.specs.Prelude.{◌≡◌, ◌==◌, ◌||◌, ◌<◌, ℕ, false, map, find, if◌then◌else◌, Some, None, vec_capacity};
ghost use Rattle.bm_session.specs.Events.{is_fault as is_fault_event};
ghost use Rattle.bm_session.specs.Trace.{result_of_rc};
ghost use Rattle.bm_session.specs.Table.{with_stop, with_told, ends_as as ends_as_lem};
ghost use Rattle.bm_session.specs.declared.open.Open.{Open};
ghost use Rattle.bm_session.specs.declared.event.Event.{Event};

use crate::event::Body;
use crate::results::Results;
use bm_value::Num;

/// A command that was started and of which the worker hasn't told the end.
#[derive(Clone, Copy)]
pub struct Open {
    pub command: u64,
    /// The number of the order that started it.
    pub order: u64,
    /// Whether a stop of it was ordered.
    pub stopped: bool,
    /// What its last exit code says.
    pub told: Results,
}

impl Open {
    /// The entry after a stop of the command.
    fn after_stop(&self, command: u64) -> Open
        ensures { result ≡ with_stop command self.now }
    {
        Open {
            stopped: self.stopped || command == self.command,
            ..*self
        }
    }

    /// The entry after an exit code of the command.
    fn after_told(&self, command: u64, told: Results) -> Open
        ensures { result ≡ with_told command told self.now }
    {
        if command == self.command {
            Open { told, ..*self }
        } else {
            *self
        }
    }

    /// How the command ends, by a fault or by a complete.
    pub fn ends_as(&self, fault: bool) -> Results
        ensures { result ≡ ends_as_lem self.now fault }
    {
        if self.stopped {
            Results::Cancelled
        } else if fault {
            Results::Exception
        } else {
            self.told
        }
    }
}

/// Whether the message is a complete with a fault, or the refusal of an order.
pub(crate) fn is_fault(body: &Body) -> bool
    ensures { (n : ℕ) → result ≡ is_fault_event (Event.In n body.now) }
{
    match body {
        Body::Complete { fault, .. } | Body::Answered { fault } => *fault,
        _ => false,
    }
}

/// What an exit code says.
pub(crate) fn result_of_code(code: Num) -> Results
    ensures { result ≡ result_of_rc (Some code) }
{
    if code.value() == 0 {
        Results::Success
    } else {
        Results::Failure
    }
}

/// The command, if it is open.
pub(crate) fn with_command(listed: &[Open], command: u64) -> Option<Open>
    ensures { result ≡ find (λ (o : Open). command == o.command) listed.now }
{
    for entry in listed {
        if command == entry.command {
            return Some(*entry);
        }
    }
    None
}

/// The open command that the order started, if there is one.
pub(crate) fn with_order(listed: &[Open], order: u64) -> Option<Open>
    ensures { result ≡ find (λ (o : Open). o.order == order) listed.now }
{
    for entry in listed {
        if entry.order == order {
            return Some(*entry);
        }
    }
    None
}

/// Notes a stop of the command.
pub(crate) fn note_stop(listed: &mut Vec<Open>, command: u64)
    ensures items { listed.new.items ≡ map (with_stop command) listed.old.items }
    ensures capacity { vec_capacity listed.new ≡ vec_capacity listed.old }
{
    for i in 0..listed.len() {
        let entry = listed[i].after_stop(command);
        listed[i] = entry;
    }
}

/// Notes what the command's last exit code says.
pub(crate) fn note_told(listed: &mut Vec<Open>, command: u64, told: Results)
    ensures items { listed.new.items ≡ map (with_told command told) listed.old.items }
    ensures capacity { vec_capacity listed.new ≡ vec_capacity listed.old }
{
    for i in 0..listed.len() {
        let entry = listed[i].after_told(command, told);
        listed[i] = entry;
    }
}
