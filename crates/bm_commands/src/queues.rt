//! The machine of a worker's commands.

ghost use Rattle.std.specs.Prelude.{◌≡◌, IfOk, OnErr, OnOk};
ghost use Rattle.bm_commands.specs.Queues.{admitted, ended, fresh_queues, stepped, wake};

use crate::row::fresh_row;
use crate::table::{change, first_wake, lose_all, place_of, place_of_command, tick, turn};
use crate::values::{CommandRow, Effect, Input, ProcessInput};
use std::alloc::{AllocError, Global};
use std::marker::Model;

/// The commands of a worker, in the order of their turns, and the processes that it still owes a
/// look.
#[derive(Drop)]
pub struct CommandQueues {
    rows: Vec<CommandRow>,
    started: u64,
    /// The latest time that was handed in.
    now_ms: u64,
    is_ending: bool,
}

impl Model for CommandQueues {
    ghost use Rattle.bm_commands.specs.Queues.{QueuesView};

    ghost Value = { QueuesView };

    ghost view = { λ q. record {
      rows = q.rows.items;
      started = q.started;
      now_ms = q.now_ms;
      is_ending = q.is_ending;
    } };
}

impl CommandQueues {
    /// No command runs.
    pub fn new(alloc: Global) -> CommandQueues
        ensures { result ≡ fresh_queues }
    {
        CommandQueues {
            rows: Vec::new(alloc),
            started: 0,
            now_ms: 0,
            is_ending: false,
        }
    }

    /// Takes a command in, and answers the number of its process, which is to be started next. This
    /// is the one call that takes memory.
    ///
    /// # Errors
    ///
    /// Want of memory. Nothing was changed.
    pub fn admit(&mut self, command: u64, now_ms: u64) -> Result<u64, AllocError>
        ensures number { IfOk result (λ process. process ≡ self.new.started) }
        ensures state { OnOk result (self.new ≡ admitted command now_ms self.old) }
        ensures refused { OnErr result (self.new ≡ self.old) }
    {
        self.rows.reserve(1)?;
        let Some(process) = self.started.checked_add(1) else {
            return Err(AllocError);
        };
        let now_ms = self.now_ms.max(now_ms);
        self.now_ms = now_ms;
        self.started = process;
        self.rows.push_reserved(fresh_row(process, command, now_ms));
        Ok(process)
    }

    /// What is to be done after this input. A time before one that was handed in is taken for that
    /// one.
    pub fn step(&mut self, input: Input, now_ms: u64) -> Effect
        ensures effect { result ≡ (stepped self.old now_ms input).1 }
        ensures state { self.new ≡ (stepped self.old now_ms input).0 }
    {
        self.now_ms = self.now_ms.max(now_ms);
        match input {
            Input::Process(process, told) => {
                let at = place_of(self.rows.as_slice(), process);
                change(self.rows.as_mut_slice(), at, self.now_ms, told)
            }
            Input::Interrupt(command) => {
                let at = place_of_command(self.rows.as_slice(), command);
                change(
                    self.rows.as_mut_slice(),
                    at,
                    self.now_ms,
                    ProcessInput::Interrupted,
                )
            }
            Input::SessionLost => {
                lose_all(self.rows.as_mut_slice());
                Effect::Nothing
            }
            Input::Ends => self.end(),
            Input::Tick => tick(&mut self.rows, self.now_ms),
            Input::Turn(may_say) => turn(&mut self.rows, may_say),
        }
    }

    /// All commands go, since the worker ends. What it started is killed once.
    fn end(&mut self) -> Effect
        ensures effect { result ≡ (ended self.old).1 }
        ensures state { self.new ≡ (ended self.old).0 }
    {
        self.rows.clear();
        if self.is_ending {
            return Effect::Nothing;
        }
        self.is_ending = true;
        Effect::SweepAll
    }

    /// By when a tick is wanted at the latest. None where it isn't.
    pub fn wake_at(&self) -> Option<u64>
        ensures { result ≡ wake self.now.rows }
    {
        first_wake(self.rows.as_slice())
    }
}
