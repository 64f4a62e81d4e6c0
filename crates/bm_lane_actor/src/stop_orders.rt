//! The orders to interrupt commands that a lane has yet to take.

ghost use Rattle.std.specs.Prelude.{◌≡◌, ◌++◌, ◌∷◌, [], OnOk, OnErr};
ghost use Rattle.bm_lane_actor.specs.StopOrders.{after_try, due};

use crate::connection_state::ConnectionState;
use crate::order_outcome::OrderOutcome;
use std::alloc::{AllocError, Global};

/// The commands that are to be interrupted, oldest order first. A lane that is cut takes no order:
/// it is kept until the session is resumed or given up.
#[derive(Drop)]
pub struct StopOrders {
    commands: Vec<u64>,
}

impl StopOrders {
    /// No order is kept.
    pub fn new(alloc: Global) -> StopOrders
        ensures { result.commands.items ≡ [] }
    {
        StopOrders {
            commands: Vec::new(alloc),
        }
    }

    /// Keeps the order to interrupt this command. Want of memory changes nothing.
    pub fn keep(&mut self, command: u64) -> Result<(), AllocError>
        ensures kept { OnOk result (self.new.commands.items ≡ self.old.commands.items ++ command ∷ []) }
        ensures unchanged { OnErr result (self.new.commands.items ≡ self.old.commands.items) }
    {
        self.commands.reserve(1)?;
        self.commands.push_reserved(command);
        Ok(())
    }

    /// The command that is to be interrupted now, on a lane that is connected so. None while the
    /// lane is cut.
    pub fn due(&self, connection: ConnectionState) -> Option<u64>
        ensures { result ≡ due connection self.now.commands.items }
    {
        match connection {
            ConnectionState::Cut => None,
            ConnectionState::Up | ConnectionState::Down => self.commands.first().copied(),
        }
    }

    /// The first order was tried, and this came of it: it is kept where it is to be tried later.
    pub fn tried(&mut self, outcome: OrderOutcome)
        ensures { self.new.commands.items ≡ after_try outcome self.old.commands.items }
    {
        if outcome != OrderOutcome::Later && !self.commands.is_empty() {
            self.commands.remove(0);
        }
    }
}
