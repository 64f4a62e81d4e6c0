//! The machine of a latent worker: the table by which it moves on.

ghost use Rattle.std.specs.Prelude.{◌≡◌, ℕ, ◌+◌, ◌≤◌, nat_le};
ghost use Rattle.bm_latent.specs.Latent.{act_after, idle_after, row, standing_after};

use crate::event::{Act, LatentEvent, LatentState};
use std::marker::Model;

/// A latent worker's state, the idle ticks counted and how many of them it may have.
#[derive(Debug, Drop)]
pub struct Latent {
    state: LatentState,
    idle: u32,
    limit: u32,
}

impl Model for Latent {
    ghost use Rattle.std.specs.Prelude.{◌≡◌, ◌<◌, ◌≤◌};
    ghost use Rattle.bm_latent.specs.declared.event.LatentState.TheVariants.{Substantiated};
    ghost use Rattle.bm_latent.specs.Latent.{LatentView};

    ghost Value = { LatentView };

    ghost view = { λ w. record { state = w.state; idle = w.idle; limit = w.limit } };

    ghost invariant = { λ w.
        (1 ≤ w.limit) × (w.idle ≤ w.limit) × (w.state ≡ Substantiated → w.idle < w.limit) };
}

impl Latent {
    /// A worker without a process. It is stopped after `limit` idle ticks with no want between.
    pub fn new(limit: u32) -> Latent
        requires { 1 ≤ limit }
        ensures { result ≡ record { state = LatentState.Not; idle = 0; limit = limit } }
    {
        Latent {
            state: LatentState::Not,
            idle: 0,
            limit,
        }
    }

    /// The state of the worker. What follows from an event depends on it. A process that ends is
    /// started again where the worker is `Waiting`, and its builds are lost where it is
    /// `Substantiated` or `Held`.
    pub fn state(&self) -> LatentState
        ensures { result ≡ self.now.state }
    {
        self.state
    }

    /// One event: moves on as the table says, and answers what is to be done.
    pub fn step(&mut self, event: LatentEvent) -> Act
        ensures standing { self.new ≡ standing_after self.old event }
        ensures act { result ≡ act_after self.old event }
    {
        let last = self.limit - self.idle <= 1;
        let idle = match (self.state, event) {
            (_, LatentEvent::Want) => 0,
            (LatentState::Substantiating, LatentEvent::Attached) => 0,
            (LatentState::Held, LatentEvent::Attached) => 0,
            (LatentState::Substantiated, LatentEvent::IdleTick) => self.idle + 1,
            _ => self.idle,
        };
        let (state, act) = find_row(self.state, event, last);
        *self = Latent {
            state,
            idle,
            limit: self.limit,
        };
        act
    }
}

// The table, row by row: the next state and the act. `last` says that an idle tick would be the
// last one allowed.
fn find_row(state: LatentState, event: LatentEvent, last: bool) -> (LatentState, Act)
    ensures { result ≡ row state event last }
{
    match (state, event) {
        (LatentState::Not, LatentEvent::Want) => (LatentState::Substantiating, Act::Start),
        (LatentState::Not, LatentEvent::Attached) => (LatentState::Insubstantiating, Act::Stop),
        (LatentState::Substantiating, LatentEvent::Failed) => (LatentState::Not, Act::None),
        (LatentState::Substantiating, LatentEvent::Attached) => {
            (LatentState::Substantiated, Act::Give)
        }
        (LatentState::Substantiating, LatentEvent::Stopped) => (LatentState::Not, Act::None),
        (LatentState::Substantiated, LatentEvent::Want) => (LatentState::Substantiated, Act::Give),
        (LatentState::Substantiated, LatentEvent::Lost) => {
            (LatentState::Insubstantiating, Act::Stop)
        }
        (LatentState::Substantiated, LatentEvent::IdleTick) if last => {
            (LatentState::Insubstantiating, Act::Stop)
        }
        (LatentState::Substantiated, LatentEvent::Stopped) => (LatentState::Not, Act::None),
        (LatentState::Substantiated, LatentEvent::Cut) => (LatentState::Held, Act::Hold),
        (LatentState::Insubstantiating, LatentEvent::Want) => (LatentState::Waiting, Act::None),
        (LatentState::Insubstantiating, LatentEvent::Stopped) => (LatentState::Not, Act::None),
        (LatentState::Waiting, LatentEvent::Stopped) => (LatentState::Substantiating, Act::Start),
        (LatentState::Held, LatentEvent::Attached) => (LatentState::Substantiated, Act::Give),
        (LatentState::Held, LatentEvent::Lost) => (LatentState::Insubstantiating, Act::Stop),
        (LatentState::Held, LatentEvent::Stopped) => (LatentState::Not, Act::None),
        _ => (state, Act::None),
    }
}
