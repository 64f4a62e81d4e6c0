//! How a lane is connected to its worker.

ghost use Rattle.std.specs.Prelude.{◌≡◌};
ghost use Rattle.bm_lane_actor.specs.ConnectionState.{keeps_link};

/// How a lane is connected. A connection is attached to it, or it was cut and its session may be
/// resumed. Or it has no session.
#[derive(Clone, Copy, PartialEq, Eq)]
pub enum ConnectionState {
    Up,
    Cut,
    Down,
}

impl ConnectionState {
    /// Whether the lane's link stays: no order is sent to a lane that was cut or given up.
    pub fn keeps_link(self) -> bool
        ensures { result ≡ keeps_link self }
    {
        matches!(self, ConnectionState::Up)
    }
}
