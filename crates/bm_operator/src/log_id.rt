//! The id of a log on the web.

ghost use Rattle.std.specs.Prelude.{◌≡◌, ◌+◌, ◌*◌};

/// The log of a command on a lane, under the id that the web knows it by. The id is the command's
/// number times the number of lanes, plus the lane's place.
#[derive(Clone, Copy, PartialEq, Eq)]
pub struct LogId {
    pub command: u64,
    pub lane: u64,
    /// How many lanes the master has.
    pub lanes: u64,
}

impl LogId {
    /// `command * lanes + lane`. It may take more than 64 bits; the web answers ids of 64 bits
    /// alone.
    pub fn number(&self) -> u128
        ensures { result ≡ self.now.command * self.now.lanes + self.now.lane }
    {
        let LogId {
            command,
            lane,
            lanes,
        } = *self;
        u128::from(command) * u128::from(lanes) + u128::from(lane)
    }
}
