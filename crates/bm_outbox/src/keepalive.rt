//! What a worker does about a master that is silent.

ghost use Rattle.std.specs.Prelude.{◌≡◌};
ghost use Rattle.bm_outbox.specs.Keepalives.{after_silence};

/// After how much silence the master is asked for a sign of life.
const PING_AFTER_SECONDS: u64 = 15;

/// How long it has from then on, until it counts as lost.
const ANSWER_WITHIN_SECONDS: u64 = 45;

/// What is to be done about a silent master.
#[derive(Clone, Copy, PartialEq, Eq)]
pub enum Keepalive {
    /// Nothing yet.
    Wait,
    /// It is to be pinged.
    Ping,
    /// It counts as lost.
    GiveUp,
}

/// What is to be done about a master that has been silent for so long, and was pinged so long ago,
/// where it was. It is pinged once after 15 seconds, and given up 45 seconds behind the ping. So a
/// worker that stood still for an hour asks first.
pub fn after_silence(silent_seconds: u64, pinged_seconds: Option<u64>) -> Keepalive
    ensures { result ≡ after_silence silent_seconds pinged_seconds }
{
    match pinged_seconds {
        Some(passed) => {
            if passed >= ANSWER_WITHIN_SECONDS {
                Keepalive::GiveUp
            } else {
                Keepalive::Wait
            }
        }
        None => {
            if silent_seconds >= PING_AFTER_SECONDS {
                Keepalive::Ping
            } else {
                Keepalive::Wait
            }
        }
    }
}
