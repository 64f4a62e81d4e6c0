//! How long something took.

ghost use Rattle.std.specs.Prelude.{◌≡◌, ◌-◌, ◌/◌, ◌^◌, MatchOption, min, ⊤};
ghost use Rattle.std.specs.Duration.{as_nanos};

use std::time::{Clock, Duration, Instant};

/// The milliseconds since then. `u64::MAX` where the clock fails, so that every limit counts as
/// passed.
pub(crate) fn millis_since<R: Clock>(rt: &R, begun: Option<Instant>) -> u64
    ensures { MatchOption begun (result ≡ 2 ^ 64 - 1) (λ _. ⊤) }
{
    let Some(begun) = begun else {
        return u64::MAX;
    };
    match begun.elapsed(rt) {
        Ok(elapsed) => whole_millis(elapsed),
        Err(_) => u64::MAX,
    }
}

/// The whole milliseconds of a time, at most `u64::MAX`.
pub(crate) fn whole_millis(time: Duration) -> u64
    ensures { result ≡ min (as_nanos time / 1_000_000) (2 ^ 64 - 1) }
{
    let millis = time.as_secs().saturating_mul(1_000);
    millis.saturating_add(u64::from(time.subsec_millis()))
}
