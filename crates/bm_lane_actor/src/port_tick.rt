//! When the ticks of a build's port begin and end.

ghost use Rattle.std.specs.Prelude.{◌≡◌, ◌≤◌, ◌+◌, None, IfSome, IfNone};
ghost use Rattle.std.specs.Duration.{as_nanos};
ghost use Rattle.std.specs.declared.time.Instant.{Instant};
ghost use Rattle.bm_lane_actor.specs.Ports.{TickAfter, keeps_pace};

use bm_latent::{TICK_MS, millis};
use std::sync::Wait;
use std::thread;
use std::time::{Clock, Duration, Instant};

/// How far a tick may begin behind the last one's end, in milliseconds.
const MOST_BEHIND_MS: u64 = 1_000;

// Whether a tick that begins so many milliseconds late may be a short one.
fn keeps_pace(behind_ms: u64) -> bool
    ensures { result ≡ keeps_pace behind_ms }
{
    behind_ms < MOST_BEHIND_MS
}

/// When the tick begins behind the one that began then: at that one's end. So what a look takes
/// beyond a tick isn't added to each limit, and a late tick is short. Anew where it would be far
/// behind. None where the clock fails.
pub(crate) fn next_tick<R: Clock>(rt: &R, last: &Option<Instant>) -> Option<Instant>
    ensures { IfSome result (λ begins. (now : Instant) × TickAfter last.now now begins) }
{
    let now = Instant::now(rt).ok()?;
    Some(tick_after(last, now))
}

// When the tick begins behind the one that began then, if it is so late.
fn tick_after(last: &Option<Instant>, now: Instant) -> Instant
    ensures { TickAfter last.now now result }
{
    let begins = match last {
        Some(last) => last.checked_add(Duration::from_millis(TICK_MS)),
        None => None,
    };
    match begins {
        Some(begins) if keeps_pace(millis(now.saturating_duration_since(begins))) => begins,
        _ => now,
    }
}

/// What is left of a tick that began then, if it isn't over. Where the clock fails it is waited for
/// here.
pub(crate) fn left_of_tick<R: Wait + Clock>(rt: &R, began: &Option<Instant>) -> Option<Duration>
    ensures left { IfSome result (λ left. (1 ≤ as_nanos left) × (as_nanos left ≤ 10_000_000)) }
    ensures waited { began.now ≡ None → result ≡ None }
{
    let passed = match began {
        Some(began) => began.elapsed(rt).ok(),
        None => None,
    };
    match passed {
        Some(passed) => left_after(passed),
        None => {
            thread::sleep(rt, Duration::from_millis(TICK_MS));
            None
        }
    }
}

// What is left of a tick of which so much has passed, if it isn't over.
fn left_after(passed: Duration) -> Option<Duration>
    ensures left { IfSome result (λ left. (1 ≤ as_nanos left)
        × (as_nanos left + as_nanos passed ≡ 10_000_000)) }
    ensures over { IfNone result (10_000_000 ≤ as_nanos passed) }
{
    let tick = Duration::from_millis(TICK_MS);
    if passed < tick {
        tick.checked_sub(passed)
    } else {
        None
    }
}
