//! How far the thread that reads the input is ahead of the coordinator.

ghost use Rattle.std.specs.Prelude.{◌≡◌};
ghost use Rattle.bm_coordinator.specs.Ahead.{is_ahead};

use std::sync::Wait;
use std::sync::atomic::{AtomicU64, Ordering};
use std::time::{Clock, Duration};

/// How many lines that cancel a build may lie before the coordinator. It hears in turn what comes
/// from lanes and builds, which lines that come faster must not delay.
const MOST_AHEAD: u64 = 16;

/// How long the thread waits at once for the coordinator, in milliseconds.
const AHEAD_MS: u64 = 500;

// Whether so many lines before the coordinator are too many for one more.
fn is_ahead(lines: u64) -> bool
    ensures { result ≡ is_ahead lines }
{
    lines > MOST_AHEAD
}

/// How many lines the coordinator was told and has not heard.
#[derive(Drop)]
pub struct LinesAhead {
    count: AtomicU64,
}

impl LinesAhead {
    /// No line was told.
    pub fn new() -> LinesAhead {
        LinesAhead {
            count: AtomicU64::new(0),
        }
    }

    /// The coordinator is told one more.
    pub fn add(&self) {
        self.count.fetch_add(1, Ordering::SeqCst);
    }

    /// The coordinator has heard one.
    pub fn heard(&self) {
        self.count.fetch_sub(1, Ordering::SeqCst);
        self.count.wake_all();
    }

    /// Waits until few enough lie before the coordinator.
    pub fn wait<R: Wait + Clock>(&self, rt: &R) {
        for _ in rt.forever() {
            let count = self.count.load(Ordering::SeqCst);
            if !is_ahead(count) {
                return;
            }
            let most = Duration::from_millis(AHEAD_MS);
            self.count
                .park_timeout(rt, (count & 0xffff_ffff) as u32, most);
        }
    }
}
