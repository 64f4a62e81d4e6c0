//! Whether a worker can start the threads that a command needs.

ghost use Rattle.std.specs.Prelude.{◌≤◌, IfOk};

use crate::host::Host;
use std::alloc::{AllocError, Global};
use std::thread;
use std::thread::JoinHandle;

/// How many threads a command needs: one for each of its pipes.
const PIPES: usize = 2;

/// Whether the threads of a command can be started: as many are started at once, and end again. A
/// worker that can't start them must not take builds, since each would end at its first step.
pub(crate) fn has_threads<R: Host>(rt: &R, alloc: Global) -> bool {
    match spare_threads(rt, alloc) {
        Ok(count) => count == PIPES,
        Err(_) => false,
    }
}

/// How many of the threads can be started. All have ended when the answer comes.
fn spare_threads<R: Host>(rt: &R, alloc: Global) -> Result<usize, AllocError>
    ensures { IfOk result (λ count. count ≤ 2) }
{
    let mut spare: Vec<JoinHandle<()>> = Vec::with_capacity(alloc, PIPES)?;
    let (held, waits) = crossbeam_channel::bounded::<(), Global>(alloc, 1)?;
    for _ in 0..PIPES {
        let waits = waits.clone()?;
        let handle = *rt;
        // It waits until the other end is gone.
        let started = thread::spawn(rt, move || {
            let _ = waits.recv(&handle);
        });
        if let Ok(thread) = started {
            spare.push(thread)?;
        }
    }
    drop(held);
    let count = spare.len();
    for thread in spare {
        thread.join(rt);
    }
    Ok(count)
}
