//! Callers of a lane over every interleaving of its steps.

ghost use Rattle.std.specs.Prelude.{◌≢◌, ◌<◌, ◌+◌, IfOk};
ghost use Rattle.bm_session.specs.Trace.{productive};

use bm_session::Event;
use bm_world::{Answer, Step, World};
use std::alloc::AllocError;

/// A lane whose queue has room doesn't answer an event with Busy.
pub fn lane_with_room_is_not_busy(
    world: &mut World,
    event: Event,
) -> Result<Answer, (Step, AllocError)>
    requires { productive world.old.trace < world.old.shown + world.old.capacity }
    ensures { IfOk result (λ answer. answer ≢ Answer.Busy) }
{
    world.step(Step::Hear(event))
}
