//! What stands when a login was answered.

ghost use Rattle.std.specs.Prelude.{◌≡◌};
ghost use Rattle.bm_outbox.specs.Telling.{Begins};

use crate::outbox::Outbox;
use bm_work::{Sent, Worker};
use std::alloc::{AllocError, Global};

/// What is sent first once a login was answered. A resumed session goes on. Its requests without an
/// answer are sent again, oldest first, with the bytes that were sent, and all that waits waits on.
/// A session that wasn't resumed begins anew: the core forgets the old one, nothing of it is sent
/// again, and nothing of it waits.
///
/// # Errors
///
/// Want of memory. Nothing was changed.
pub fn begin(
    alloc: Global,
    resumed: bool,
    worker: &mut Worker,
    outbox: &mut Outbox,
) -> Result<Vec<Sent>, AllocError>
    ensures { Begins resumed worker.old outbox.old result worker.new outbox.new }
{
    if resumed {
        return worker.resend();
    }
    worker.lost();
    outbox.clear();
    Ok(Vec::new(alloc))
}
