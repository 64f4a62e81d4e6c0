//! The logs of a trace, by one walk.
ghost use Rattle.std.specs.Prelude.{◌≡◌, true, not, if◌then◌else◌, IfOk, []};
ghost use Rattle.std.specs.Option.{option_copied, option_to_list};
ghost use Rattle.bm_lines.specs.LineBatches.{blocks_under};
ghost use Rattle.bm_session.specs.Events.{is_update_of, batch_of};
ghost use Rattle.bm_session.specs.Trace.{blocks, log as log_of, is_empty, was_taken};

use crate::event::{Body, Event};
use crate::table::Table;
use bm_lines::Block;
use std::alloc::{AllocError, Global};

/// The block that the event, if it counts, adds to the command's log under the name.
fn block_added<'a>(counts: bool, event: &'a Event, command: u64, name: &str) -> Option<&'a Block>
    ensures { option_to_list (option_copied result) ≡ (if counts
        then (if is_update_of command event.now then blocks_under name.now (batch_of event.now)
        else []) else []) }
{
    match event {
        Event::In(
            _,
            Body::Update {
                command: k,
                batch,
                ..
            },
        ) if counts && *k == command => batch.of(name),
        _ => None,
    }
}

/// The log of the command under the name, and whether it has a block. A table runs over the trace,
/// which was taken, and tells which updates count.
pub fn walk(
    alloc: Global,
    t: &[Event],
    command: u64,
    name: &str,
) -> Result<(bool, Block), AllocError>
    requires { was_taken t.now ≡ true }
    ensures found { IfOk result (λ r. r.0 ≡ not (is_empty (blocks t.now command name.now))) }
    ensures log { IfOk result (λ r. r.1 ≡ log_of t.now command name.now) }
{
    let mut table = Table::new(alloc)?;
    let mut found = false;
    let mut log = Block::new(alloc);
    for i in 0..t.len() {
        let event = &t[i];
        let counts = table.follow(event)?;
        if let Some(block) = block_added(counts, event, command, name) {
            found = true;
            log.extend(block)?;
        }
    }
    Ok((found, log))
}
