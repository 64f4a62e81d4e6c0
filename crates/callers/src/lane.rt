//! Callers of the ends of a lane.

ghost use Rattle.std.specs.Prelude.{◌≡◌, ◌≢◌, ◌<◌, ◌∷◌, ◌++◌, [], length, option_map};
ghost use Rattle.std.specs.Prelude.{IfOk, IfErr, Some, None};
ghost use mathlib.Core.List.{IsPrefix};
ghost use Rattle.bm_lines.specs.Names.{stdio};
ghost use Rattle.bm_store.specs.Book.{book, chunk_in, chunk_of, lines_in_log};
ghost use Rattle.bm_store.specs.Kept.{logs_in};
ghost use Rattle.bm_lane.specs.Ends.{AllOf};
ghost use Rattle.callers.specs.LaneEvents.{line, said};

use bm_lane::{Drained, Ends, HearRefusal, ReaderEnd, Settled, Viewer, WriterEnd, Yard, settle};
use bm_session::{Event, Item, Reply};
use bm_store::{Chunk, ViewRefusal};
use std::alloc::{AllocError, Global};
use std::sync::Wait;

/// The first items of a lane, as many as its queue takes at once, find room.
/// Of later items no clause of `bm_lane` says it: it would compare what the reader put with what
/// the writer took, in another thread. For one thread `bm_world` says it with drains.
pub fn first_items_find_room<Y: Yard, R: Wait>(
    reader: &mut ReaderEnd<Y>,
    rt: &R,
    event: Event,
) -> Result<Reply, (Event, HearRefusal)>
    requires { length reader.old.put < reader.old.capacity }
    ensures { IfErr result (λ r. r.1 ≢ HearRefusal.Busy) }
{
    reader.hear(rt, event)
}

/// An event that is answered is the one event more of the trace, as that is read. One that is
/// refused comes back, and the trace is as before.
pub fn answered_event_is_recorded_once<'a, Y: Yard, R: Wait>(
    reader: &'a mut ReaderEnd<Y>,
    rt: &R,
    event: Event,
) -> (Result<Reply, (Event, HearRefusal)>, &'a [Event])
    ensures answered { IfOk result.0 (λ _. result.1.now ≡ reader.old.trace ++ event ∷ []) }
    ensures refused { IfErr result.0 (λ r. (r.0 ≡ event) × (result.1.now ≡ reader.old.trace)) }
{
    let heard = reader.hear(rt, event);
    (heard, reader.trace())
}

/// A drain that meets want of memory loses nothing: the one item that isn't shown is held.
pub fn unshown_item_is_held<Y: Yard, R: Wait + Drop>(
    writer: &mut WriterEnd<Y, R>,
) -> Result<Drained, AllocError>
    ensures { IfErr result (λ _. (x : Item) × (writer.new.held ≡ x ∷ [])
        × (writer.new.taken ≡ writer.old.shown ++ x ∷ [])) }
{
    writer.drain()
}

/// After a drain that doesn't fail, all that was taken from the queue is shown. The published book
/// is the book of that.
pub fn drained_items_are_published<Y: Yard, R: Wait + Drop>(
    writer: &mut WriterEnd<Y, R>,
) -> Result<Drained, AllocError>
    ensures shown { IfOk result (λ _. writer.new.shown ≡ writer.new.taken) }
    ensures published { IfOk result (λ _. logs_in writer.new.kept ≡ book writer.new.taken) }
{
    writer.drain()
}

/// The lines that a viewer is given are those of all the items that it then counts. These are no
/// fewer than before.
/// A caller that looks twice would not refuse a look at an older copy, whose answers never go back.
pub fn lines_are_of_all_that_was_seen<Y: Yard>(
    viewer: &mut Viewer<Y>,
    command: u64,
    name: &str,
    offset: u64,
    limit: u64,
) -> Result<(Chunk, u64), ViewRefusal>
    ensures seen { IsPrefix viewer.old.seen viewer.new.seen }
    ensures count { IfOk result (λ r. r.1 ≡ length viewer.new.seen) }
    ensures lines { IfOk result (λ r. option_map (chunk_of offset)
        (chunk_in (book viewer.new.seen) command name.now offset limit) ≡ Some r.0) }
{
    match viewer.chunk(command, name, offset, limit) {
        Ok(chunk) => Ok((chunk, viewer.count())),
        Err(why) => Err(why),
    }
}

/// A viewer is told that a log isn't there only where what it has seen has none.
/// So a look that only tries a shared lock is refused by this, and by what the lock requires. One
/// that takes a lock is refused by its signature, which has no `Wait` handle. One that spins has no
/// falling measure.
pub fn log_that_was_seen_is_there<Y: Yard>(
    viewer: &mut Viewer<Y>,
    command: u64,
    name: &str,
    offset: u64,
    limit: u64,
) -> Result<Chunk, ViewRefusal>
    ensures { IfErr result (λ why. why ≡ ViewRefusal.NoLog
        → chunk_in (book viewer.new.seen) command name.now offset limit ≡ None) }
{
    viewer.chunk(command, name, offset, limit)
}

/// A lane that heard a line of a command is settled with these events, and with that line in its
/// book.
pub fn settled_lane_keeps_what_was_said<Y: Yard, W: Wait + Drop, R: Wait>(
    rt: &R,
    alloc: Global,
    ends: Ends<Y, W>,
) -> Result<Settled, (Ends<Y, W>, AllocError)>
    requires ends { (ends.reader.lane ≡ ends.writer.lane)
        × AllOf ends.writer.lane ends.viewers.items
        × (length ends.viewers.items ≡ ends.writer.viewers) }
    requires heard { ends.reader.trace ≡ said }
    ensures trace { IfOk result (λ s. s.trace.items ≡ said) }
    ensures book { IfOk result (λ s. lines_in_log (logs_in s.book) 0 stdio ≡ Some (line ∷ [])) }
{
    settle(rt, alloc, ends)
}
