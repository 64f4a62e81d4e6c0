//! The end of a lane: its ends come together, and what was drained and seen is what was heard.
ghost use Rattle.std.specs.Prelude.{◌≡◌, ◌↔◌, ◌++◌, ◌≤◌, [], true, IsTrue, take, drop, length};
ghost use Rattle.std.specs.Prelude.{IfOk, IfErr, vec_capacity};
ghost use mathlib.Core.List.{IsPrefix};
ghost use Rattle.bm_session.specs.Trace.{items, was_taken};
ghost use Rattle.bm_store.specs.Book.{book, logs};
ghost use Rattle.bm_store.specs.Kept.{logs_in};
ghost use Rattle.bm_lane.specs.Copies.{kept_book};
ghost use Rattle.bm_lane.specs.Ends.{IsBack, AllOf, AllBegin, seen_counts};

use crate::blank::Ends;
use crate::publisher::Publisher;
use crate::reader_end::ReaderEnd;
use crate::viewer::Viewer;
use crate::writer_end::{Drained, WriterEnd};
use crate::yard::Yard;
use bm_session::Event;
use bm_store::Book;
use std::alloc::{AllocError, Global};
use std::sync::Wait;

/// What is left of a lane.
#[derive(Drop)]
pub struct Settled {
    /// The events that were taken, in order.
    pub trace: Vec<Event>,
    /// The logs of all of them.
    pub book: Book,
    /// For each viewer how many items it had seen.
    pub seen: Vec<u64>,
}

// How much each viewer has seen, which was shown.
fn count_seen<Y: Yard, R: Wait + Drop>(
    publisher: &mut Publisher<R>,
    lane: u64,
    viewers: &[Viewer<Y>],
    seen: &mut Vec<u64>,
)
    requires own { (publisher.old.history ≡ Y.copy lane) × (publisher.old.held ≡ [])
        × AllOf lane viewers.now }
    requires room { (seen.old.items ≡ []) × (length viewers.now ≤ vec_capacity seen.old) }
    ensures same { publisher.new ≡ publisher.old }
    ensures seen { seen.new.items ≡ seen_counts viewers.now }
    ensures begin { AllBegin publisher.old.shown viewers.now }
{
    for viewer in viewers {
        viewer.check(publisher);
        seen.push_reserved(viewer.count());
    }
}

/// Whether the ends are of one lane, with all of its viewers.
pub fn same_lane<Y: Yard, R: Wait + Drop>(
    reader: &ReaderEnd<Y>,
    writer: &WriterEnd<Y, R>,
    viewers: &[Viewer<Y>],
) -> bool
    ensures { IsTrue result ↔ ((reader.now.lane ≡ writer.now.lane)
        × AllOf writer.now.lane viewers.now × (length viewers.now ≡ writer.now.viewers)) }
{
    let lane = writer.lane();
    reader.lane() == lane
        && viewers.len() == writer.viewers()
        && viewers.iter().all(|viewer| viewer.lane() == lane)
}

// Drains until nothing is left. At want of memory what was drained stays drained.
#[tactic(auto, using(crate::proofs::Prefixes::prefix_self))]
fn drain_all<Y: Yard, W: Wait + Drop, R: Wait>(
    rt: &R,
    writer: &mut WriterEnd<Y, W>,
) -> Result<(), AllocError>
    ensures back { IsBack writer.old writer.new }
    ensures empty { IfOk result (λ _. writer.new.held ≡ []) }
{
    for _ in rt.forever() {
        match writer.drain() {
            Ok(Drained::Took) => {}
            Ok(Drained::Empty) => return Ok(()),
            Err(error) => return Err(error),
        }
    }
    unreachable!()
}

/// Drains what is left, and ends the lane. It answers the trace, the book of the whole trace, and
/// how many of the trace's items each viewer had seen.
///
/// At want of memory the ends come back, and what was drained stays drained.
#[tactic(auto, using(crate::proofs::Prefixes::prefix_self, crate::proofs::Prefixes::prefix_trans))]
pub fn settle<Y: Yard, W: Wait + Drop, R: Wait>(
    rt: &R,
    alloc: Global,
    ends: Ends<Y, W>,
) -> Result<Settled, (Ends<Y, W>, AllocError)>
    requires { (ends.reader.lane ≡ ends.writer.lane) × AllOf ends.writer.lane ends.viewers.items
        × (length ends.viewers.items ≡ ends.writer.viewers) }
    ensures trace { IfOk result (λ s. s.trace.items ≡ ends.reader.trace) }
    ensures taken { IfOk result (λ s. was_taken s.trace.items ≡ true) }
    ensures book { IfOk result (λ s. (logs_in s.book ≡ logs ends.reader.trace)
        × (logs_in s.book ≡ book (items ends.reader.trace))) }
    ensures seen { IfOk result (λ s. (s.seen.items ≡ seen_counts ends.viewers.items)
        × AllBegin (items ends.reader.trace) ends.viewers.items) }
    ensures back { IfErr result (λ e. (e.0.reader ≡ ends.reader) × IsBack ends.writer e.0.writer
        × (e.0.viewers.items ≡ ends.viewers.items)) }
{
    let Ok(mut seen) = Vec::with_capacity(alloc, ends.viewers.len()) else {
        return Err((ends, AllocError));
    };
    let Ends {
        mut reader,
        mut writer,
        viewers,
    } = ends;
    for _ in rt.forever() {
        if let Err(error) = drain_all(rt, &mut writer) {
            let ends = Ends {
                reader,
                writer,
                viewers,
            };
            return Err((ends, error));
        }
        match reader.join(writer) {
            Ok((session, mut publisher, lane)) => {
                count_seen(&mut publisher, lane, viewers.as_slice(), &mut seen);
                return Ok(Settled {
                    trace: session.into_trace(),
                    book: publisher.end(),
                    seen,
                });
            }
            Err((back, other)) => {
                reader = back;
                writer = other;
            }
        }
    }
    unreachable!()
}
