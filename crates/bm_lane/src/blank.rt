//! A lane before it has a number, and its ends.
ghost use Rattle.std.specs.Prelude.{◌≡◌, ◌<◌, ◌≤◌, [], All, length, map, IfOk, IfErr, vec_capacity};
ghost use Rattle.std.specs.Prelude.{vec_len};
ghost use Rattle.std.specs.Arc.{arc_value};
ghost use Rattle.bm_lane.specs.Ends.{AllNew};
ghost use Rattle.bm_lane.specs.Placed.{ArePlaced, new_readers, new_writers, AreItsViewers};
ghost use Rattle.bm_lane.specs.BookReaders.{AllFresh};

use crate::book_reader::BookReader;
use crate::copy::open_copy;
use crate::publisher::Publisher;
use crate::reader_end::ReaderEnd;
use crate::refusals::OpenError;
use crate::relay::{ItemPass, ItemQueue, Roles};
use crate::viewer::Viewer;
use crate::writer_end::WriterEnd;
use crate::yard::Yard;
use bm_session::Session;
use std::alloc::{AllocError, Global};
use std::marker::{Model, PhantomData};
use std::sync::{Arc, Wait};

/// A queue and a published copy that no lane has yet.
#[derive(Drop)]
pub struct Blank<R: Wait + Drop> {
    session: Session,
    queue: Arc<ItemQueue>,
    pass: ItemPass,
    publisher: Publisher<R>,
    book_readers: Vec<BookReader>,
}

impl<R: Wait + Drop> Model for Blank<R> {
    ghost use Rattle.std.specs.Prelude.{◌≡◌, [], true, length};
    ghost use Rattle.std.specs.Arc.{arc_value};
    ghost use Rattle.crossbeam_queue.specs.Passes.{IsPassOf, ruled_capacity};
    ghost use Rattle.bm_lane.specs.Relay.{hand, known};
    ghost use Rattle.bm_lane.specs.BookReaders.{AllFresh};
    ghost use Rattle.bm_lane.specs.Ends.{Blanked};

    ghost Value = { Blanked };

    ghost view = { λ b. record {
      queue = b.pass.table_id;
      copy = b.publisher.history;
      capacity = ruled_capacity (arc_value b.queue);
      viewers = length b.book_readers.items;
    } };

    ghost invariant = { λ b. (b.session.trace ≡ []) × IsPassOf (arc_value b.queue) b.pass
        × (known b.pass ≡ hand true true [] []) × (b.publisher.shown ≡ []) × (b.publisher.held ≡ [])
        × (b.publisher.kept ≡ []) × AllFresh b.publisher.history [] b.book_readers.items };
}

/// The ends of a lane, as one value that [`settle`](crate::settle) takes, and gives back at want of
/// memory. Its condition is on what the fields hold, the number of viewers too, so ends that were
/// put together by hand are safe.
#[derive(Drop)]
pub struct Ends<Y: Yard, R: Wait + Drop> {
    pub reader: ReaderEnd<Y>,
    pub writer: WriterEnd<Y, R>,
    pub viewers: Vec<Viewer<Y>>,
}

/// A queue that takes `capacity` items at once, and a published copy with places for so many
/// viewers.
///
/// It may wait, since it publishes the empty copy once. By that each viewer learns which history it
/// sees, which ties it to the writer's when the lane is settled.
///
/// `NoPlace` where the copy gave no place to one of the viewers, `Mem` where memory is wanting.
/// After either there is no lane, and the runtime is let go.
pub fn open<R: Wait + Drop>(
    rt: R,
    alloc: Global,
    capacity: usize,
    viewers: usize,
) -> Result<Blank<R>, OpenError>
    requires capacity { (0 < capacity) × (capacity ≤ 65536) }
    requires viewers { (0 < viewers) × (viewers ≤ 64) }
    ensures { IfOk result (λ b. (b.capacity ≡ capacity) × (b.viewers ≡ viewers)) }
{
    let Ok(session) = Session::new(alloc) else {
        return Err(OpenError::Mem);
    };
    let Ok((queue, pass)) = ItemQueue::ruled(alloc, capacity) else {
        return Err(OpenError::Mem);
    };
    let Ok(queue) = Arc::new(alloc, queue) else {
        return Err(OpenError::Mem);
    };
    let (publisher, book_readers) = open_copy(rt, alloc, viewers)?;
    Ok(Blank {
        session,
        queue,
        pass,
        publisher,
        book_readers,
    })
}

/// The ends of lane 0, lane 1 and so on, in order: those at a place are of the blank at that place.
/// At want of memory there are none, and the blanks are let go: a program that meets it ends, or
/// opens its lanes anew.
pub fn ends_of_all<Y: Yard, W: Wait + Drop>(
    alloc: Global,
    blanks: Vec<Blank<W>>,
) -> Result<Vec<Ends<Y, W>>, AllocError>
    requires { ArePlaced Y.queue Y.copy 0 blanks.items }
    ensures readers { IfOk result (λ all. map (λ e. e.reader) all.items
        ≡ new_readers 0 blanks.items) }
    ensures writers { IfOk result (λ all. map (λ e. e.writer) all.items
        ≡ new_writers 0 blanks.items) }
    ensures viewers { IfOk result
        (λ all. All (λ e. AreItsViewers e.writer e.viewers.items) all.items) }
    ensures count { IfOk result (λ all. vec_len all ≡ vec_len blanks) }
{
    let mut all = Vec::with_capacity(alloc, blanks.len())?;
    let mut lane = 0;
    for blank in blanks {
        match blank.ends::<Y>(alloc, lane) {
            Ok(ends) => all.push_reserved(ends),
            Err((_, error)) => return Err(error),
        }
        lane += 1;
    }
    Ok(all)
}

// The viewers, under the lane's number.
fn placed<Y: Yard>(book_readers: Vec<BookReader>, lane: u64, room: Vec<Viewer<Y>>) -> Vec<Viewer<Y>>
    requires own { AllFresh (Y.copy lane) [] book_readers.items }
    requires room { (room.items ≡ []) × (length book_readers.items ≤ vec_capacity room) }
    ensures { AllNew lane result.items × (length result.items ≡ length book_readers.items) }
{
    let mut placed = room;
    let mut book_readers = book_readers;
    while let Some(book_reader) = book_readers.pop() {
        placed.push_reserved(Viewer::over(lane, book_reader));
    }
    placed
}

impl<R: Wait + Drop> Blank<R> {
    /// The ends, under the lane's number. At want of memory the blank comes back as it was.
    pub fn ends<Y: Yard>(
        self,
        alloc: Global,
        lane: u64,
    ) -> Result<Ends<Y, R>, (Blank<R>, AllocError)>
        requires { (self.queue ≡ Y.queue lane) × (self.copy ≡ Y.copy lane) }
        ensures reader { IfOk result (λ e. e.reader ≡ record {
          lane = lane;
          capacity = self.capacity;
          trace = [];
          put = [];
        }) }
        ensures writer { IfOk result (λ e. e.writer ≡ record {
          lane = lane;
          viewers = self.viewers;
          taken = [];
          shown = [];
          held = [];
          kept = [];
        }) }
        ensures viewers { IfOk result (λ e. AllNew lane e.viewers.items
            × (length e.viewers.items ≡ self.viewers)) }
        ensures back { IfErr result (λ e. e.0 ≡ self) }
    {
        let Ok(theirs) = Arc::try_clone(&self.queue) else {
            return Err((self, AllocError));
        };
        let Ok(room) = Vec::with_capacity(alloc, self.book_readers.len()) else {
            return Err((self, AllocError));
        };
        let Blank {
            session,
            queue,
            mut pass,
            publisher,
            book_readers,
        } = self;
        let viewers = book_readers.len();
        let other = queue.another::<Roles>(&mut pass);
        Ok(Ends {
            reader: ReaderEnd::over(lane, session, queue, pass),
            writer: WriterEnd::over(lane, viewers, theirs, other, publisher),
            viewers: placed(book_readers, lane, room),
        })
    }
}
