//! The reader of the published copy: what one viewer has seen of it.
ghost use Rattle.std.specs.Prelude.{◌≡◌, Some, MatchOption, length};
ghost use Rattle.left_right.specs.Sides.{view};
ghost use Rattle.bm_lane.specs.Fronts.{Front as History};
ghost use mathlib.Core.List.{IsPrefix};

use crate::history::Front;
use crate::published::{Grows, Published, Sees, Sight};
use crate::questions::Question;
use core::mem::replace_with;
use left_right::reader::Reader;
use std::marker::{Model, PhantomData};

/// The reading side of the published copy, of which each viewer has one.
pub type CopyReader = Reader<Published, Sight, Grows>;

/// What was seen, and the answer.
#[derive(Drop)]
struct Sighting<T: Drop> {
    front: Front,
    count: u64,
    answer: T,
}

/// A reader of the copy, with what it saw last.
#[derive(Drop)]
pub struct BookReader {
    reader: CopyReader,
    front: Front,
    count: u64,
}

impl Model for BookReader {
    ghost use Rattle.std.specs.Prelude.{◌≡◌, length, Some};
    ghost use Rattle.logbook.specs.Pages.{book_coded};
    ghost use Rattle.left_right.specs.Sides.{view as seen_by};
    ghost use Rattle.bm_lane.specs.BookReaders.{Looked};

    ghost Value = { Looked };

    ghost view = { λ b. record { history = b.front.book; seen = b.front.log } };

    ghost invariant = { λ b. (seen_by b.reader.place ≡ Some b.front) × (b.count ≡ length b.front.log) };
}

// A look by a reader, which comes back. The answer's type stands among the arguments. A function
// that is passed on may give back no other types than those.
fn look<Q: Question>(
    reader: CopyReader,
    asked: (&Q, PhantomData<Q::Answer>),
) -> (CopyReader, Option<Sighting<Q::Answer>>)
    requires { (f : History) × (view reader.place ≡ Some f) }
    ensures { MatchOption result.1
        ((f : History) → view reader.place ≡ Some f → view result.0.place ≡ Some f)
        (λ s. (view result.0.place ≡ Some s.front) × (s.count ≡ length s.front.log)
        × ((f : History) → view reader.place ≡ Some f
        → (s.front.book ≡ f.book) × IsPrefix f.log s.front.log)
        × Q.says asked.entry.0.now s.front.log s.answer) }
{
    match reader.enter_as::<Sees>() {
        Ok(reading) => {
            let seen = reading.get();
            let sighting = Sighting {
                front: seen.front.again(),
                count: seen.count,
                answer: asked.0.ask(seen),
            };
            (reading.leave(), Some(sighting))
        }
        Err(reader) => (reader, None),
    }
}

impl BookReader {
    /// A reader that has seen what the writer told.
    pub fn over(reader: CopyReader, front: Front, count: u64) -> BookReader
        requires { (view reader.place ≡ Some front) × (count ≡ length front.log) }
        ensures { result ≡ record { history = front.book; seen = front.log } }
    {
        BookReader {
            reader,
            front,
            count,
        }
    }

    /// What was seen.
    pub fn front(&self) -> &Front
        ensures { (result.now.book ≡ self.now.history) × (result.now.log ≡ self.now.seen) }
    {
        &self.front
    }

    /// How many items were seen.
    pub fn count(&self) -> u64
        ensures { result ≡ length self.now.seen }
    {
        self.count
    }

    /// The answer to a question, or `None` where the copy could not be entered.
    pub fn ask<Q: Question>(&mut self, question: &Q) -> Option<Q::Answer>
        ensures { MatchOption result (self.new ≡ self.old)
            (λ r. (self.new.history ≡ self.old.history)
            × IsPrefix self.old.seen self.new.seen
            × Q.says question.now self.new.seen r) }
    {
        let Sighting {
            front,
            count,
            answer,
        } = replace_with(&mut self.reader, (question, PhantomData), look::<Q>)?;
        self.front = front;
        self.count = count;
        Some(answer)
    }
}
