//! What a viewer is to its thread.
ghost use Rattle.std.specs.Prelude.{◌≡◌, length, [], IsTrue};
ghost use mathlib.Core.List.{IsPrefix};
ghost use Rattle.bm_lane.specs.Looks.{GivesChunk, GivesPortion, GivesState};

use crate::book_reader::BookReader;
use crate::mark::Mark;
use crate::publisher::Publisher;
use crate::questions::{LinesOf, PortionOf, StateOf};
use crate::yard::Yard;
use bm_store::{Chunk, LogState, Portion, ViewRefusal};
use std::marker::{Model, PhantomData};
use std::sync::Wait;

/// A viewer of a lane's logs. Contracts see the items that it has seen: they are shown in order,
/// and it never goes back.
///
/// A look enters the published copy and leaves it again. It never waits, and nobody waits for it
/// but a drain.
#[derive(Drop)]
pub struct Viewer<Y: Yard> {
    lane: u64,
    book_reader: BookReader,
    of: PhantomData<Y>,
}

impl<Y: Yard> Model for Viewer<Y> {
    ghost use Rattle.std.specs.Prelude.{◌≡◌};
    ghost use Rattle.bm_lane.specs.Ends.{Watched};

    ghost Value = { Watched };

    ghost view = { λ v. record { lane = v.lane; seen = v.book_reader.seen } };

    ghost invariant = { λ v. v.book_reader.history ≡ Y.copy v.lane };
}

impl<Y: Yard> Viewer<Y> {
    pub(crate) fn over(lane: u64, book_reader: BookReader) -> Viewer<Y>
        requires { book_reader.history ≡ Y.copy lane }
        ensures { result ≡ record { lane = lane; seen = book_reader.seen } }
    {
        Viewer {
            lane,
            book_reader,
            of: PhantomData,
        }
    }

    /// The lines of a command's log of this name, from the place `offset` on: `limit` at most, as
    /// far as the log goes. The log is that of the book of what the viewer has then seen, which is
    /// no less than before.
    ///
    /// `NoLog` where that log isn't there. After `Mem` the viewer may have seen more; after
    /// `Closed`, where the copy couldn't be entered, nothing changed.
    pub fn chunk(
        &mut self,
        command: u64,
        name: &str,
        offset: u64,
        limit: u64,
    ) -> Result<Chunk, ViewRefusal>
        ensures { GivesChunk self.old self.new command name.now offset limit result }
    {
        let asked = LinesOf {
            command,
            name,
            offset,
            limit,
        };
        match self.book_reader.ask(&asked) {
            Some(answer) => answer,
            None => Err(ViewRefusal::Closed),
        }
    }

    /// A portion of the text of these lines, behind its first `skip` bytes. It has `most` bytes at
    /// most, so it may end inside of a line.
    ///
    /// The answers `NoLog`, `Mem` and `Closed` are as those of [`chunk`](Viewer::chunk). `Mem` is
    /// answered also where the first `skip` bytes end inside of a character.
    pub fn portion(
        &mut self,
        command: u64,
        name: &str,
        offset: u64,
        limit: u64,
        skip: usize,
        most: usize,
    ) -> Result<Portion, ViewRefusal>
        ensures { GivesPortion self.old self.new command name.now offset limit skip most result }
    {
        let lines = LinesOf {
            command,
            name,
            offset,
            limit,
        };
        let answer = self.book_reader.ask(&PortionOf { lines, skip, most });
        match answer {
            Some(answer) => answer,
            None => Err(ViewRefusal::Closed),
        }
    }

    /// How many lines the log of a command under a name has, and how the command ended. Both are of
    /// the book of what the viewer has then seen, which is no less than before.
    ///
    /// `NoLog` where that log isn't there. After `Closed`, where the copy couldn't be entered,
    /// nothing changed.
    pub fn state(&mut self, command: u64, name: &str) -> Result<LogState, ViewRefusal>
        ensures { GivesState self.old self.new command name.now result }
    {
        match self.book_reader.ask(&StateOf { command, name }) {
            Some(answer) => answer,
            None => Err(ViewRefusal::Closed),
        }
    }

    /// The number of its lane.
    pub fn lane(&self) -> u64
        ensures { result ≡ self.now.lane }
    {
        self.lane
    }

    /// How many items it has seen.
    pub fn count(&self) -> u64
        ensures { result ≡ length self.now.seen }
    {
        self.book_reader.count()
    }

    /// What it has seen by now.
    pub fn mark(&self) -> Mark<Y>
        ensures { result ≡ self.now }
    {
        let front = self.book_reader.front().again();
        Mark::over(self.lane, front, self.book_reader.count())
    }

    /// Whether it is of a mark's lane and has seen no less than the mark. Of the viewer that made
    /// the mark that is always so.
    pub fn has_seen(&self, mark: &Mark<Y>) -> bool
        ensures { IsTrue result
            → (self.now.lane ≡ mark.now.lane) × IsPrefix mark.now.seen self.now.seen }
    {
        mark.lane() == self.lane && mark.begins(self.book_reader.front(), self.book_reader.count())
    }

    /// What was seen was shown.
    pub(crate) fn check<R: Wait + Drop>(&self, publisher: &mut Publisher<R>)
        requires { (publisher.old.history ≡ Y.copy self.now.lane) × (publisher.old.held ≡ []) }
        ensures prefix { IsPrefix self.now.seen publisher.old.shown }
        ensures same { publisher.new ≡ publisher.old }
    {
        publisher.has(self.book_reader.front())
    }
}
