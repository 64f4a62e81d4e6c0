//! What viewers ask a published book.
ghost use Rattle.std.specs.Prelude.{◌≡◌, ℕ, List};
ghost use Rattle.bm_session.specs.declared.item.Item.{Item};
ghost use Rattle.bm_store.specs.Book.{book};
ghost use Rattle.bm_store.specs.Portions.{LooksAtPortion};
ghost use Rattle.bm_lane.specs.Answers.{Answered, lines_of_book, state_of_book, told};
ghost use Rattle.bm_lane.specs.Copies.{kept_book};

use crate::published::Published;
use bm_store::{Chunk, LogState, Portion, ViewRefusal};

/// What is asked of a book.
pub trait Question {
    type Answer: Drop;

    // What an answer says of the items whose book it is.
    ghost says: { Self → List Item → Self.Answer → Type 0 };

    /// The answer of the published book.
    fn ask(&self, seen: &Published) -> Self::Answer
        requires { seen.now.book ≡ kept_book seen.now.front.log }
        ensures { says self.now seen.now.front.log result };
}

/// How far a log is.
#[derive(Clone, Copy)]
pub struct StateOf<'a> {
    pub command: u64,
    pub name: &'a str,
}

impl<'a> Question for StateOf<'a> {
    type Answer = Result<LogState, ViewRefusal>;

    ghost says = { λ log seen r. r ≡ told (state_of_book seen log.command log.name.now) };

    fn ask(&self, seen: &Published) -> Result<LogState, ViewRefusal> {
        match seen.book.state(self.command, self.name) {
            Some(state) => Ok(state),
            None => Err(ViewRefusal::NoLog),
        }
    }
}

/// Asks for at most `limit` lines of the log `name` of a command, from the line `offset` on.
#[derive(Clone, Copy)]
pub struct LinesOf<'a> {
    pub command: u64,
    pub name: &'a str,
    pub offset: u64,
    pub limit: u64,
}

impl<'a> Question for LinesOf<'a> {
    type Answer = Result<Chunk, ViewRefusal>;

    ghost says = { λ asked seen r. Answered
        (lines_of_book seen asked.command asked.name.now asked.offset asked.limit) r };

    fn ask(&self, seen: &Published) -> Result<Chunk, ViewRefusal> {
        seen.book
            .slice(self.command, self.name, self.offset, self.limit)
    }
}

/// The text of lines of a log, behind its first `skip` bytes: `most` bytes of it.
#[derive(Clone, Copy)]
pub struct PortionOf<'a> {
    pub lines: LinesOf<'a>,
    pub skip: usize,
    pub most: usize,
}

impl<'a> Question for PortionOf<'a> {
    type Answer = Result<Portion, ViewRefusal>;

    ghost says = { λ asked seen r. LooksAtPortion (book seen) asked.lines.command
        asked.lines.name.now asked.lines.offset asked.lines.limit asked.skip asked.most r };

    fn ask(&self, seen: &Published) -> Result<Portion, ViewRefusal> {
        let lines = self.lines;
        seen.book.portion(
            lines.command,
            lines.name,
            lines.offset,
            lines.limit,
            self.skip,
            self.most,
        )
    }
}
