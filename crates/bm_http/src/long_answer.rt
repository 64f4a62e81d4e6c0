//! Lines of a log that are told piece by piece, as the log stood at one look.
ghost use Rattle.std.specs.Prelude.{◌≡◌, ◌+◌, ◌^◌, ◌<◌, ◌≤◌, ◌++◌, [], length, IfErr, IfOk, IfSome, MatchOption, string_bytes};
ghost use mathlib.Core.List.{IsPrefix};
ghost use Rattle.json.specs.Print.{escape};
ghost use Rattle.bm_lines.specs.Lines.{content_of};
ghost use Rattle.bm_session.specs.Trace.{slice};
ghost use Rattle.bm_store.specs.Portions.{IsPortion};
ghost use Rattle.bm_http.specs.Bodies.{contents_text};
ghost use Rattle.bm_http.specs.LongAnswers.{log_in};
ghost use Rattle.bm_http.specs.Pieces.{IsBounded, piece_text};

use crate::bodies;
use bm_lane::{Mark, Viewer, Yard};
use bm_lines::Text;
use bm_store::Portion;
use bytes::Bytes;
use std::alloc::{AllocError, Global};
use std::marker::Model;
use thiserror::Error;

/// The bytes that stand in the body before the lines.
const FRONT: usize = 26;

/// How many bytes of the lines' text a piece has at most.
pub(crate) const MOST_BYTES: usize = 65_536;

/// Why a piece can't be had.
#[derive(Clone, Copy, Debug, Error)]
pub enum PieceError {
    /// Memory is wanting.
    #[error("out of memory")]
    Memory,
    /// The viewer shows no lines, or isn't the one that the answer began at.
    #[error("no view")]
    View,
}

/// What is left to tell of lines of a log, as the log stood when the answer began. Contracts see
/// the text.
#[derive(Drop)]
pub struct LongAnswer<Y: Yard> {
    // What the first look had seen: of a viewer nothing is known from one lock to the next but that
    // it is one. A viewer that has seen as much begins with the same items, so each piece is of the
    // same log.
    mark: Mark<Y>,
    command: u64,
    name: String,
    front: Option<Bytes>,
    at: u64,
    end: u64,
    // How many bytes of the text of the lines from `at` on were told.
    skip: usize,
    back: Option<Bytes>,
}

impl<Y: Yard> Model for LongAnswer<Y> {
    ghost use Rattle.std.specs.Prelude.{ℕ, List, string_bytes};
    ghost use Rattle.bm_http.specs.LongAnswers.{AreLeft, IsText, left_text, log_in};

    ghost Value = { List ℕ };

    ghost view = { λ s. left_text s.front (log_in s.mark.seen s.command (string_bytes s.name)) s.at
        s.end s.skip s.back };

    ghost invariant = { λ s.
        AreLeft (log_in s.mark.seen s.command (string_bytes s.name)) s.at s.end s.skip
        × IsText s.front × IsText s.back };
}

/// A piece of a text: as it is, or still to be escaped.
#[derive(Drop)]
pub enum BodyPiece {
    Ready(Bytes),
    Raw(Text),
}

impl BodyPiece {
    /// The bytes that are sent. Escaping takes time and memory, but no viewer.
    pub fn told(self, alloc: Global) -> Result<Bytes, PieceError>
        ensures { IfOk result (λ b. b ≡ piece_text self) }
    {
        match self {
            BodyPiece::Ready(bytes) => Ok(bytes),
            BodyPiece::Raw(text) => match inside(alloc, text) {
                Ok(bytes) => Ok(bytes),
                Err(_) => Err(PieceError::Memory),
            },
        }
    }
}

/// A text as it stands inside a string of JSON.
fn inside(alloc: Global, text: Text) -> Result<Bytes, AllocError>
    ensures { IfOk result (λ b. b ≡ escape text) }
{
    let quoted = Bytes::from_vec(bodies::quoted(alloc, text.as_str())?)?;
    if quoted.len() < 2 {
        return Err(AllocError);
    }
    quoted.slice(1..quoted.len() - 1)
}

/// A portion of the text of lines of a log as it stood at a mark, by a look of now.
fn portion_at<Y: Yard>(
    viewer: &mut Viewer<Y>,
    mark: &Mark<Y>,
    command: u64,
    name: &str,
    at: u64,
    count: u64,
    skip: usize,
) -> Result<Portion, PieceError>
    requires { at + count ≤ length (log_in mark.now.seen command name.now) }
    ensures seen { (viewer.new.lane ≡ viewer.old.lane) × IsPrefix viewer.old.seen viewer.new.seen }
    ensures some { IfOk result (λ p. 0 < length p.content) }
    ensures portion { IfOk result (λ p.
        IsPortion (log_in mark.now.seen command name.now) at count skip MOST_BYTES p) }
{
    let Ok(portion) = viewer.portion(command, name, at, count, skip, MOST_BYTES) else {
        return Err(PieceError::View);
    };
    // A frame without a byte would end the body.
    if portion.content.as_str().is_empty() {
        return Err(PieceError::View);
    }
    if !viewer.has_seen(mark) {
        return Err(PieceError::View);
    }
    Ok(portion)
}

impl<Y: Yard> LongAnswer<Y> {
    /// The answer with lines of a log as the viewer has seen it.
    pub fn new(
        alloc: Global,
        viewer: &Viewer<Y>,
        id: u64,
        command: u64,
        name: String,
        first: u64,
        count: u64,
    ) -> Result<LongAnswer<Y>, AllocError>
        requires there { first + count ≤ length (log_in viewer.now.seen command (string_bytes name)) }
        requires few { first + count < 2 ^ 64 }
        ensures { IfOk result (λ s. s ≡ contents_text id first (content_of
            (slice (log_in viewer.now.seen command (string_bytes name)) first count))) }
    {
        let mut back = Bytes::from_vec(bodies::contents(alloc, id, first, "")?)?;
        let front = back.split_to(FRONT)?;
        Ok(LongAnswer {
            mark: viewer.mark(),
            command,
            name,
            front: Some(front),
            at: first,
            end: first + count,
            skip: 0,
            back: Some(back),
        })
    }

    /// The lane that it is of. It only advises whose viewer to take, and so has no clause: `next`
    /// finds out another lane's viewer by the mark.
    pub fn lane(&self) -> u64 {
        self.mark.lane()
    }

    /// The next piece of the text, or none exactly at its end. Each piece has some of it. The
    /// viewer is one of the lane that the answer began at, which has seen no less.
    ///
    /// # Errors
    ///
    /// `PieceError` where the viewer isn't such a one, or memory ran out. The piece is still to be
    /// told then.
    pub fn next(&mut self, viewer: &mut Viewer<Y>) -> Option<Result<BodyPiece, PieceError>>
        ensures seen { (viewer.new.lane ≡ viewer.old.lane)
            × IsPrefix viewer.old.seen viewer.new.seen }
        ensures piece { MatchOption result (self.old ≡ [])
            (λ r. IfOk r (λ p. self.old ≡ piece_text p ++ self.new)) }
        ensures some { IfSome result (λ r. 0 < length self.old) }
        ensures shorter { IfSome result (λ r. IfOk r (λ p. length self.new < length self.old)) }
        ensures kept { IfSome result (λ r. IfErr r (λ e. self.new ≡ self.old)) }
        ensures bounded { IfSome result (λ r. IfOk r IsBounded) }
    {
        if let Some(front) = self.front.take() {
            return Some(Ok(BodyPiece::Ready(front)));
        }
        if self.at < self.end {
            let told = portion_at(
                viewer,
                &self.mark,
                self.command,
                self.name.as_str(),
                self.at,
                self.end - self.at,
                self.skip,
            );
            let portion = match told {
                Ok(portion) => portion,
                Err(error) => return Some(Err(error)),
            };
            self.at += portion.lines;
            self.skip = portion.skip;
            return Some(Ok(BodyPiece::Raw(portion.content)));
        }
        match self.back.take() {
            Some(back) => Some(Ok(BodyPiece::Ready(back))),
            None => None,
        }
    }
}
