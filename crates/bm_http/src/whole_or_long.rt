//! Answers that are whole or still to be told.
ghost use Rattle.std.specs.Prelude.{◌≡◌, IfOk};
ghost use Rattle.bm_http.specs.FirstLooks.{shown_by};
ghost use Rattle.bm_http.specs.WholeOrLong.{reply_told};

use crate::answer::Answer;
use crate::first_look::FirstLook;
use crate::long_answer::LongAnswer;
use bm_lane::Yard;
use std::alloc::{AllocError, Global};

/// What a request is answered.
#[derive(Drop)]
pub enum WholeOrLong<T> {
    /// All of it.
    Whole(Answer),
    /// A page, of which this is left to tell.
    Long(T),
}

impl<'t, Y: Yard> FirstLook<'t, Y> {
    /// The answer. No viewer is needed for it.
    pub fn answer(self, alloc: Global) -> Result<WholeOrLong<LongAnswer<Y>>, AllocError>
        ensures { IfOk result (λ t. reply_told (λ text. text) t ≡ shown_by self.entry) }
    {
        match self {
            FirstLook::Whole(lookup) => Ok(WholeOrLong::Whole(lookup.answer(alloc)?)),
            FirstLook::Long(long_answer) => Ok(WholeOrLong::Long(long_answer)),
        }
    }
}
