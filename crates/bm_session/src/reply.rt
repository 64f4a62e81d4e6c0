//! What the master sends after an event.

ghost use Rattle.std.specs.Prelude.{◌≡◌, ◌<◌, ◌^◌, IfOk};
ghost use Rattle.std.specs.Option.{option_copied};
ghost use Rattle.bm_value.specs.Decoding.{IsReadBack};
ghost use Rattle.bm_msg.specs.Trees.{answer, answer_bytes, tree_of};
ghost use Rattle.bm_session.specs.Texts.{exception_text};

use bm_msg::write_answer;
use std::alloc::{AllocError, Global};
use std::fmt;

/// What the master says to a request of the worker.
#[derive(Clone, Copy, PartialEq, Eq)]
pub enum Verdict {
    /// The update or the end of an open command was heard.
    Done,
    /// The command isn't open.
    NoCommand,
    /// The request's keys are missing or of another kind.
    BadArgs,
    /// The connection is logged in already.
    AuthAgain,
    /// No operation that a worker may ask for.
    NoSuchOp,
}

impl Verdict {
    /// The text of the exception that is the response, or None where the response is nil.
    pub fn exception(self) -> Option<&'static str>
        ensures { option_copied result ≡ exception_text self }
    {
        match self {
            Verdict::Done => None,
            Verdict::NoCommand => Some("no such command"),
            Verdict::BadArgs => Some("bad arguments"),
            Verdict::AuthAgain => Some("already authenticated"),
            Verdict::NoSuchOp => Some("no such operation"),
        }
    }

    /// The bytes of the response that tells the verdict on request `seq`. They are read back,
    /// whatever follows them.
    pub fn answer(self, alloc: Global, seq: u64) -> Result<Vec<u8>, AllocError>
        requires { seq < 2 ^ 63 }
        ensures bytes { IfOk result (λ bytes. bytes.items
            ≡ answer_bytes seq (exception_text self)) }
        ensures back { IfOk result
            (λ bytes. IsReadBack (tree_of (answer seq (exception_text self)))) }
    {
        write_answer(alloc, seq, self.exception())
    }
}

/// `nil`, or the text of the exception.
impl fmt::Display for Verdict {
    fn fmt<W: fmt::Write>(&self, f: &mut fmt::Formatter<W>) -> fmt::Result {
        f.write_str(self.exception().unwrap_or("nil"))
    }
}

/// What the master sends after an event.
#[derive(Clone, Copy, PartialEq, Eq)]
pub enum Reply {
    /// The event wants no answer.
    Silent,
    /// The answer to the request with this number.
    Answer(u64, Verdict),
    /// The order with this number, which starts this command.
    Start(u64, u64),
    /// The order with this number, which stops this command.
    Interrupt(u64, u64),
}
