//! The last header lines of a command that its worker ends, or whose pipes it gives up.

ghost use Rattle.std.specs.Prelude.{◌≡◌, ◌≤◌, IfOk, length};
ghost use Rattle.bm_lines.specs.declared.letter.Letter.TheVariants.{H};
ghost use Rattle.bm_outbox.specs.Stopping.{AreHeaders, ending_of, held_line, stop_lines};

use crate::ending::Ending;
use crate::said::Said;
use crate::stopping::{Leftover, StopCause};
use bm_lines::{Letter, Text};
use std::alloc::{AllocError, Global};

/// How a command ends that is ended for this reason.
pub(crate) fn ending_of(why: StopCause) -> Ending
    ensures { result ≡ ending_of why }
{
    match why {
        StopCause::Interrupted => Ending::Interrupted,
        StopCause::NoMemory => Ending::NoMemory,
    }
}

/// What is said of such a command: what may go on of it, and why it was ended.
pub(crate) fn stop_texts(
    alloc: Global,
    why: StopCause,
    left: Leftover,
) -> Result<Vec<Said>, AllocError>
    ensures { IfOk result (λ v. AreHeaders (stop_lines why left) v.items) }
{
    let mut texts = Vec::new(alloc);
    if let Some(line) = left.line() {
        texts.push(header(alloc, line)?)?;
    }
    texts.push(header(alloc, why.line())?)?;
    Ok(texts)
}

/// What is said of a command whose pipes were held open, and are waited for no more.
pub(crate) fn held_text(alloc: Global) -> Result<Said, AllocError>
    ensures letter { IfOk result (λ said. said.letter ≡ H) }
    ensures text { IfOk result (λ said. said.text ≡ held_line) }
{
    header(alloc, "pipe closed: held open for 60 seconds\n")
}

fn header(alloc: Global, line: &str) -> Result<Said, AllocError>
    requires { length line.now ≤ 65536 }
    ensures letter { IfOk result (λ said. said.letter ≡ H) }
    ensures text { IfOk result (λ said. said.text ≡ line.now) }
{
    Ok(Said {
        letter: Letter::H,
        text: Text::from_str(alloc, line)?,
    })
}
