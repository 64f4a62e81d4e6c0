//! The lines that a block and its copies share.

ghost use Rattle.std.specs.Prelude.{◌≡◌, ◌++◌, length, IfOk, OnOk, OnErr};
ghost use Rattle.std.specs.Arc.{arc_value};
ghost use Rattle.bm_lines.specs.Lines.{lines_of, content_of};
ghost use Rattle.bm_lines.specs.Shared.{shared_lines};

use crate::content::Content;
use crate::letter::Letter;
use crate::one_line::OneLine;
use memchr::memchr;
use std::alloc::{AllocError, Global};
use std::sync::Arc;

/// Lines that are shared. A line by itself, as most updates carry, has no room for a list of
/// places, and is counted without a look at it.
#[derive(Drop)]
pub enum Shared {
    /// No line.
    Nothing,
    /// A line by itself.
    One(Arc<OneLine>),
    /// Some lines.
    Many(Arc<Content>),
}

impl Shared {
    /// The lines of a text.
    pub fn of(alloc: Global, letter: Letter, text: &str) -> Result<Shared, AllocError>
        ensures { IfOk result (λ s. shared_lines s ≡ lines_of letter text.now) }
    {
        if text.is_empty() {
            return Ok(Shared::Nothing);
        }
        let parts = text.strip_suffix('\n').unwrap_or(text);
        match memchr(b'\n', parts.as_bytes()) {
            Some(_) => Ok(Shared::Many(Arc::new(alloc, Content::of(alloc, letter, parts)?)?)),
            None => Ok(Shared::One(Arc::new(alloc, OneLine::of(alloc, letter, parts)?)?)),
        }
    }

    /// How many lines there are.
    pub fn len(&self) -> usize
        ensures { result ≡ length (shared_lines self.now) }
    {
        match self {
            Shared::Nothing => 0,
            Shared::One(_) => 1,
            Shared::Many(lines) => lines.count(),
        }
    }

    /// The content of all lines.
    pub fn content(&self) -> &str
        ensures { result.now ≡ content_of (shared_lines self.now) }
    {
        match self {
            Shared::Nothing => "",
            Shared::One(line) => line.as_str(),
            Shared::Many(lines) => lines.as_str(),
        }
    }

    /// The same lines, shared once more.
    pub fn share(&self) -> Result<Shared, AllocError>
        ensures { IfOk result (λ s. shared_lines s ≡ shared_lines self.now) }
    {
        match self {
            Shared::Nothing => Ok(Shared::Nothing),
            Shared::One(line) => Ok(Shared::One(Arc::try_clone(line)?)),
            Shared::Many(lines) => Ok(Shared::Many(Arc::try_clone(lines)?)),
        }
    }

    /// Appends other lines. Where the old ones are shared, all others keep them as they are.
    pub fn extend(&mut self, alloc: Global, more: &Shared) -> Result<(), AllocError>
        ensures ok { OnOk result (shared_lines self.new
            ≡ shared_lines self.old ++ shared_lines more.now) }
        ensures err { OnErr result (shared_lines self.new ≡ shared_lines self.old) }
    {
        if let Shared::Nothing = more {
            return Ok(());
        }
        match self {
            Shared::Nothing => *self = more.share()?,
            Shared::One(line) => {
                let mut lines = Content::of_line(alloc, line)?;
                append(&mut lines, more)?;
                *self = Shared::Many(Arc::new(alloc, lines)?);
            }
            Shared::Many(lines) => grow(alloc, lines, more)?,
        }
        Ok(())
    }
}

/// Appends lines: in place where nobody else has the old ones, else to a copy.
fn grow(alloc: Global, lines: &mut Arc<Content>, more: &Shared) -> Result<(), AllocError>
    ensures ok { OnOk result (arc_value lines.new ≡ arc_value lines.old ++ shared_lines more.now) }
    ensures err { OnErr result (arc_value lines.new ≡ arc_value lines.old) }
{
    if let Some(own) = Arc::get_mut(lines) {
        return append(own, more);
    }
    let mut copy = lines.copy()?;
    append(&mut copy, more)?;
    *lines = Arc::new(alloc, copy)?;
    Ok(())
}

fn append(lines: &mut Content, more: &Shared) -> Result<(), AllocError>
    ensures ok { OnOk result (lines.new ≡ lines.old ++ shared_lines more.now) }
    ensures err { OnErr result (lines.new ≡ lines.old) }
{
    match more {
        Shared::Nothing => Ok(()),
        Shared::One(line) => lines.append(line.as_str(), &[]),
        Shared::Many(more) => lines.append(more.as_str(), more.begins()),
    }
}
