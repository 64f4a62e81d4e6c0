//! The header lines of a command.

ghost use Rattle.std.specs.Prelude.{◌≡◌, ◌++◌, ◌∷◌, IfOk, OnOk, string_bytes};
ghost use Rattle.std.specs.List.{flat_map};
ghost use Rattle.bm_outbox.specs.Faults.{fault_line};
ghost use Rattle.bm_outbox.specs.Headers.{words_line, exit_line};

use crate::start_fault::StartFault;
use bm_lines::Text;
use std::alloc::{AllocError, Global};

/// The line that a command begins with: its words, joined by single spaces.
pub fn words_line(alloc: Global, words: &[Text]) -> Result<String, AllocError>
    ensures { IfOk result (λ s. string_bytes s ≡ words_line words.now) }
{
    let Some((first, rest)) = words.split_first() else {
        return String::from_str(alloc, "\n");
    };
    let mut line = String::from_str(alloc, first.as_str())?;
    push_words(&mut line, rest)?;
    line.push_str("\n")?;
    Ok(line)
}

/// Pushes words, each behind a space.
fn push_words(line: &mut String, words: &[Text]) -> Result<(), AllocError>
    ensures { OnOk result (string_bytes line.new
        ≡ string_bytes line.old ++ flat_map (λ word. 32 ∷ word) words.now) }
{
    for word in words {
        line.push_str(" ")?;
        line.push_str(word.as_str())?;
    }
    Ok(())
}

/// The last line of a command whose process gave this exit code.
pub fn exit_line(alloc: Global, code: i64) -> Result<String, AllocError>
    ensures { IfOk result (λ s. string_bytes s ≡ exit_line code) }
{
    format!(in alloc; "program finished with exit code {code}\n")
}

/// The line that says why a command can't be started.
pub fn fault_line(alloc: Global, fault: StartFault) -> Result<String, AllocError>
    ensures { IfOk result (λ s. string_bytes s ≡ fault_line fault) }
{
    let why = fault.reason();
    format!(in alloc; "cannot start: {why}\n")
}
