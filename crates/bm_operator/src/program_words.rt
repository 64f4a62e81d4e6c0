//! The words of a program that starts a worker.
ghost use Rattle.std.specs.Prelude.{◌≡◌, IfOk};
ghost use Rattle.bm_operator.specs.ProgramWords.{IsEachPlaced, IsPlaced};

use bm_lines::Text;
use std::alloc::{AllocError, Global};

/// The text in whose place the master's address comes.
const PLACE: &str = "{master}";

// A word, with the master's address in the place of each `{master}` in it.
fn placed(alloc: Global, word: &Text, master: &str) -> Result<Text, AllocError>
    ensures { IfOk result (IsPlaced master.now word.now) }
{
    let text = word.as_str().replace(alloc, PLACE, master)?;
    Ok(Text::from_string(text))
}

/// The words of a worker's program, with the master's address in the place of each `{master}` in
/// them. They are texts: as the board's `Words` they would put this crate above the board.
pub fn place_master(alloc: Global, words: &[Text], master: &str) -> Result<Vec<Text>, AllocError>
    ensures { IfOk result (λ all. IsEachPlaced master.now words.now all.items) }
{
    let mut all = Vec::with_capacity(alloc, words.len())?;
    for word in words {
        all.push(placed(alloc, word, master)?)?;
    }
    Ok(all)
}
