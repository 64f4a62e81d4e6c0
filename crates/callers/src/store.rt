//! Callers of the book of a lane's logs.

ghost use Rattle.std.specs.Prelude.{◌≡◌, ◌≤◌, All, IsSome, IfSome, IfOk, OnOk, length};
ghost use Rattle.bm_store.specs.Book.{Logs, lines_in_log};
ghost use Rattle.bm_store.specs.Kept.{logs_in};

use bm_session::Item;
use bm_store::{Book, Chunk, ViewRefusal};
use std::alloc::AllocError;

/// A loss ends every command of the book that is open, not just the newest.
pub fn loss_ends_each_command(book: &mut Book) -> Result<(), AllocError>
    ensures { OnOk result (All (λ (l : Logs). IsSome l.ended) (logs_in book.new)) }
{
    book.apply(&Item::Gone)
}

/// Lines that are asked for at the end of a log, or behind it, are none.
pub fn nothing_is_behind_the_end(
    book: &Book,
    command: u64,
    name: &str,
    offset: u64,
    limit: u64,
) -> Result<Chunk, ViewRefusal>
    requires { IfSome (lines_in_log (logs_in book.now) command name.now)
        (λ lines. length lines ≤ offset) }
    ensures { IfOk result (λ chunk. chunk.lines ≡ 0) }
{
    book.slice(command, name, offset, limit)
}
