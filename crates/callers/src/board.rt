//! Callers of the board of builds.

ghost use Rattle.std.specs.Prelude.{◌≡◌, true, IfSome};

use bm_board::{Board, Build};

/// Once a build was added, its worker is wanted.
pub fn added_build_is_wanted(board: &mut Board, build: Build) -> Option<bool>
    ensures { IfSome result (λ wanted. wanted ≡ true) }
{
    let worker = build.worker;
    match board.add_build(build) {
        Ok(_) => Some(board.is_wanted(worker)),
        Err(_) => None,
    }
}
