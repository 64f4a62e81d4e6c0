//! A text that is short enough to be said.

ghost use Rattle.std.specs.Prelude.{◌≤◌, length};

use bm_lines::{Letter, Text};

/// The most bytes of a text that is said in one update.
pub const MOST_BYTES: usize = 65_536;

/// A text of one pipe, of at most 65,536 bytes.
#[derive(Drop)]
pub struct Said {
    pub letter: Letter,
    pub text: Text,
    pub ghost short: { length text ≤ 65536 },
}
