//! How much of what a pipe gives is shown at once.

ghost use Rattle.std.specs.Prelude.{MatchOption};
ghost use Rattle.bm_outbox.specs.Stretches.{IsStretch};
ghost use Rattle.bm_work.specs.Assembling.{IsUnended};

use memchr::memrchr;

/// The most bytes of a line that go into one text.
const LONGEST: usize = 16_384;

/// How many bytes are shown at once: those up to the last line end of the first 16,384. All 16,384
/// are shown where no line ends in them. None where no text ends in the bytes. One pass suffices,
/// since U+FFFD never stands for bytes on both sides of a line end. An `Assembler` would make texts
/// that have to be joined again.
pub(crate) fn stretch_end(bytes: &[u8]) -> Option<usize>
    ensures { MatchOption result (IsUnended bytes.now) (IsStretch bytes.now) }
{
    let len = LONGEST.min(bytes.len());
    match memrchr(b'\n', &bytes[..len]) {
        Some(place) => Some(place + 1),
        None if len == LONGEST => Some(len),
        None => None,
    }
}
