//! The lines of a build master's standard input.

ghost use Rattle.std.specs.Prelude.{◌≡◌};
ghost use Rattle.bm_operator.specs.Cancel.{cancelled};

use bm_decimal::read_number_in;

/// The number of the build that a line cancels. The line is `cancel I`: one space between the two,
/// and I of one or more decimal digits, below 2^64. Any other line has none. The line end is no
/// part of it.
pub fn read_cancel(line: &[u8]) -> Option<u64>
    ensures { result ≡ cancelled line.now }
{
    match line.strip_prefix(b"cancel ") {
        Some(digits) => read_number_in(digits),
        None => None,
    }
}
