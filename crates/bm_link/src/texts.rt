//! How long the texts may be that a message carries.

ghost use Rattle.std.specs.Prelude.{◌≡◌, ◌↔◌, IsTrue, length, nat_le, sum_by};
ghost use Rattle.bm_link.specs.Texts.{AreShort};

use bm_lines::Text;

const MOST_TEXTS: usize = 10_000;

/// The most bytes that they have together.
const MOST_TEXT_BYTES: usize = 900_000;

/// Whether these texts are few enough, and short enough together, that a message carries them.
pub fn are_short(texts: &[Text]) -> bool
    ensures { IsTrue result ↔ AreShort texts.now }
{
    texts.len() <= MOST_TEXTS && fit(texts, MOST_TEXT_BYTES)
}

/// Whether the texts have at most so many bytes together.
fn fit(texts: &[Text], most: usize) -> bool
    ensures { result ≡ nat_le (sum_by length texts.now) most }
{
    let mut room = most;
    for text in texts {
        if text.as_str().len() > room {
            return false;
        }
        room -= text.as_str().len();
    }
    true
}
