//! Where a line of a log came from.

ghost use Rattle.std.specs.Prelude.{◌≡◌, ◌∷◌, []};
ghost use Rattle.bm_lines.specs.Lines.{letter_code};

/// The stream that a line came from: standard output, standard error, or the worker's header.
#[derive(Clone, Copy, PartialEq, Eq)]
pub enum Letter {
    O,
    E,
    H,
}

impl Letter {
    /// The letter in lower case, as the Buildbot manual writes it in front of each line.
    pub fn as_str(self) -> &'static str
        ensures { result.now ≡ letter_code self ∷ [] }
    {
        match self {
            Letter::O => "o",
            Letter::E => "e",
            Letter::H => "h",
        }
    }
}
