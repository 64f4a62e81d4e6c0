//! The flag of a build, and whether it was set when it was read last.

ghost use Rattle.std.specs.Prelude.{◌≡◌, false};

use crate::lane_request::CancelFlag;
use std::marker::Model;
use std::sync::atomic::Ordering;

/// The flag of a build. Contracts see whether it was set when it was read last. What an atomic
/// holds now no contract sees, so `read` alone may say it.
#[derive(Drop)]
pub struct SeenFlag<'a> {
    flag: &'a CancelFlag,
    was_set: bool,
}

impl<'a> Model for SeenFlag<'a> {
    ghost use Rattle.std.specs.Prelude.{Bool};

    ghost Value = { Bool };

    ghost view = { λ f. f.was_set };
}

impl<'a> SeenFlag<'a> {
    /// The flag, which was not read yet.
    pub fn new(flag: &'a CancelFlag) -> SeenFlag<'a>
        ensures { result ≡ false }
    {
        SeenFlag {
            flag,
            was_set: false,
        }
    }

    /// Whether it is set.
    pub fn read(&mut self) -> bool
        ensures { result ≡ self.new }
    {
        self.was_set = self.flag.load(Ordering::SeqCst);
        self.was_set
    }

    /// Takes the cancel back, if there was one. The answer is whether there was.
    pub fn take(&self) -> bool {
        self.flag.swap(false, Ordering::SeqCst)
    }

    /// The flag, for who takes the order.
    pub fn flag(&self) -> &'a CancelFlag {
        self.flag
    }
}
