//! Who may log in.

ghost use Rattle.std.specs.Prelude.{◌≡◌, bytes_eq, IfOk};
ghost use Rattle.bm_link.specs.Users.{place_of, is_user};

use bm_lines::Text;
use std::alloc::{AllocError, Global};

/// A worker that may log in. It has no text form, so that its password is never printed.
#[derive(Drop)]
pub struct User {
    pub name: Text,
    pub password: Text,
}

impl User {
    /// An equal user.
    pub fn copy(&self) -> Result<User, AllocError>
        ensures { IfOk result (λ user. user ≡ self.now) }
    {
        Ok(User {
            name: self.name.copy()?,
            password: self.password.copy()?,
        })
    }

    /// Whether it has this name and this password.
    fn is(&self, name: &str, password: &str) -> bool
        ensures { result ≡ is_user name.now password.now self.now }
    {
        let is_named = self.name.as_str() == name;
        let is_allowed = are_same(self.password.as_str().as_bytes(), password.as_bytes());
        is_named && is_allowed
    }
}

/// Whether the bytes are the same. Every byte is looked at, so that the time that it takes doesn't
/// tell how many are right.
fn are_same(left: &[u8], right: &[u8]) -> bool
    ensures { result ≡ bytes_eq left.now right.now }
{
    let mut same = left.len() == right.len();
    'bytes: for place in 0..left.len().min(right.len()) {
        same &= left[place] == right[place];
    }
    same
}

/// The place of the user with this name and this password.
pub(crate) fn place_of(users: &[User], name: &str, password: &str) -> Option<usize>
    ensures { result ≡ place_of users.now name.now password.now }
{
    users.iter().position(|user| user.is(name, password))
}
