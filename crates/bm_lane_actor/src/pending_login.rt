//! A connection that has not logged in: when it spoke last, and whether it was put out.

ghost use Rattle.std.specs.Prelude.{◌≡◌};

use std::alloc::{AllocError, Global};
use std::sync::Arc;
use std::sync::atomic::{AtomicBool, AtomicU64, Ordering};

/// A connection that has not logged in. When it spoke is told by a count of all that such
/// connections said, so no clock orders them.
#[derive(Drop)]
pub struct PendingLogin {
    /// How much all such connections had said when it came: no other one has this number.
    number: u64,
    /// The number of what it said last.
    heard: AtomicU64,
    is_put_out: AtomicBool,
    /// How much was said by all of them.
    said: Arc<AtomicU64, Global>,
}

impl PendingLogin {
    /// A connection that comes now.
    ///
    /// # Errors
    ///
    /// Want of memory.
    pub(crate) fn new(
        alloc: Global,
        said: &Arc<AtomicU64, Global>,
    ) -> Result<Arc<PendingLogin, Global>, AllocError> {
        let said = Arc::try_clone(said)?;
        let number = said.fetch_add(1, Ordering::SeqCst);
        Ok(Arc::new(alloc, PendingLogin::numbered(number, said))?)
    }

    /// The one of this number, which has a place.
    fn numbered(number: u64, said: Arc<AtomicU64, Global>) -> PendingLogin
        ensures { result.number ≡ number }
    {
        PendingLogin {
            number,
            heard: AtomicU64::new(number),
            is_put_out: AtomicBool::new(false),
            said,
        }
    }

    /// The number of its coming: no other one has it.
    pub fn number(&self) -> u64
        ensures { result ≡ self.now.number }
    {
        self.number
    }

    /// Something came from it.
    pub(crate) fn told(&self) {
        let number = self.said.fetch_add(1, Ordering::SeqCst);
        self.heard.store(number, Ordering::SeqCst);
    }

    /// The number of what it said last: that of its coming where it said nothing.
    pub(crate) fn heard(&self) -> u64 {
        self.heard.load(Ordering::SeqCst)
    }

    /// Its place is given to another one.
    pub(crate) fn put_out(&self) {
        self.is_put_out.store(true, Ordering::SeqCst);
    }

    /// Whether its place was given to another one.
    pub fn is_put_out(&self) -> bool {
        self.is_put_out.load(Ordering::SeqCst)
    }
}
