//! A test aid: an allocator that refuses one request, so that a test can meet want of memory at
//! each request in turn. A sweep calls with `at` 1, 2, .. until a run leaves the allocator unspent:
//!
//! ```text
//! let heap = Refusing::new(alloc, at);
//! let answer = call(&heap);
//! if !heap.is_spent() { break; } // else the call met its at-th request refused
//! ```
//!
//! Promised: it passes as an allocator, and keeps the one that it was given. A body could still
//! refuse another request, or none: which one is the content of a cell, and in no clause. Tests
//! (`core_tests`, `allocator`) show it.
#![tactic(auto)]

ghost use Rattle.std.specs.Prelude.{◌≡◌};

use std::alloc::{AllocError, Allocator};
use std::cell::Cell;

/// Refuses the request with the number `at`, counted from 1, and passes every other one on to
/// `inner`. At 0 it refuses none.
pub struct Refusing<B: Allocator> {
    inner: B,
    left: Cell<u64>,
}

impl<B: Allocator> Refusing<B> {
    /// An allocator over `inner` that refuses the request `at`. Which one that is can be in no
    /// clause: it is a cell's content.
    pub fn new(inner: B, at: u64) -> Refusing<B>
        ensures { result.inner ≡ inner }
    {
        Refusing {
            inner,
            left: Cell::new(at),
        }
    }

    /// Whether the request was refused, where one was to be.
    pub fn is_spent(&self) -> bool {
        self.left.get() == 0
    }
}

impl<B: Allocator> Drop for Refusing<B> {
    fn drop(self) {
        let Self { inner: _, left: _ } = self;
    }
}

/// Whether this request is the one to refuse.
fn tick(left: &Cell<u64>) -> bool {
    let now = left.get();
    left.set(now.saturating_sub(1));
    now == 1
}

unsafe impl<B: Allocator> Allocator for Refusing<B> {
    ghost dealloc_token = { λ heap ty ptr. B.dealloc_token heap.inner ty ptr };

    fn allocate(&self, size: usize, align: usize) -> Result<*mut u8, AllocError> {
        if tick(&self.left) {
            return Err(AllocError);
        }
        self.inner.allocate(size, align)
    }

    unsafe fn deallocate(&self, ptr: *mut u8, size: usize, align: usize) {
        self.inner.deallocate(ptr, size, align);
    }
}
