//! A range of request numbers.

use crate::reply::Verdict;

/// The request numbers from `first` to `last`, and the verdict that each first got.
#[derive(Clone, Copy, PartialEq, Eq)]
pub struct Seen {
    pub first: u64,
    pub last: u64,
    pub verdict: Verdict,
}
