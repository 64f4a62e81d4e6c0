//! The locks of a board: which uses of them are good, and how many builds hold each.

ghost use Rattle.std.specs.Prelude.{◌≡◌, ℕ, ◌+◌, ◌<◌, ◌≤◌, ◌^◌, All, IsTrue, true, length, slice_index, if◌then◌else◌, ◌==◌, nat_lt};
ghost use Rattle.std.specs.List.{list_any, list_all};
ghost use Rattle.bm_board.specs.Locks.{are_distinct, are_good, is_mode, is_use, may_have};

use crate::plan::{LockUse, Mode};

/// Whether each lock is one of the first `count`, and none is named twice.
pub fn are_good(count: usize, uses: &[LockUse]) -> bool
    ensures { result ≡ are_good count uses.now }
{
    are_there(count, uses) && are_distinct(uses)
}

fn are_there(count: usize, uses: &[LockUse]) -> bool
    ensures { result ≡ list_all (λ u. nat_lt u.lock count) uses.now }
{
    uses.iter().all(|u| u.lock < count)
}

fn are_distinct(uses: &[LockUse]) -> bool
    ensures { result ≡ are_distinct uses.now }
{
    for i in 0..uses.len() {
        if is_named(&uses[i + 1..], uses[i].lock) {
            return false;
        }
    }
    true
}

fn is_named(uses: &[LockUse], lock: usize) -> bool
    ensures { result ≡ list_any (λ other. other.lock == lock) uses.now }
{
    uses.iter().any(|other| other.lock == lock)
}

/// Whether a lock with this maximum, held by so many in each mode, may be had in the mode.
pub fn may_have(mode: Mode, maximum: u32, counting: u32, exclusive: u32) -> bool
    ensures { result ≡ may_have mode maximum counting exclusive }
{
    match mode {
        Mode::Counting => exclusive == 0 && counting < maximum,
        Mode::Exclusive => exclusive == 0 && counting == 0,
    }
}

/// One holder more of each lock that is used in the mode.
pub fn take_locks(counts: &mut [u32], mode: Mode, uses: &[LockUse])
    requires distinct { are_distinct uses.now ≡ true }
    requires there { All (λ u. u.lock < length counts.old) uses.now }
    requires room { All (λ u. is_mode u.mode mode ≡ true
        → slice_index counts.old u.lock + 1 < 2 ^ 32) uses.now }
    ensures { (lock : ℕ) → lock < length counts.old → slice_index counts.new lock
        ≡ slice_index counts.old lock + (if list_any (is_use mode lock) uses.now then 1 else 0) }
{
    for u in uses {
        take_lock(counts, mode, *u);
    }
}

fn take_lock(counts: &mut [u32], mode: Mode, u: LockUse)
    requires there { u.lock < length counts.old }
    requires room { is_mode u.mode mode ≡ true → slice_index counts.old u.lock + 1 < 2 ^ 32 }
    ensures { (lock : ℕ) → lock < length counts.old → slice_index counts.new lock
        ≡ slice_index counts.old lock + (if is_use mode lock u then 1 else 0) }
{
    if is_mode(u.mode, mode) {
        counts[u.lock] += 1;
    }
}

/// One holder fewer of each lock that is used in the mode.
pub fn give_locks(counts: &mut [u32], mode: Mode, uses: &[LockUse])
    requires distinct { are_distinct uses.now ≡ true }
    requires there { All (λ u. u.lock < length counts.old) uses.now }
    requires held { All (λ u. is_mode u.mode mode ≡ true
        → 0 < slice_index counts.old u.lock) uses.now }
    ensures { (lock : ℕ) → lock < length counts.old → slice_index counts.old lock
        ≡ slice_index counts.new lock + (if list_any (is_use mode lock) uses.now then 1 else 0) }
{
    for u in uses {
        give_lock(counts, mode, *u);
    }
}

fn give_lock(counts: &mut [u32], mode: Mode, u: LockUse)
    requires there { u.lock < length counts.old }
    requires held { is_mode u.mode mode ≡ true → 0 < slice_index counts.old u.lock }
    ensures { (lock : ℕ) → lock < length counts.old → slice_index counts.old lock
        ≡ slice_index counts.new lock + (if is_use mode lock u then 1 else 0) }
{
    if is_mode(u.mode, mode) {
        counts[u.lock] -= 1;
    }
}

fn is_mode(a: Mode, b: Mode) -> bool
    ensures { result ≡ is_mode a b }
{
    matches!(
        (a, b),
        (Mode::Counting, Mode::Counting) | (Mode::Exclusive, Mode::Exclusive)
    )
}
