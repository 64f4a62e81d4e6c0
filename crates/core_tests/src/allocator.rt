//! Tests of `refusing`.
//!
//! Each request refused in turn.

use bumpalo::Bump;
use refusing::*;
use std::alloc::{AllocError, Allocator, Global};
use std::test::Fail;

fn filled<A: Allocator + Copy>(alloc: A, n: u8) -> Result<Vec<Vec<u8, A>, A>, AllocError> {
    let mut rows = Vec::new(alloc);
    for x in 0..n {
        let mut row = Vec::new(alloc);
        row.push(x)?;
        rows.push(row)?;
    }
    Ok(rows)
}

/// How many requests are refused in turn before a run that meets none, or 0 where a call went on
/// past a refusal.
fn refusals(alloc: Global) -> u64 {
    for at in 1..1000 {
        let heap = Refusing::new(alloc, at);
        let made = filled(&heap, 6).is_ok();
        if !heap.is_spent() {
            return if made { at - 1 } else { 0 };
        }
        if made {
            return 0;
        }
    }
    0
}

#[test]
fn each_request_is_refused_once(rt: HostRuntime) {
    // One for each of six rows, and two for the vector of rows, which grows once.
    assert_eq!(rt; refusals(rt.alloc()), 8);
}

#[test]
fn an_arena_passes_the_refusal_on(rt: HostRuntime) -> Result<(), Fail> {
    let heap = Refusing::new(rt.alloc(), 1);
    let arena = Bump::new(&heap);
    assert!(rt; filled(&arena, 6).is_err());
    assert_eq!(rt; filled(&arena, 6)?.len(), 6);
    Ok(())
}
