//! A batch of many names, put together with a table of them.

use super::has_part;
use bm_lines::{Letter, LineBatch, LineBatchBuilder, LogName};
use std::alloc::Global;

const NAMES: u32 = 1000;

/// The number of the name at a place: each below `NAMES` once, in no order that a table could have.
fn number_at(place: u32) -> u32 {
    place.wrapping_mul(7919) % NAMES
}

/// The name that is a number's digits.
fn numbered(alloc: Global, number: u32) -> Option<LogName> {
    let digits = format!(in alloc; "{number}").ok()?;
    LogName::new(alloc, digits.as_str()).ok()?
}

/// Whether the part at the place has the name, and what was said under it.
fn is_at(batch: &LineBatch, place: u32, name: &LogName, said: &str) -> bool {
    match batch.parts().get(place as usize) {
        Some(part) => {
            part.name.is(name.as_str())
                && part.block.content() == said
                && has_part(batch, name.as_str(), said)
        }
        None => false,
    }
}

/// Whether the part at the place has its name, and what was said under it.
fn has_place(alloc: Global, batch: &LineBatch, place: u32, said: &str) -> bool {
    match numbered(alloc, number_at(place)) {
        Some(name) => is_at(batch, place, &name, said),
        None => false,
    }
}

/// Whether the parts are those of all names, in their order, each with what was said.
fn is_whole(alloc: Global, batch: &LineBatch, said: &str) -> bool {
    for place in 0..NAMES {
        if !has_place(alloc, batch, place, said) {
            return false;
        }
    }
    batch.parts().len() == NAMES as usize && batch.of("a").is_none()
}

/// Whether the builder takes a line under the name at the place.
fn takes_at(alloc: Global, builder: &mut LineBatchBuilder, place: u32) -> bool {
    match numbered(alloc, number_at(place)) {
        Some(name) => builder.add_text(&name, Letter::O, "a").is_ok(),
        None => false,
    }
}

/// The batch of all names, each with one line.
fn of_all(alloc: Global) -> Option<LineBatch> {
    let mut builder = LineBatchBuilder::new(alloc);
    for place in 0..NAMES {
        if !takes_at(alloc, &mut builder, place) {
            return None;
        }
    }
    Some(builder.into_batch())
}

/// Whether the batch takes a line more under the name.
fn takes_more(alloc: Global, batch: &mut LineBatch, number: u32) -> bool {
    match numbered(alloc, number) {
        Some(name) => batch.add(&name, Letter::E, "b").is_ok(),
        None => false,
    }
}

/// Whether the batch takes a line more under each name, and then has it.
fn grows(alloc: Global, batch: &mut LineBatch) -> bool {
    for number in 0..NAMES {
        if !takes_more(alloc, batch, number) {
            return false;
        }
    }
    is_whole(alloc, batch, "oa\neb\n")
}

fn has_a_copy_that_grows(alloc: Global, batch: &LineBatch) -> bool {
    match batch.copy() {
        Ok(mut copy) => grows(alloc, &mut copy),
        Err(_) => false,
    }
}

/// Whether the batch of all names is whole, and stays so while a copy grows.
fn keeps_places(alloc: Global) -> bool {
    match of_all(alloc) {
        Some(batch) => {
            is_whole(alloc, &batch, "oa\n")
                && has_a_copy_that_grows(alloc, &batch)
                && is_whole(alloc, &batch, "oa\n")
        }
        None => false,
    }
}

#[test]
fn many_names_keep_their_places(rt: HostRuntime) {
    assert!(rt; keeps_places(rt.alloc()));
}
