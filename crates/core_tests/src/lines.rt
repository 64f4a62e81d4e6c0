//! Tests of `bm_lines`: worked examples, that calls succeed, and that copies keep what they had.

mod many_names;
mod memory;

use bm_lines::{Block, Letter, LineBatch, LineBatchBuilder, LogName, STDIO, Text, cut};
use std::alloc::{AllocError, Global};
use std::test::Fail;

/// A log's name, and a text under it.
type Item = (&'static str, Letter, &'static str);

/// Whether the batch has one part, with the content.
fn has_one(batch: &LineBatch, want: &str) -> bool {
    match batch.parts() {
        [part] => part.block.content() == want,
        _ => false,
    }
}

fn is_cut_alone(alloc: Global, letter: Letter, text: &str, want: &str) -> bool {
    match cut(alloc, letter, text) {
        Ok(block) => block.content() == want,
        Err(_) => false,
    }
}

fn is_added(alloc: Global, letter: Letter, text: &str, want: &str) -> bool {
    let mut block = Block::new(alloc);
    block.add(letter, text).is_ok() && block.content() == want
}

fn is_built(alloc: Global, letter: Letter, text: &str, want: &str) -> bool {
    let mut builder = LineBatchBuilder::new(alloc);
    let is_taken = builder.add_text(&LogName::stdio(), letter, text).is_ok();
    is_taken && has_one(&builder.into_batch(), want)
}

fn is_in_a_batch(alloc: Global, letter: Letter, text: &str, want: &str) -> bool {
    match LineBatch::of_str(alloc, LogName::stdio(), letter, text) {
        Ok(batch) => has_one(&batch, want),
        Err(_) => false,
    }
}

/// Whether each way to cut the text gives the content.
fn is_cut(alloc: Global, letter: Letter, text: &str, want: &str) -> bool {
    is_cut_alone(alloc, letter, text, want)
        && is_added(alloc, letter, text, want)
        && is_built(alloc, letter, text, want)
        && is_in_a_batch(alloc, letter, text, want)
}

#[test]
fn texts_are_cut_at_line_ends_alone(rt: HostRuntime) {
    static ROWS: [(Letter, &str, &str); 7] = [
        (Letter::E, "x\n\ny", "ex\ne\ney\n"),
        (Letter::O, "", ""),
        (Letter::O, "\n", "o\n"),
        (Letter::H, "a\r\nb\n", "ha\r\nhb\n"),
        (Letter::O, "\n\n", "o\no\n"),
        (Letter::H, "one", "hone\n"),
        (Letter::E, "ä\n", "eä\n"),
    ];
    for (letter, text, want) in &ROWS {
        assert!(rt; is_cut(rt.alloc(), *letter, text, want), "{text}");
    }
}

/// Whether the copy of a block of one line stays as it is while the block grows.
fn grows_apart(block: &mut Block, copy: &Block) -> bool {
    block.add(Letter::E, "b").is_ok()
        && copy.content() == "oa\n"
        && block.content() == "oa\neb\n"
        && block.add(Letter::H, "c").is_ok()
        && block.content() == "oa\neb\nhc\n"
}

fn has_a_copy_apart(block: &mut Block) -> bool {
    match block.copy() {
        Ok(copy) => grows_apart(block, &copy),
        Err(_) => false,
    }
}

#[test]
fn a_copy_keeps_its_lines_when_the_block_grows(rt: HostRuntime) -> Result<(), Fail> {
    let mut block = cut(rt.alloc(), Letter::O, "a\n")?;
    assert!(rt; has_a_copy_apart(&mut block));
    Ok(())
}

/// Lines of each letter, the second without a text, of three texts.
fn joined(alloc: Global) -> Result<Block, AllocError> {
    let mut block = cut(alloc, Letter::O, "ä\n")?;
    block.add(Letter::E, "\n")?;
    block.extend(&Block::new(alloc))?;
    block.extend(&cut(alloc, Letter::H, "y\nz")?)?;
    Ok(block)
}

/// Where a part of four lines begins, how many lines it has at most, and their content.
type Part = (u64, u64, &'static str);

static PARTS: [Part; 8] = [
    (0, 4, "oä\ne\nhy\nhz\n"),
    (0, u64::MAX, "oä\ne\nhy\nhz\n"),
    (0, 1, "oä\n"),
    (1, 2, "e\nhy\n"),
    (3, 9, "hz\n"),
    (2, 0, ""),
    (4, 1, ""),
    (u64::MAX, u64::MAX, ""),
];

#[test]
fn parts_of_joined_lines_are_shown(rt: HostRuntime) -> Result<(), Fail> {
    let block = joined(rt.alloc())?;
    assert!(rt; block.len() == 4);
    for (skip, limit, want) in &PARTS {
        assert!(rt; block.part(*skip, *limit) == *want, "{} {}", skip, limit);
    }
    Ok(())
}

fn is_its_copy(text: &Text) -> bool {
    match text.copy() {
        Ok(copy) => text.is(&copy),
        Err(_) => false,
    }
}

#[test]
fn a_text_is_its_copy(rt: HostRuntime) -> Result<(), Fail> {
    assert!(rt; is_its_copy(&Text::from_str(rt.alloc(), "a")?));
    Ok(())
}

/// A text of 254 bytes, and this behind it.
fn long(alloc: Global, end: &str) -> Result<String, AllocError> {
    let mut long = String::new(alloc);
    for _ in 0..127 {
        long.push('ä')?;
    }
    long.push_str(end)?;
    Ok(long)
}

fn is_name(alloc: Global, text: &str) -> bool {
    match LogName::new(alloc, text) {
        Ok(Some(name)) => name.is(text),
        _ => false,
    }
}

fn is_no_name(alloc: Global, text: &str) -> bool {
    matches!(LogName::new(alloc, text), Ok(None))
}

#[test]
fn names_have_1_to_255_bytes(rt: HostRuntime) -> Result<(), Fail> {
    let alloc = rt.alloc();
    assert!(rt; is_name(alloc, long(alloc, "x")?.as_str()));
    assert!(rt; is_no_name(alloc, long(alloc, "xy")?.as_str()) && is_no_name(alloc, ""));
    Ok(())
}

/// Whether the name and its copy are the text, and no other.
fn is_copied(name: &LogName, text: &str) -> bool {
    match name.copy() {
        Ok(copy) => copy.as_str() == text && copy.is(name.as_str()) && !name.is("std"),
        Err(_) => false,
    }
}

fn is_named_and_copied(alloc: Global, text: &str) -> bool {
    match LogName::new(alloc, text) {
        Ok(Some(name)) => is_copied(&name, text),
        _ => false,
    }
}

#[test]
fn copies_of_names_are_equal(rt: HostRuntime) {
    for text in &["stdio", "other"] {
        assert!(rt; is_named_and_copied(rt.alloc(), text));
    }
    assert!(rt; LogName::stdio().as_str() == STDIO && STDIO == "stdio");
}

/// Whether the batch takes the item.
fn adds(alloc: Global, batch: &mut LineBatch, (name, letter, text): &Item) -> bool {
    match LogName::new(alloc, name) {
        Ok(Some(name)) => batch.add(&name, *letter, text).is_ok(),
        _ => false,
    }
}

/// Whether the batch has the content under the name.
fn has_part(batch: &LineBatch, name: &str, want: &str) -> bool {
    match batch.of(name) {
        Some(block) => block.content() == want,
        None => false,
    }
}

/// Whether the batch has the content under each name, and no other part.
fn has(batch: &LineBatch, wants: &[(&str, &str)]) -> bool {
    for (name, want) in wants {
        if !has_part(batch, name, want) {
            return false;
        }
    }
    batch.parts().len() == wants.len()
}

fn batch_of(alloc: Global, items: &[Item]) -> Option<LineBatch> {
    let mut batch = LineBatch::new(alloc);
    for item in items {
        if !adds(alloc, &mut batch, item) {
            return None;
        }
    }
    Some(batch)
}

/// Whether an item joins those of its name, and the copy that was made before stays as it is.
fn joins_apart(alloc: Global, batch: &mut LineBatch, copy: &LineBatch) -> bool {
    adds(alloc, batch, &("stdio", Letter::E, "b\n"))
        && has(batch, &[("stdio", "oa\nos\neb\n"), ("l", "")])
        && batch.of("m").is_none()
        && has(copy, &[("stdio", "oa\nos\n"), ("l", "")])
}

fn joins(alloc: Global, batch: &mut LineBatch) -> bool {
    match batch.copy() {
        Ok(copy) => joins_apart(alloc, batch, &copy),
        Err(_) => false,
    }
}

#[test]
fn items_join_under_their_names(rt: HostRuntime) -> Result<(), Fail> {
    static ITEMS: [Item; 3] = [
        ("stdio", Letter::O, "a\n"),
        ("l", Letter::O, ""),
        ("stdio", Letter::O, "s\n"),
    ];
    let mut batch = batch_of(rt.alloc(), &ITEMS).ok_or("no batch")?;
    assert!(rt; joins(rt.alloc(), &mut batch));
    Ok(())
}

fn builds(alloc: Global, builder: &mut LineBatchBuilder, (name, letter, text): &Item) -> bool {
    match LogName::new(alloc, name) {
        Ok(Some(name)) => builder.add_text(&name, *letter, text).is_ok(),
        _ => false,
    }
}

/// The batch of the items, whose texts a builder is given.
fn built_of(alloc: Global, items: &[Item]) -> Option<LineBatch> {
    let mut builder = LineBatchBuilder::new(alloc);
    for item in items {
        if !builds(alloc, &mut builder, item) {
            return None;
        }
    }
    Some(builder.into_batch())
}

fn is_made(batch: Option<LineBatch>, wants: &[(&str, &str)]) -> bool {
    match batch {
        Some(batch) => has(&batch, wants),
        None => false,
    }
}

#[test]
fn given_texts_join_under_their_names(rt: HostRuntime) {
    static ITEMS: [Item; 5] = [
        ("stdio", Letter::E, "a\n"),
        ("l", Letter::O, "b\nc"),
        ("m", Letter::O, "b\nc"),
        ("l", Letter::O, "b\nc"),
        ("stdio", Letter::H, "d\n"),
    ];
    static WANTS: [(&str, &str); 3] = [
        ("stdio", "ea\nhd\n"),
        ("l", "ob\noc\nob\noc\n"),
        ("m", "ob\noc\n"),
    ];
    assert!(rt; is_made(built_of(rt.alloc(), &ITEMS), &WANTS));
    assert!(rt; is_made(batch_of(rt.alloc(), &ITEMS), &WANTS));
}

fn is_copied_empty(batch: &LineBatch) -> bool {
    match batch.copy() {
        Ok(copy) => copy.parts().is_empty(),
        Err(_) => false,
    }
}

/// Whether the copy of a batch of one part keeps it alone when the batch gets another.
fn is_kept_by_a_copy(alloc: Global, batch: &mut LineBatch) -> bool {
    match batch.copy() {
        Ok(copy) => {
            adds(alloc, batch, &("l", Letter::O, "b")) && has(&copy, &[("stdio", "ea\n")])
        }
        Err(_) => false,
    }
}

#[test]
fn a_copied_batch_keeps_its_parts(rt: HostRuntime) {
    let mut batch = LineBatch::new(rt.alloc());
    assert!(rt; is_copied_empty(&batch));
    assert!(rt; adds(rt.alloc(), &mut batch, &("stdio", Letter::E, "a\n")));
    assert!(rt; batch.of("l").is_none() && is_kept_by_a_copy(rt.alloc(), &mut batch));
}
