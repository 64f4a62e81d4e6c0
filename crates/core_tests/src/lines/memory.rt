//! Calls that meet want of memory change nothing, and answer when they are made again.
//!
//! These are made for `tests/gate/refused_memory`, which runs each once for each of its requests,
//! with that one refused. In the gate no request is refused, so what is asserted behind an error
//! doesn't run there; what the calls make is asserted.

use bm_lines::{Block, Letter, LineBatch, LineBatchBuilder, LogName, Text, cut};
use std::alloc::{AllocError, Global};
use std::test::Fail;

/// What the call makes, at the second time where memory was refused.
fn again<T: Drop, F: Fn() -> Result<T, AllocError>>(make: F) -> Result<T, AllocError>
    requires { F.IsAlwaysCallable make }
{
    match make() {
        Ok(made) => Ok(made),
        Err(_) => make(),
    }
}

/// The log's name.
fn name_of(alloc: Global, name: &str) -> Option<LogName> {
    again(|| LogName::new(alloc, name)).ok()?
}

/// Whether the block takes the text, at the second time where memory was refused and its content is
/// as before.
fn takes(block: &mut Block, text: &str, before: &str) -> bool {
    block.add(Letter::O, text).is_ok()
        || block.content() == before && block.add(Letter::O, text).is_ok()
}

/// Whether the block grows, and what shares its lines doesn't.
fn grows(block: &mut Block, shared: &Block) -> bool {
    takes(block, "z\n", "ex\ne\ney\n")
        && block.content() == "ex\ne\ney\noz\n"
        && shared.content() == "ex\ne\ney\n"
}

fn grows_apart(block: &mut Block) -> bool {
    match again(|| block.copy()) {
        Ok(shared) => grows(block, &shared),
        Err(_) => false,
    }
}

#[test]
fn refused_block_keeps_its_lines(rt: HostRuntime) -> Result<(), Fail> {
    let alloc = rt.alloc();
    let mut block = again(|| cut(alloc, Letter::E, "x\n\ny"))?;
    assert!(rt; grows_apart(&mut block));
    Ok(())
}

/// Whether the block gets the lines of the other, at the second time where memory was refused and
/// its content is as before.
fn is_extended(block: &mut Block, other: &Block) -> bool {
    let is_longer = block.extend(other).is_ok()
        || block.content() == "oa\n" && block.extend(other).is_ok();
    is_longer && block.content() == "oa\neb\ne\n"
}

#[test]
fn refused_lines_leave_those_before(rt: HostRuntime) -> Result<(), Fail> {
    let alloc = rt.alloc();
    let mut block = again(|| cut(alloc, Letter::O, "a"))?;
    let other = again(|| cut(alloc, Letter::E, "b\n\n"))?;
    assert!(rt; is_extended(&mut block, &other));
    Ok(())
}

/// Whether the batch has the content under the name.
fn has(batch: &LineBatch, name: &str, want: &str) -> bool {
    match batch.of(name) {
        Some(block) => block.content() == want,
        None => false,
    }
}

/// Whether the batch has the content under `l`, and no part where there is none.
fn holds(batch: &LineBatch, want: &str) -> bool {
    if want.is_empty() {
        batch.parts().is_empty()
    } else {
        has(batch, "l", want)
    }
}

/// Whether the batch takes the text, at the second time where memory was refused and it has the
/// content as before.
fn takes_under(
    batch: &mut LineBatch,
    name: &LogName,
    (letter, text): (Letter, &str),
    before: &str,
) -> bool {
    batch.add(name, letter, text).is_ok()
        || holds(batch, before) && batch.add(name, letter, text).is_ok()
}

/// Whether the batch takes a text under the name and another one under a copy of it.
fn takes_both(batch: &mut LineBatch, name: &LogName) -> bool {
    match again(|| name.copy()) {
        Ok(copied) => {
            takes_under(batch, name, (Letter::O, "a\n"), "")
                && takes_under(batch, &copied, (Letter::E, "b\n"), "oa\n")
        }
        Err(_) => false,
    }
}

fn is_copied(batch: &LineBatch, want: &str) -> bool {
    match again(|| batch.copy()) {
        Ok(copy) => copy.parts().len() == 1 && holds(&copy, want),
        Err(_) => false,
    }
}

#[test]
fn refused_batch_keeps_its_parts(rt: HostRuntime) -> Result<(), Fail> {
    let alloc = rt.alloc();
    let name = name_of(alloc, "l").ok_or("no name")?;
    let mut batch = LineBatch::new(alloc);
    assert!(rt; takes_both(&mut batch, &name));
    assert!(rt; is_copied(&batch, "oa\neb\n"));
    Ok(())
}

/// Whether the batch takes the text, at the second time where memory was refused and it has the
/// parts as before.
fn gives(alloc: Global, batch: &mut LineBatch, name: &str, text: &str) -> bool {
    let Some(name) = name_of(alloc, name) else {
        return false;
    };
    let before = batch.parts().len();
    batch.add(&name, Letter::O, text).is_ok()
        || batch.parts().len() == before && batch.add(&name, Letter::O, text).is_ok()
}

#[test]
fn refused_text_leaves_the_parts(rt: HostRuntime) {
    static SAID: [(&str, &str); 3] = [("l", "a\n"), ("stdio", "b\nc"), ("l", "d\n")];
    let alloc = rt.alloc();
    let mut batch = LineBatch::new(alloc);
    for (name, text) in &SAID {
        assert!(rt; gives(alloc, &mut batch, name, text));
    }
    assert!(rt; has(&batch, "l", "oa\nod\n") && has(&batch, "stdio", "ob\noc\n"));
}

/// Whether the builder takes the text, at the second time where memory was refused.
fn builds(alloc: Global, builder: &mut LineBatchBuilder, name: &str, text: &str) -> bool {
    match name_of(alloc, name) {
        Some(name) => {
            builder.add_text(&name, Letter::O, text).is_ok()
                || builder.add_text(&name, Letter::O, text).is_ok()
        }
        None => false,
    }
}

/// More names than a builder has without a table.
static NAMES: [&str; 10] = ["k", "a", "stdio", "c", "b", "e", "d", "g", "f", "h"];

/// Whether the builder takes the text under each name.
fn builds_all(alloc: Global, builder: &mut LineBatchBuilder, text: &str) -> bool {
    for name in &NAMES {
        if !builds(alloc, builder, name, text) {
            return false;
        }
    }
    true
}

#[test]
fn refused_table_leaves_the_parts(rt: HostRuntime) {
    let alloc = rt.alloc();
    let mut builder = LineBatchBuilder::new(alloc);
    assert!(rt; builds_all(alloc, &mut builder, "a") && builds_all(alloc, &mut builder, "b"));
    let batch = builder.into_batch();
    assert!(rt; batch.parts().len() == NAMES.len());
    for name in &NAMES {
        assert!(rt; has(&batch, name, "oa\nob\n"));
    }
}

#[test]
fn refused_text_can_be_copied_again(rt: HostRuntime) -> Result<(), Fail> {
    let alloc = rt.alloc();
    let text = again(|| Text::from_str(alloc, "a text"))?;
    let copied = again(|| text.copy())?;
    assert!(rt; copied.as_str() == "a text");
    Ok(())
}
