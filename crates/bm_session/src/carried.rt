//! What the items of an update carry.
ghost use Rattle.std.specs.Prelude.{◌≡◌, IfOk};
ghost use Rattle.std.specs.Option.{option_or};
ghost use Rattle.bm_msg.specs.Carried.{carried, last_rc as last_rc_of, with_field, exit_code_of};

use bm_lines::{Letter, LineBatch, LineBatchBuilder, LogName};
use bm_msg::{Field, Fields};
use bm_value::Num;
use std::alloc::{AllocError, Global};

/// Adds what the item carries.
fn add_field(builder: &mut LineBatchBuilder, field: Field) -> Result<(), AllocError>
    ensures { IfOk result (λ u. builder.new ≡ with_field builder.old field) }
{
    match field {
        Field::Text(letter, text) => builder.add_text(&LogName::stdio(), letter, text.as_str()),
        Field::Named(name, text) => builder.add_text(&name, Letter::O, text.as_str()),
        Field::Rc(_) => Ok(()),
    }
}

/// The lines that the items carry, by the name of their log.
#[tactic(auto, using(crate::proofs::Fields::carried_more))]
pub fn batch(alloc: Global, fields: Fields) -> Result<LineBatch, AllocError>
    ensures { IfOk result (λ batch. batch ≡ carried fields) }
{
    let mut builder = LineBatchBuilder::new(alloc);
    for field in fields.into_vec() {
        add_field(&mut builder, field)?;
    }
    Ok(builder.into_batch())
}

/// The exit code of the item, or the one before it.
fn code_after(last: Option<Num>, field: &Field) -> Option<Num>
    ensures { result ≡ option_or (exit_code_of field.now) last }
{
    match field {
        Field::Rc(code) => Some(*code),
        _ => last,
    }
}

/// The last exit code of the items.
#[tactic(auto, using(crate::proofs::Fields::last_rc_more))]
pub fn last_rc(fields: &[Field]) -> Option<Num>
    ensures { result ≡ last_rc_of fields.now }
{
    let mut last = None;
    for field in fields {
        last = code_after(last, field);
    }
    last
}
