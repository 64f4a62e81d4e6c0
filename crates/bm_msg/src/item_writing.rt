//! The items of an update as trees, and the names of the streams.

ghost use Rattle.std.specs.Prelude.{◌≡◌, ◌<◌, ◌^◌, ◌∷◌, [], map, length, IfOk};
ghost use Rattle.bm_value.specs.Tree.{array};
ghost use Rattle.bm_value.specs.View.{tree, trees_of};
ghost use Rattle.bm_msg.specs.Trees.{two, item_of, stream_of};

use crate::field::{Field, Fields};
use bm_lines::Letter;
use bm_value::{Items, Value};
use std::alloc::{AllocError, Global};

/// The name of a letter's stream, as the Buildbot manual has it in the items of an update.
pub fn stream_name(letter: Letter) -> &'static str
    ensures name { result.now ≡ stream_of letter }
    ensures short { length result.now < 2 ^ 32 }
{
    match letter {
        Letter::O => "stdout",
        Letter::E => "stderr",
        Letter::H => "header",
    }
}

fn two(
    alloc: Global,
    first: Value<Global>,
    second: Value<Global>,
) -> Result<Value<Global>, AllocError>
    ensures { IfOk result (λ v. tree v ≡ two (tree first) (tree second)) }
{
    let mut vec = Vec::with_capacity(alloc, 2)?;
    vec.push(first)?;
    vec.push(second)?;
    Ok(Value::Array(Items { vec }))
}

fn item(alloc: Global, field: &Field) -> Result<Value<Global>, AllocError>
    ensures { IfOk result (λ v. tree v ≡ item_of field.now) }
{
    match field {
        Field::Text(letter, said) => two(
            alloc,
            Value::from_str(alloc, stream_name(*letter))?,
            Value::from_str(alloc, said.as_str())?,
        ),
        Field::Named(name, said) => {
            let named = two(
                alloc,
                Value::from_str(alloc, name.as_str())?,
                Value::from_str(alloc, said.as_str())?,
            )?;
            two(alloc, Value::from_str(alloc, "log")?, named)
        }
        Field::Rc(n) => two(alloc, Value::from_str(alloc, "rc")?, Value::Int(*n)),
    }
}

/// The items of an update.
pub(crate) fn items(alloc: Global, fields: &Fields) -> Result<Value<Global>, AllocError>
    ensures { IfOk result (λ v. tree v ≡ array (trees_of (map item_of fields.now))) }
{
    let fields = fields.as_slice();
    let mut vec = Vec::with_capacity(alloc, fields.len())?;
    for field in fields {
        vec.push(item(alloc, field)?)?;
    }
    Ok(Value::Array(Items { vec }))
}
