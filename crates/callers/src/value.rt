//! Callers of the reader and the writer of values.

ghost use Rattle.std.specs.Prelude.{◌≡◌, ◌∷◌, ◌++◌, [], pos, IfOk, IfErr, OnOk};
ghost use Rattle.bm_value.specs.Tree.{int};
ghost use Rattle.bm_value.specs.View.{tree};
ghost use Rattle.bm_value.specs.declared.fault.DecodeError.{DecodeError};

use bm_value::{DecodeError, EncodeError, Value, decode, encode};
use std::alloc::Allocator;

/// A longer format of a small number is read as that number, unless memory runs out.
pub fn long_form_is_read<A: Allocator + Copy>(alloc: A) -> Result<(Value<A>, usize), DecodeError>
    ensures five { IfOk result (λ read. tree read.0 ≡ int (pos 5)) }
    ensures only_memory { IfErr result (λ e. e ≡ DecodeError.Mem) }
{
    decode(alloc, &[0xcc, 5])
}

/// A number of at least 0 is written in the unsigned format: 256 as `cd 01 00`.
pub fn positive_is_written_as_unsigned(value: &Value, out: &mut Vec<u8>) -> Result<(), EncodeError>
    requires { tree value.now ≡ int (pos 256) }
    ensures { OnOk result (out.new.items ≡ out.old.items ++ 0xcd ∷ 1 ∷ 0 ∷ []) }
{
    encode(value, out)
}
