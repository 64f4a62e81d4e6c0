//! Values of bytes.

ghost use Rattle.std.specs.Prelude.{◌≡◌, ◌≢◌, ◌≤◌, ℕ, IfOk, IfErr, Ok, Err};
ghost use Rattle.bm_value.specs.declared.fault.DecodeError.{DecodeError};
ghost use Rattle.bm_value.specs.Tree.{Tree, depth};
ghost use Rattle.bm_value.specs.Decoding.{Reads, Decodes, DecodesWhole, Trails};
ghost use Rattle.bm_value.specs.Spelling.{Spells, Fails};
ghost use Rattle.bm_value.specs.View.{tree};

use crate::fault::DecodeError;
use crate::limits::MAX_DEPTH;
use crate::reader::Reader;
use crate::value::Value;
use std::alloc::Allocator;

/// The value at the front of the bytes, and how many bytes it takes. Memory is taken for bytes that
/// are there, never by a claimed length alone.
///
/// # Errors
///
/// The first fault from the left: `Truncated`, `Reserved`, `BadUtf8`, or `TooDeep` where arrays and
/// maps nest deeper than 32. `Mem` where the allocator refused a request, at the place of the
/// growth.
pub fn decode<A: Allocator + Copy>(alloc: A, bytes: &[u8]) -> Result<(Value<A>, usize), DecodeError>
    // What is answered is spelled so.
    ensures found { IfOk result (λ x. Reads bytes.now (tree x.0) x.1) }
    // What is spelled at the front is answered, unless memory runs out.
    ensures only { (t : Tree) (n : ℕ) → Reads bytes.now t n → Decodes result (Ok (t, n)) }
    // A fault that is told is the first from the left.
    ensures fault { IfErr result (λ e. e ≢ DecodeError.Mem → Fails bytes.now 0 e) }
    // The first fault from the left is told, unless memory runs out.
    ensures refused { (f : DecodeError) → Fails bytes.now 0 f → Decodes result (Err f) }
{
    let mut reader = Reader { alloc, rest: bytes };
    match reader.value(MAX_DEPTH) {
        Ok(value) => {
            let taken = bytes.len() - reader.rest.len();
            Ok((value, taken))
        }
        Err(e) => Err(e),
    }
}

/// The value that all of the bytes spell.
///
/// # Errors
///
/// Those of `decode`, and `Trailing` where more bytes stand behind the value.
pub fn decode_whole<A: Allocator + Copy>(alloc: A, bytes: &[u8]) -> Result<Value<A>, DecodeError>
    ensures found { IfOk result (λ v. Spells bytes.now (tree v) × (depth (tree v) ≤ 32)) }
    ensures only { (t : Tree) → Spells bytes.now t → depth t ≤ 32 → DecodesWhole result (Ok t) }
    ensures trailing { result ≡ Err DecodeError.Trailing → Trails bytes.now }
    ensures trails { Trails bytes.now → DecodesWhole result (Err DecodeError.Trailing) }
    ensures fault { IfErr result (λ e. e ≢ DecodeError.Mem → e ≢ DecodeError.Trailing
        → Fails bytes.now 0 e) }
    ensures refused { (f : DecodeError) → Fails bytes.now 0 f → DecodesWhole result (Err f) }
{
    let mut reader = Reader { alloc, rest: bytes };
    match reader.value(MAX_DEPTH) {
        Ok(value) => {
            if reader.rest.is_empty() {
                Ok(value)
            } else {
                Err(DecodeError::Trailing)
            }
        }
        Err(e) => Err(e),
    }
}
