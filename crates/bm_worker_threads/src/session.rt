//! The name of a session.
ghost use Rattle.std.specs.Prelude.{◌≡◌, ℕ, List, length, string_bytes, IfOk};
ghost use Rattle.hex.specs.Hex.{encode_lower};

use std::alloc::AllocGlobal;
use std::io;
use std::random::RandomSource;

/// The name of a new session: 32 hex digits of 16 random bytes. An error where the system gives
/// none, or memory is wanting.
pub fn new_session<R: RandomSource + AllocGlobal>(rt: &R) -> io::Result<String>
    ensures { IfOk result (λ name. (bytes : List ℕ) × (length bytes ≡ 16)
        × (string_bytes name ≡ encode_lower bytes)) }
{
    let mut bytes = [0u8; 16];
    rt.fill_bytes(&mut bytes)?;
    Ok(hex::encode(rt.alloc(), bytes)?)
}
