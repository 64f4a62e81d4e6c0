//! Decimal numbers below 2^64, as command lines, requests and standard input write them.
//!
//! A number is one or more of the digits 0 to 9. Leading zeros are allowed; a sign, a space or any
//! other character is not. No call takes memory.
//!
//! Promised: each call answers the number that its text writes, and `None` exactly where the text
//! writes none below 2^64. A body could give no other answer.
#![tactic(auto)]

ghost use Rattle.std.specs.Prelude.{◌≡◌};
ghost use Rattle.bm_decimal.specs.Decimals.{number_of};

use std::str;

/// The number that a text of one or more decimal digits writes, if it is below 2^64. Leading zeros
/// are allowed, a sign is not.
pub fn read_number(text: &str) -> Option<u64>
    ensures { result ≡ number_of text.now }
{
    if text.as_bytes().first() == Some(&b'+') {
        return None;
    }
    text.parse().ok()
}

/// The same of bytes, which need not be UTF-8.
pub fn read_number_in(bytes: &[u8]) -> Option<u64>
    ensures { result ≡ number_of bytes.now }
{
    match str::from_utf8(bytes) {
        Ok(text) => read_number(text),
        Err(_) => None,
    }
}
