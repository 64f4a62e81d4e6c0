//! Names on one line.

ghost use Rattle.std.specs.Prelude.{◌≡◌, ◌<◌, ◌++◌, IfOk, OnOk, string_bytes};
ghost use Rattle.bm_operator.specs.OneLine.{escaped, one_line, shown};

use std::alloc::{AllocError, Global};

/// A name as it is shown on one line. Each control character is `\x` and two hex digits, and each
/// backslash is two. So no name ends a line or moves a terminal's cursor.
pub fn one_line(alloc: Global, name: &str) -> Result<String, AllocError>
    ensures { IfOk result (λ s. string_bytes s ≡ one_line name.now) }
{
    let mut line = String::new(alloc);
    for c in name.chars() {
        push_shown(&mut line, c)?;
    }
    Ok(line)
}

// Appends a character as a name shows it.
fn push_shown(line: &mut String, c: char) -> Result<(), AllocError>
    ensures { OnOk result (string_bytes line.new ≡ string_bytes line.old ++ shown c) }
{
    if c == '\\' {
        line.push_str("\\\\")
    } else if c.is_control() {
        push_escaped(line, u32::from(c))
    } else {
        line.push(c)
    }
}

// Appends the number of a character by two hex digits.
#[tactic(auto, using(std::proofs::lemmas::Fmt::hex_byte))]
fn push_escaped(line: &mut String, number: u32) -> Result<(), AllocError>
    requires { number < 256 }
    ensures { OnOk result (string_bytes line.new ≡ string_bytes line.old ++ escaped number) }
{
    write!(line, "\\x{number:02x}")
}
