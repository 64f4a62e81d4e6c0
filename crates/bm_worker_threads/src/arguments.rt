//! The words of the command line.

ghost use Rattle.std.specs.Prelude.{◌≡◌, ◌↔◌, ◌∷◌, [], IfSome, IsTrue, map, option_map, string_bytes};
ghost use Rattle.bm_link.specs.Texts.{AreShort};
ghost use Rattle.bm_worker_threads.specs.Arguments.{asked_by, asked_in, is_address, is_login, is_port};

use bm_decimal::read_number;
use std::alloc::{AllocError, AllocGlobal};
use std::rt::Env;
use std::{env, io};

/// The text for words that ask for nothing that the program does.
pub const USAGE: &str = "usage: buildworker HOST:PORT NAME PASSWORD";

/// The most bytes that a name and a password have together.
const MOST_LOGIN_BYTES: usize = 900_000;

/// What the words ask for: work for the master at this address, under this name and password.
#[derive(Clone, Copy)]
pub struct Arguments<'a> {
    pub address: &'a str,
    pub name: &'a str,
    pub password: &'a str,
}

/// The words of the command line, of which the first is the program's name. None of them where one
/// isn't UTF-8: then they ask for nothing.
pub fn words<R: Env + AllocGlobal>(rt: &R) -> Result<Vec<String>, AllocError> {
    match env::args(rt) {
        Ok(words) => words.collect(rt.alloc()),
        Err(error) if error.kind() == io::ErrorKind::OutOfMemory => Err(AllocError),
        Err(_) => Ok(Vec::new(rt.alloc())),
    }
}

/// Reads the words of the command line, of which the first is the program's name. The answer is
/// None where they ask for nothing that the program does.
pub fn read_arguments(words: &[String]) -> Option<Arguments<'_>>
    ensures asked { option_map asked_in result ≡ asked_by (map string_bytes words.now) }
    ensures short { IfSome result (λ arguments.
        AreShort (arguments.name.now ∷ arguments.password.now ∷ [])) }
{
    let [_, address, name, password] = words else {
        return None;
    };
    let arguments = Arguments {
        address: address.as_str(),
        name: name.as_str(),
        password: password.as_str(),
    };
    if !is_address(arguments.address) || !is_login(arguments.name, arguments.password) {
        return None;
    }
    Some(arguments)
}

/// Whether the text ends with a colon and a port. What stands before the colon isn't looked at.
fn is_address(address: &str) -> bool
    ensures { result ≡ is_address address.now }
{
    match address.rsplit_once(':') {
        Some((_, port)) => is_port(port),
        None => false,
    }
}

/// Whether the text is a number from 1 to 65,535, written by decimal digits alone.
fn is_port(text: &str) -> bool
    ensures { result ≡ is_port text.now }
{
    match read_number(text) {
        Some(port) => port > 0 && port <= u64::from(u16::MAX),
        None => false,
    }
}

/// Whether name and password fit into a login together.
fn is_login(name: &str, password: &str) -> bool
    ensures login { result ≡ is_login name.now password.now }
    ensures short { IsTrue result ↔ AreShort (name.now ∷ password.now ∷ []) }
{
    name.len() <= MOST_LOGIN_BYTES && password.len() <= MOST_LOGIN_BYTES - name.len()
}
