//! The parts of a request's target.
ghost use Rattle.std.specs.Prelude.{◌≡◌, IfOk, option_map, if◌then◌else◌, bytes_eq, Some};
ghost use Rattle.std.specs.Cow.{cow_str_bytes};
ghost use Rattle.bm_http.specs.Targets.{from_slash, local_path, number_or, parameter, path_of, query_of};
ghost use Rattle.bm_http.specs.Requests.{name_in};

use bm_decimal::read_number;
use bm_lines::STDIO;
use std::alloc::{AllocError, Global};
use std::borrow::CowStr;

// What stands from the first slash on.
fn tail(text: &str) -> &str
    ensures { result.now ≡ from_slash text.now }
{
    match text.split_once('/') {
        Some((host, _)) => &text[host.len()..],
        None => "",
    }
}

// A path without the scheme and the host that absolute form puts before it.
fn local(path: &str) -> &str
    ensures { result.now ≡ local_path path.now }
{
    match path.strip_prefix("http://") {
        Some(rest) => tail(rest),
        None => path,
    }
}

/// The path and the query of a target.
pub fn split(target: &str) -> (&str, &str)
    ensures path { result.0.now ≡ path_of target.now }
    ensures query { result.1.now ≡ query_of target.now }
{
    let (path, query) = target.split_once('?').unwrap_or((target, ""));
    (local(path), query)
}

// The value of a later pair, where it has the key.
fn newer<'q>(
    last: Option<CowStr<'q>>,
    name: &str,
    value: CowStr<'q>,
    key: &str,
) -> Option<CowStr<'q>>
    ensures { option_map cow_str_bytes result ≡ (if bytes_eq name.now key.now
        then Some (cow_str_bytes value.entry) else option_map cow_str_bytes last.entry) }
{
    if name == key { Some(value) } else { last }
}

/// The value of a query's last parameter with a key.
pub fn value<'q>(alloc: Global, query: &'q str, key: &str) -> Result<Option<CowStr<'q>>, AllocError>
    ensures { IfOk result (λ value. option_map cow_str_bytes value ≡ parameter key.now query.now) }
{
    let mut last = None;
    for pair in form_urlencoded::parse(alloc, query.as_bytes()) {
        let (name, value) = pair?;
        last = newer(last, name.as_str(), value, key);
    }
    Ok(last)
}

/// The number of that parameter, or another one where it is missing; none where it is no number.
pub fn number_of_value(
    alloc: Global,
    query: &str,
    key: &str,
    missing: u64,
) -> Result<Option<u64>, AllocError>
    ensures { IfOk result (λ n. n ≡ number_or missing (parameter key.now query.now)) }
{
    match value(alloc, query, key)? {
        Some(text) => Ok(read_number(text.as_str())),
        None => Ok(Some(missing)),
    }
}

/// The name of the log that a query asks for.
pub fn log_name<'q>(alloc: Global, query: &'q str) -> Result<CowStr<'q>, AllocError>
    ensures { IfOk result (λ name. cow_str_bytes name ≡ name_in query.now) }
{
    match value(alloc, query, "name")? {
        Some(name) => Ok(name),
        None => Ok(CowStr::Borrowed(STDIO)),
    }
}
