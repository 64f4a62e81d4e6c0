//! What remarks of connections, the configuration and the input say.

ghost use Rattle.std.specs.Prelude.{◌≡◌, ◌==◌, if◌then◌else◌, IfOk, string_bytes};
ghost use Rattle.bm_operator.specs.Remark.{connection_refused, counted, input_unknown, login_refused, misspelt_key, more_refused, not_told, paused, unknown_key};
ghost use Rattle.bm_operator.specs.Told.{shaped};

use crate::field::{RemarkField, Shape, shaped};
use crate::reasons::LoginRefusal;
use std::alloc::{AllocError, Global};
use std::net::SocketAddr;

pub(crate) fn login_refused(
    alloc: Global,
    shape: Shape,
    name: &str,
    from: SocketAddr,
    why: LoginRefusal,
) -> Result<String, AllocError>
    ensures { IfOk result (λ s. string_bytes s ≡ shaped shape (login_refused name.now from why)) }
{
    shaped(
        alloc,
        shape,
        "login_refused",
        &[
            RemarkField::Word("login refused, ", "cause", why.text()),
            RemarkField::Address(", from ", "from", from),
            RemarkField::Name(": ", "name", name),
        ],
        "",
    )
}

pub(crate) fn connection_refused(
    alloc: Global,
    shape: Shape,
    from: SocketAddr,
    why: LoginRefusal,
) -> Result<String, AllocError>
    ensures { IfOk result (λ s. string_bytes s ≡ shaped shape (connection_refused from why)) }
{
    shaped(
        alloc,
        shape,
        "connection_refused",
        &[
            RemarkField::Word("connection refused, ", "cause", why.text()),
            RemarkField::Address(", from ", "from", from),
        ],
        "",
    )
}

pub(crate) fn more_refused(alloc: Global, shape: Shape, count: u64) -> Result<String, AllocError>
    ensures { IfOk result (λ s. string_bytes s ≡ shaped shape (more_refused count)) }
{
    shaped(
        alloc,
        shape,
        "more_connections_refused",
        &[RemarkField::Number("", "count", u128::from(count))],
        " more connections refused",
    )
}

pub(crate) fn not_told(alloc: Global, shape: Shape, count: u64) -> Result<String, AllocError>
    ensures { IfOk result (λ s. string_bytes s ≡ shaped shape (not_told count)) }
{
    shaped(
        alloc,
        shape,
        "remarks_not_told",
        &[RemarkField::Number("", "count", u128::from(count))],
        " remarks not told",
    )
}

// Nothing is accepted just now.
pub(crate) fn paused(alloc: Global, shape: Shape) -> Result<String, AllocError>
    ensures { IfOk result (λ s. string_bytes s ≡ shaped shape (paused)) }
{
    shaped(alloc, shape, "accepting_paused", &[], "accepting paused")
}

// What the configuration has.
pub(crate) fn counted(
    alloc: Global,
    shape: Shape,
    workers: u64,
    builds: u64,
    steps: u64,
) -> Result<String, AllocError>
    ensures { IfOk result (λ s. string_bytes s ≡ shaped shape (counted workers builds steps)) }
{
    shaped(
        alloc,
        shape,
        "configuration_read",
        &[
            RemarkField::Number("", "workers", u128::from(workers)),
            RemarkField::Number(
                plural(workers, " worker, ", " workers, "),
                "builds",
                u128::from(builds),
            ),
            RemarkField::Number(
                plural(builds, " build, ", " builds, "),
                "steps",
                u128::from(steps),
            ),
        ],
        plural(steps, " step", " steps"),
    )
}

// The words for one of a thing, or for another number of it.
fn plural(count: u64, one: &'static str, many: &'static str) -> &'static str
    ensures { result.now ≡ if count == 1 then one.now else many.now }
{
    if count == 1 { one } else { many }
}

pub(crate) fn unknown_key<'a>(
    alloc: Global,
    shape: Shape,
    place: &'a str,
    key: &'a str,
) -> Result<String, AllocError>
    ensures { IfOk result (λ s. string_bytes s ≡ shaped shape (unknown_key place.now key.now)) }
{
    shaped(
        alloc,
        shape,
        "unknown_key",
        &[
            RemarkField::Name("", "where", place),
            RemarkField::Name(": unknown key \"", "key", key),
        ],
        "\"",
    )
}

// A key that nobody reads, and the one that is near.
pub(crate) fn misspelt_key<'a>(
    alloc: Global,
    shape: Shape,
    place: &'a str,
    key: &'a str,
    near: &'a str,
) -> Result<String, AllocError>
    ensures { IfOk result (λ s. string_bytes s ≡ shaped shape (misspelt_key place.now key.now near.now)) }
{
    shaped(
        alloc,
        shape,
        "unknown_key",
        &[
            RemarkField::Name("", "where", place),
            RemarkField::Name(": unknown key \"", "key", key),
            RemarkField::Name("\", near \"", "near", near),
        ],
        "\"",
    )
}

// A line that asks for nothing.
pub(crate) fn input_unknown(alloc: Global, shape: Shape) -> Result<String, AllocError>
    ensures { IfOk result (λ s. string_bytes s ≡ shaped shape (input_unknown)) }
{
    shaped(
        alloc,
        shape,
        "input_not_understood",
        &[],
        "input not understood",
    )
}
