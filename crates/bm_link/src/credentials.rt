//! What a worker logs in with.

ghost use Rattle.std.specs.Prelude.{◌<◌, ◌^◌};

use bm_lines::Text;

/// The login that an `auth` asks for: the number of its answer, and the session that the worker
/// asks to resume. `next` is the text that it would have a new session have.
#[derive(Drop)]
pub(crate) struct Named {
    pub seq: u64,
    pub session: Option<Text>,
    pub next: Option<Text>,
    pub ghost in_range: { seq < 2 ^ 63 },
}

/// What an `auth` says. It has no text form, so that its password is never printed.
#[derive(Drop)]
pub(crate) struct Credentials {
    pub username: Text,
    pub password: Text,
    pub named: Named,
}
