//! What comes of telling what waits first.

use bm_work::Sent;

/// What comes of telling what waits first.
#[derive(Drop)]
pub enum Progress {
    /// Nothing waits.
    Nothing,
    /// The window lacks the places: it waits on.
    Full,
    /// Its command runs no more: it is passed over.
    Passed,
    /// The request that says a text.
    Text(Sent),
    /// The requests that tell of an end.
    End(Vec<Sent>),
}
