//! A step of a build, as remarks tell it.

/// A step of a build.
#[derive(Clone, Copy)]
pub struct StepAt<'a> {
    /// Its place among the build's steps, from 0 on.
    pub place: u64,
    pub name: &'a str,
}
