//! A worker as the board sees it.

/// A worker as the board sees it.
#[derive(Clone, Copy)]
pub struct WorkerSlots {
    /// How many builds it runs at a time.
    pub slots: u8,
    /// Whether it takes a build now.
    pub ready: bool,
}
