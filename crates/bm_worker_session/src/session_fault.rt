//! Why nothing more is sent.

use thiserror::Error;

/// Why nothing more is sent.
#[derive(Clone, Copy, PartialEq, Eq, Debug, Error)]
pub enum SessionFault {
    /// The link failed, or there is none. What was not sent is sent again by the next one.
    #[error("the link failed")]
    Link,
    /// Memory is wanting. Nothing was changed.
    #[error("out of memory")]
    Memory,
}
