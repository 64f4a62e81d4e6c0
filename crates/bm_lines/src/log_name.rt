//! The name of a log.

ghost use Rattle.std.specs.Prelude.{◌≡◌, ◌≢◌, IfOk, OnErr, IfSome, IfNone, bytes_eq};
ghost use Rattle.bm_lines.specs.Names.{IsLogName, stdio};

use crate::text::Text;
use std::alloc::{AllocError, Global};
use std::marker::Model;
use std::sync::Arc;

/// The log of standard output, standard error and headers (Buildbot manual).
pub const STDIO: &str = "stdio";

/// As many bytes of UTF-8 the name of a log has at most (this project's profile).
pub const MOST_NAME_BYTES: usize = 255;

/// The name of a log: 1 to 255 bytes of UTF-8 (this project's profile).
///
/// `stdio` takes no memory, and copies of another name share its text.
#[derive(Drop)]
pub struct LogName {
    /// None for `stdio`.
    text: Option<Arc<Text>>,
}

impl Model for LogName {
    ghost use Rattle.std.specs.Option.{option_map_or};
    ghost use Rattle.std.specs.Arc.{arc_value};
    ghost use Rattle.bm_lines.specs.Names.{Name, IsLogName, stdio};

    ghost Value = { Name };

    ghost view = { λ n. option_map_or arc_value n.text stdio };

    ghost invariant = { λ n. IsLogName (option_map_or arc_value n.text stdio) };
}

impl LogName {
    /// The name `stdio`, which takes no memory.
    pub fn stdio() -> LogName
        ensures { result ≡ stdio }
    {
        LogName { text: None }
    }

    /// The name, or None for a text that is no name.
    ///
    /// Memory is wanting for a name alone, and never for `stdio`.
    pub fn new(alloc: Global, name: &str) -> Result<Option<LogName>, AllocError>
        ensures some { IfOk result (λ n. IfSome n (λ n. (n ≡ name.now) × IsLogName name.now)) }
        ensures none { IfOk result (λ n. IfNone n (¬ IsLogName name.now)) }
        ensures err { OnErr result (IsLogName name.now × (name.now ≢ stdio)) }
    {
        if name == STDIO {
            return Ok(Some(LogName::stdio()));
        }
        if name.is_empty() || name.len() > MOST_NAME_BYTES {
            return Ok(None);
        }
        let text = Arc::new(alloc, Text::from_str(alloc, name)?)?;
        Ok(Some(LogName { text: Some(text) }))
    }

    /// The text of the name.
    pub fn as_str(&self) -> &str
        ensures text { result.now ≡ self.now }
        ensures name { IsLogName self.now }
    {
        match &self.text {
            Some(text) => text.as_str(),
            None => STDIO,
        }
    }

    /// Whether the names are the same.
    pub fn is(&self, other: &str) -> bool
        ensures { result ≡ bytes_eq self.now other.now }
    {
        self.as_str() == other
    }

    /// An equal name, which shares the text.
    pub fn copy(&self) -> Result<LogName, AllocError>
        ensures { IfOk result (λ n. n ≡ self.now) }
    {
        match &self.text {
            Some(text) => Ok(LogName {
                text: Some(Arc::try_clone(text)?),
            }),
            None => Ok(LogName::stdio()),
        }
    }
}
