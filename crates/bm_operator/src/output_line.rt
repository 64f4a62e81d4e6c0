//! The lines of a build master's standard output.

ghost use Rattle.std.specs.Prelude.{◌≡◌, IfOk, string_bytes};
ghost use Rattle.bm_operator.specs.OutputLine.{line_text};

use bm_session::Results;
use std::alloc::{AllocError, Global};
use std::io;
use std::io::Write;
use std::net::SocketAddr;

/// A line of a build master's standard output.
#[derive(Clone, Copy)]
pub enum OutputLine<'a> {
    /// It listens at these addresses, for workers and for the web: `listening ADDR ADDR`.
    Listening {
        workers: SocketAddr,
        web: SocketAddr,
    },
    /// A build ended: `build I RESULT`.
    Build {
        number: u64,
        result: Results,
    },
    /// A worker's lane had so many commands, and so many lines in their logs: `lane NAME COMMANDS
    /// LINES`. The name stands as the configuration has it.
    Lane {
        name: &'a str,
        commands: u64,
        lines: u64,
    },
}

impl OutputLine<'_> {
    /// The line, with its line end.
    pub fn line(&self, alloc: Global) -> Result<String, AllocError>
        ensures { IfOk result (λ s. string_bytes s ≡ line_text self.now) }
    {
        match *self {
            OutputLine::Listening { workers, web } => {
                format!(in alloc; "listening {workers} {web}\n")
            }
            OutputLine::Build { number, result } => {
                let name = result.name();
                format!(in alloc; "build {number} {name}\n")
            }
            OutputLine::Lane {
                name,
                commands,
                lines,
            } => format!(in alloc; "lane {name} {commands} {lines}\n"),
        }
    }

    /// Writes the line by one `write_all`. Where memory was wanting nothing is written.
    pub fn write<W: Write>(&self, alloc: Global, output: &mut W) -> io::Result<()> {
        let line = self.line(alloc)?;
        output.write_all(line.as_bytes())
    }
}
