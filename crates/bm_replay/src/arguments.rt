//! The words of the command line.

ghost use Rattle.std.specs.Prelude.{◌≡◌, map, option_map, string_bytes};
ghost use Rattle.bm_replay.specs.Arguments.{asked_by, asked_in};

use crate::capacity::Capacity;
use std::io::Write;

/// The text for words that ask for nothing that the program does.
const USAGE: &str = "usage: buildmaster replay [CAPACITY] or buildmaster serve FILE";

/// The exit status for words that ask for nothing that the program does.
const WRONG_WORDS: u8 = 2;

/// What the words ask for.
#[derive(Clone, Copy)]
pub enum MasterArguments<'a> {
    /// Standard input is replayed, over a queue of this capacity.
    Replay { capacity: Capacity },
    /// The master of the configuration in this file is run.
    Serve { file: &'a str },
}

/// Reads the words of the command line, of which the first is the program's name. The answer is
/// None where they ask for nothing that the program does.
pub fn read_arguments(words: &[String]) -> Option<MasterArguments<'_>>
    ensures asked { option_map asked_in result ≡ asked_by (map string_bytes words.now) }
{
    match words {
        [_, job] if job.as_str() == "replay" => Some(MasterArguments::Replay {
            capacity: Capacity {
                items: Capacity::DEFAULT,
            },
        }),
        [_, job, capacity] if job.as_str() == "replay" => Some(MasterArguments::Replay {
            capacity: Capacity::read(capacity.as_str())?,
        }),
        [_, job, file] if job.as_str() == "serve" => Some(MasterArguments::Serve {
            file: file.as_str(),
        }),
        _ => None,
    }
}

/// Tells the usage, and answers the exit status of words that ask for nothing that the program
/// does. The status is the same where the usage can't be told.
pub fn tell_usage<F: Write + Drop>(faults: F) -> u8
    ensures status { result ≡ 2 }
{
    let mut faults = faults;
    let _ = writeln!(faults, "{USAGE}");
    WRONG_WORDS
}
