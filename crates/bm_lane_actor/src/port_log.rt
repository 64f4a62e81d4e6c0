//! What a build reads of the log of its command.

ghost use Rattle.std.specs.Prelude.{◌≡◌, ◌≤◌, ◌++◌, codes, length, IfSome};
ghost use Rattle.bm_lane_actor.specs.Ports.{polled};

use bm_lines::Text;
use bm_runner::Polled;
use bm_session::Results;
use bm_store::{LogState, ViewRefusal};
use std::alloc::Global;

/// How many bytes a line of headers may have that is told of.
const MOST_SAID: usize = 256;

/// What a look at the log of a command says of it. A refused look says that it runs.
pub fn polled(state: Result<LogState, ViewRefusal>, is_cancelled: bool) -> Polled
    ensures { result ≡ polled is_cancelled state }
{
    match state {
        Ok(
            LogState {
                ended: Some(outcome),
                ..
            },
        ) => Polled::Ended(outcome),
        _ if is_cancelled => Polled::Cancel,
        _ => Polled::Running,
    }
}

/// What a line of a log says, where it is one of headers, and no longer than is told of it. A
/// command's last one tells why it failed, as the web's readers see it. The session keeps no text
/// of a `complete`: it would have to keep it for as long as it runs.
pub(crate) fn header_in(alloc: Global, line: &str) -> Option<Text>
    ensures { IfSome result (λ said. (line.now ≡ codes "h" ++ (said ++ codes "\n"))
        × (length said ≤ 256)) }
{
    let said = line.strip_prefix("h")?.strip_suffix("\n")?;
    if said.len() <= MOST_SAID {
        Text::from_str(alloc, said).ok()
    } else {
        None
    }
}
