//! How a build master ends.

ghost use Rattle.std.specs.Prelude.{◌≡◌};
ghost use Rattle.std.specs.List.{list_all};
ghost use Rattle.bm_operator.specs.Exit.{exit_status, is_good};

use bm_session::Results;

/// The exit status where the words or the configuration are refused.
pub const REFUSED: u8 = 2;

/// The exit status of a master whose builds had these results: 0 where each of them is `SUCCESS` or
/// `WARNINGS`, else 1. `failed` says that the master itself failed, which is 1 too. It fails where
/// a report could not be written, a thread could not be started, or memory was wanting. All results
/// are given at once, since a status counted build by build would need a contract about sums.
pub fn status(results: &[Results], failed: bool) -> u8
    ensures { result ≡ exit_status results.now failed }
{
    if !failed && are_good(results) { 0 } else { 1 }
}

fn are_good(results: &[Results]) -> bool
    ensures { result ≡ list_all is_good results.now }
{
    results.iter().all(|outcome| is_good(*outcome))
}

// `SUCCESS` and `WARNINGS`: nobody has to look at the build.
fn is_good(outcome: Results) -> bool
    ensures { result ≡ is_good outcome }
{
    matches!(outcome, Results::Success | Results::Warnings)
}
