//! What holds of every board of a build queue, as a contract.
ghost use Rattle.bm_build_queue.specs.Laws.{ResultsStay};

/// A build has one result, which nothing takes from it or changes: neither another build nor its
/// own start, end or cancel.
pub fn results_stay()
    ensures { ResultsStay }
{}
