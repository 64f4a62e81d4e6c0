//! What the chunks of a lane are, as a contract.

ghost use Rattle.bm_lane.specs.Laws.{ChunksAreOfTheTrace};

/// A viewer that had seen a beginning of a trace's items was answered the asked slice of a log.
/// That log is one of a prefix of the trace.
///
/// After [`settle`](crate::settle) this holds of each viewer and each of its chunks. What it had
/// seen then begins what it has seen at the end, and that begins the trace's items.
pub fn chunks_are_of_the_trace()
    ensures { ChunksAreOfTheTrace }
{}
