//! Names for the queues and the copies of lanes.
use std::marker::Brand;

/// Names the queue and the copy of each lane, by the lane's number. It has no functions. It is
/// picked once for all lanes, when their blanks are made, and each end's type keeps that its own
/// are those. Each end carries its number, so ends of two lanes can't be settled together.
pub trait Yard {
    ghost use Rattle.std.specs.Prelude.{ℕ};
    ghost use Rattle.atomic_table.specs.Seated.{TableId};
    ghost use Rattle.bm_lane.specs.Fronts.{HistoryId};

    ghost queue: { ℕ → TableId };

    ghost copy: { ℕ → HistoryId };
}

impl Yard for Brand {
    ghost use Rattle.bm_lane.specs.Names.{no_queue, no_copy};

    ghost queue = { λ lane. no_queue };

    ghost copy = { λ lane. no_copy };
}
