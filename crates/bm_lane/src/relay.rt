//! The rule of a lane's queue: what was taken, and then what the queue holds, is what was put.
use bm_session::Item;
use crossbeam_queue::protocol::{Join, Lesson, Outcome, Protocol, Split};
use crossbeam_queue::{Pass, RuledArrayQueue};
use std::collections::LinkedList;

/// Whether a pass may put and take, and what it has put and taken. No value of it is made.
pub struct Hand {
    pub puts: bool,
    pub takes: bool,
    pub put: LinkedList<Item>,
    pub taken: LinkedList<Item>,
}

/// Items come out in the order in which they went in, and none is lost.
pub struct InOrder;

impl Protocol<Item, Hand> for InOrder {
    ghost use Rattle.std.specs.Prelude.{true, []};
    ghost use Rattle.bm_lane.specs.Relay.{hand, Relayed};

    ghost holds = { Relayed };

    ghost first = { hand true true [] [] };
}

/// The pass of the reader's end, and that of the writer's.
pub struct Roles;

impl Split<Hand> for Roles {
    ghost use Rattle.std.specs.Prelude.{true, false, []};
    ghost use Rattle.bm_lane.specs.Relay.{hand};

    ghost left = { λ v. hand true false v.put [] };

    ghost right = { λ v. hand false true [] v.taken };
}

impl Join<Hand> for Roles {
    ghost use Rattle.std.specs.Prelude.{true, false, []};
    ghost use Rattle.bm_lane.specs.Relay.{hand};

    ghost both = { λ v w. hand true true v.put w.taken };

    ghost spent = { hand false false [] [] };
}

/// A push adds to what was put, and a refused one shows that the queue is full of what was put.
pub struct Puts;

impl Outcome<Item, Hand> for Puts {
    ghost use Rattle.std.specs.Prelude.{◌≡◌, ◌++◌, ◌∷◌, []};
    ghost use Rattle.bm_lane.specs.Relay.{hand};

    ghost then = { λ v x w. w ≡ hand v.puts v.takes (v.put ++ x ∷ []) v.taken };
}

impl Lesson<Item, Hand> for Puts {
    ghost use Rattle.std.specs.Prelude.{◌≡◌, ◌++◌, List};
    ghost use Rattle.bm_session.specs.declared.item.Item.{Item};

    ghost fact = { λ v items. (taken : List Item) × (v.put ≡ taken ++ items) };
}

/// A pop adds to what was taken.
pub struct Takes;

impl Outcome<Item, Hand> for Takes {
    ghost use Rattle.std.specs.Prelude.{◌≡◌, ◌++◌, ◌∷◌, []};
    ghost use Rattle.bm_lane.specs.Relay.{hand};

    ghost then = { λ v x w. w ≡ hand v.puts v.takes v.put (v.taken ++ x ∷ []) };
}

impl Lesson<Item, Hand> for Takes {
    ghost fact = { λ v items. Unit {0} };
}

/// Who may both put and take learns that nothing but the queue's items lies between the two.
pub struct Whole;

impl Lesson<Item, Hand> for Whole {
    ghost use Rattle.std.specs.Prelude.{◌≡◌, ◌++◌};

    ghost fact = { λ v items. v.put ≡ v.taken ++ items };
}

/// The bounded queue of a lane's items, by the rule [`InOrder`].
pub type ItemQueue = RuledArrayQueue<Item, Hand, InOrder>;

/// An end's leave to put into such a queue or to take out of it, as its [`Hand`] says.
pub type ItemPass = Pass<Item, Hand>;
