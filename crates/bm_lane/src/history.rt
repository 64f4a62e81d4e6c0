//! The history of a lane's items. It only grows, and exists in the proofs alone: what runs is the
//! number of its items.
ghost use Rattle.std.specs.Prelude.{◌≡◌, ◌∷◌, ◌++◌, [], ◌+◌, length};
ghost use mathlib.Core.List.{IsPrefix};
ghost use Rattle.bm_lane.specs.Histories.{head_of};

use bm_session::Item;
use logbook::{Gain, Offer, Plain, Play, Rule, Start, Word};
use std::sync::Wait;

/// The rule of a history: its word is its length.
pub struct Counted;

impl Rule<Item, u64> for Counted {
    ghost use Rattle.std.specs.Prelude.{[]};
    ghost use base.Fml.{ftrue};
    ghost use Rattle.bm_lane.specs.Histories.{IsKept};

    ghost holds = { λ cells log. IsKept cells log };

    ghost first = { [] };

    ghost hinted = { λ n log. Unit {0} };

    ghost shows = { λ log. [] };

    ghost keeps = { λ names log. ftrue };

    ghost moves = { λ ask before after answer. Unit {0} };
}

/// Callers trade nothing.
pub struct Nothing;

impl Gain<Item, u64> for Nothing {
    ghost use base.Fml.{ftrue};

    ghost after = { λ names about answer. ftrue };
}

/// A step that finds what was added, and changes nothing.
pub struct Look;

impl Play<Item, u64> for Look {
    ghost use Rattle.bm_lane.specs.Histories.{Finds};

    ghost then = { Finds };
}

/// A step that adds an item.
pub struct Add;

impl Play<Item, u64> for Add {
    ghost use Rattle.bm_lane.specs.Histories.{Adds};

    ghost then = { Adds };
}

impl Plain<Item, Item, u64> for Add {
    ghost use Rattle.std.specs.Prelude.{None};

    ghost ask = { λ item. item };

    ghost state = { λ item. None };
}

/// A beginning of a history that was seen. It has no bytes.
pub type Front = logbook::Seen<Item, u64, Counted>;

/// The end of a history, which one owner has, with all of the history.
#[derive(Drop)]
pub struct Head {
    word: Word<Item, u64, Counted>,
    pub all: Front,
    pub count: u64,
    pub ghost head_is: { word ≡ head_of all.book },
    pub ghost counted: { count ≡ length all.log },
}

impl Head {
    /// An empty history.
    pub fn new() -> Head
        ensures { result.all.log ≡ [] }
    {
        let (all, mut first, _second) = logbook::Seen::open(Start::alone(), 0, 0);
        Head {
            word: Word::tracked(0, &mut first),
            all,
            count: 0,
        }
    }

    /// Adds an item. Only the owner of the end adds, so it never waits; no proof knows this.
    pub fn add<R: Wait>(&mut self, rt: &R, item: &Item)
        ensures log { self.new.all.log ≡ self.old.all.log ++ item.now ∷ [] }
        ensures same { self.new.all.book ≡ self.old.all.book }
    {
        let count = self.count;
        if count < u64::MAX {
            let mut offer: Offer<Item, u64, Counted, Nothing> = self
                .all
                .plain::<Nothing, Item, Add>(item);
            let mut pen = self.all.no_pen();
            let found = self
                .word
                .compare_exchange::<Add, Nothing>(
                    count,
                    count + 1,
                    &mut self.all,
                    &mut offer,
                    &mut pen,
                );
            if found == count {
                self.count = count + 1;
                return;
            }
        }
        never(rt)
    }

    /// What another has seen is a beginning of the history.
    pub fn has<R: Wait>(&mut self, rt: &R, seen: &Front)
        requires { seen.now.book ≡ self.old.all.book }
        ensures prefix { IsPrefix seen.now.log self.old.all.log }
        ensures same { self.new.all ≡ self.old.all }
    {
        let mut both = self.all.again();
        both.learn(seen);
        let mut offer: Offer<Item, u64, Counted, Nothing> = both.plain::<Nothing, Item, Add>(
            &Item::Gone,
        );
        let found = self.word.load::<Look, Nothing>(&mut both, &mut offer);
        if found != self.count {
            never(rt)
        }
    }
}

// Waits for ever: where another had added to a history that has one owner.
fn never<R: Wait>(rt: &R) -> ! {
    for _ in rt.forever() {}
    unreachable!()
}
