//! Fields of a map, by their keys.

ghost use Rattle.std.specs.Prelude.{◌≡◌, ◌≤◌, drop, map, None};
ghost use Rattle.std.specs.Option.{option_map};
ghost use Rattle.bm_value.specs.Field.{is_str, last_with, field};
ghost use Rattle.bm_value.specs.View.{tree, pairs_tree};

use crate::value::{Pairs, Value};
use std::alloc::Allocator;

fn is_str<A: Allocator>(value: &Value<A>, text: &str) -> bool
    ensures { result ≡ is_str (tree value.now) text.now }
{
    match value {
        Value::Str(s) => s.as_str() == text,
        _ => false,
    }
}

/// The value of the last pair with that key.
fn last_with<'a, A: Allocator>(pairs: &'a Pairs<A>, key: &str) -> Option<&'a Value<A>>
    ensures { option_map (λ v. tree v.now) result ≡ last_with key.now (pairs_tree pairs.now) }
{
    let mut left = pairs.vec.len();
    while left > 0 {
        left -= 1;
        let pair = &pairs.vec[left];
        if is_str(&pair.key, key) {
            return Some(&pair.value);
        }
    }
    None
}

impl<A: Allocator> Value<A> {
    /// The value of the last pair of this map whose key is the str `key`. `None` where there is no
    /// such pair, and for a value that is no map. Takes no memory.
    pub fn get(&self, key: &str) -> Option<&Value<A>>
        ensures { option_map (λ v. tree v.now) result ≡ field (tree self.now) key.now }
    {
        match self {
            Value::Map(pairs) => last_with(pairs, key),
            _ => None,
        }
    }
}
