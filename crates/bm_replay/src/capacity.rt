//! How many items wait between a lane and the book that viewers see.

ghost use Rattle.std.specs.Prelude.{◌≡◌, ◌≤◌, option_map};
ghost use Rattle.bm_replay.specs.Capacities.{capacity_of};

use bm_decimal::read_number;

/// How many items a lane's queue holds: 1 to 65,536.
#[derive(Clone, Copy)]
pub struct Capacity {
    pub items: u32,
    pub ghost some: { 1 ≤ items },
    pub ghost few: { items ≤ 65536 },
}

impl Capacity {
    /// The capacity of a replay whose words name none.
    pub const DEFAULT: u32 = 4;

    const MOST: u64 = 65_536;

    /// None where the word is no number from 1 to 65,536.
    pub fn read(word: &str) -> Option<Capacity>
        ensures { option_map (λ capacity. capacity.items) result ≡ capacity_of word.now }
    {
        let items = read_number(word)?;
        if items == 0 || items > Capacity::MOST {
            return None;
        }
        Some(Capacity {
            items: items as u32,
        })
    }
}
