//! Shards of a suite.
ghost use Rattle.std.specs.Prelude.{◌≡◌, ◌≤◌, ◌↔◌, IfSome, IsSome};

/// Shards that a suite may be parted into: as many as top-level classes may be kept.
pub const SHARDS: u32 = 4_095;

/// One of the shards of a suite.
#[derive(Clone, Copy)]
pub struct Shard {
    index: u32,
    count: u32,
    ghost first: { 1 ≤ index },
    ghost within: { index ≤ count },
    ghost most: { count ≤ 4095 },
}

impl Shard {
    /// The shard with this number, counted from 1, of `count`; none where there is no such number,
    /// or they are more than 4,095.
    pub fn new(index: u32, count: u32) -> Option<Shard>
        ensures some { IsSome result ↔ ((1 ≤ index) × (index ≤ count) × (count ≤ 4095)) }
        ensures index { IfSome result (λ s. s.index ≡ index) }
        ensures count { IfSome result (λ s. s.count ≡ count) }
    {
        if index < 1 || count < index || SHARDS < count {
            return None;
        }
        Some(Shard { index, count })
    }

    /// Its number, counted from 1.
    pub fn index(self) -> u32
        ensures { result ≡ self.index }
    {
        self.index
    }

    /// How many shards there are.
    pub fn count(self) -> u32
        ensures value { result ≡ self.count }
        ensures some { 1 ≤ result }
    {
        self.count
    }
}
