use std::hash::{BuildHasher, FoldHasher, Hasher};

/// What the hash of each counted tuple begins with. Whoever makes a table picks its tuples, and one
/// who knows the hash can pick tuples that all have the same, so that each is compared with each. So
/// it begins with a number that is another one in each run. No count and no answer depends on it.
#[derive(Clone, Copy)]
pub struct Seed {
    first: FoldHasher,
}

impl Seed {
    /// The hash that begins with this number.
    pub fn new(number: u64) -> Seed {
        let mut first = FoldHasher::default();
        first.write_u64(number);
        Seed { first }
    }
}

impl BuildHasher for Seed {
    type Hasher = FoldHasher;

    ghost build_hasher = { λ s. s.first };

    fn build_hasher(&self) -> FoldHasher {
        self.first
    }
}
