ghost use Rattle.std.specs.Prelude.{◌≡◌, ◌≢◌, ◌≤◌, ℕ, List, length};
ghost use Rattle.bus_kit.specs.Counting.{both_in};

use crate::count::Both;
use crate::seed::Seed;
use std::collections::HashMap;
use vm_field::Felt;

/// How often each tuple of N elements was asked, and how often it was given.
#[derive(Drop)]
pub struct Tally<const N: usize> {
    pub(crate) both: HashMap<[Felt; N], Both, Seed>,
    ghost few: { N ≤ 14 },
    ghost wide: { (u : List ℕ) → length u ≢ N → both_in both u ≡ (0, 0) },
}
