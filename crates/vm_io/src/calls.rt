ghost use Rattle.std.specs.Prelude.{◌≡◌, ◌↔◌, List, [], ◌∷◌, ◌++◌, IsTrue, Contains, OnOk, OnErr};
ghost use Rattle.vm_io.specs.Calls.{no_calls, IsDue, called};

use std::alloc::Global;
use std::marker::Model;
use vm_field::Memory;

/// The calls that were made, and the numbers of those that are to fail.
#[derive(Drop)]
pub struct Calls {
    made: u64,
    failing: Vec<u64>,
}

impl Model for Calls {
    ghost use Rattle.vm_io.specs.Calls.{CallCounts};

    ghost Value = { CallCounts };

    ghost view = { λ a. record { made = a.made; failing = a.failing.items } };
}

impl Calls {
    /// No calls, of which none is to fail. It allocates nothing.
    pub fn new(alloc: Global) -> Calls
        ensures none { result ≡ no_calls }
    {
        Calls {
            made: 0,
            failing: Vec::new(alloc),
        }
    }

    /// Lets the call of this number fail.
    pub fn fail(&mut self, call: u64) -> Result<(), Memory>
        ensures ok { OnOk result (self.new ≡ record self.old { failing = self.old.failing ++ call ∷ [] }) }
        ensures err { OnErr result (self.new ≡ self.old) }
    {
        self.failing.push(call)?;
        Ok(())
    }

    /// Counts the call that begins, and tells whether it is to fail.
    pub fn begin(&mut self) -> bool
        ensures due { IsTrue result ↔ IsDue self.old }
        ensures counted { self.new ≡ called self.old }
    {
        // Wide, since the call after the last count has a number too, which no list holds.
        let number = u128::from(self.made) + 1;
        let due = is_among(&self.failing, number);
        self.made = self.made.saturating_add(1);
        due
    }
}

// Whether the number stands in the list.
fn is_among(numbers: &[u64], number: u128) -> bool
    ensures { IsTrue result ↔ Contains numbers.now number }
{
    numbers.iter().any(|n| u128::from(*n) == number)
}
