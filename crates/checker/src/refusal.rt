ghost use Rattle.std.specs.Prelude.{◌≡◌, suc};
ghost use Rattle.bus_kit.specs.ByBus.{asked_by, given_by};
ghost use Rattle.buses.specs.Names.{bus_number};
ghost use Rattle.checker.specs.Refusals.{IsApartAnswer, IsApartBelow};
ghost use Rattle.checker.specs.declared.refusal.Refused.TheVariants as refused;

use air_kit::Fault;
use bus_kit::{Tallies, Tuple};
use buses::Bus;
use thiserror::Error;

/// The first bus on which counts are apart, and there the least tuple with both counts.
#[derive(Debug, Drop)]
pub(crate) struct Apart {
    pub bus: Bus,
    pub tuple: Tuple,
    pub asked: u128,
    pub given: u128,
}

impl Apart {
    /// The refusal of it.
    pub(crate) fn refused(self) -> Refused
        ensures { result ≡ refused.Bus self.bus self.tuple self.asked self.given }
    {
        let Apart {
            bus,
            tuple,
            asked,
            given,
        } = self;
        Refused::Bus {
            bus,
            tuple,
            asked,
            given,
        }
    }
}

/// Why a trace is not accepted.
#[derive(Debug, Drop, Error)]
pub enum Refused {
    /// An entry is not 0; this is the first one.
    #[error("an entry is not 0")]
    Fault(Fault),
    /// Each entry is 0, and on this bus, the first one, this tuple, the least, is not asked as often as it is given.
    #[error("a tuple is not asked as often as it is given")]
    Bus {
        bus: Bus,
        tuple: Tuple,
        asked: u128,
        given: u128,
    },
    /// Memory was refused. No entry is other than 0.
    #[error("out of memory")]
    Memory,
}

/// The first bus on which counts are apart, and there the least tuple.
#[tactic(auto, using(crate::proofs::ApartLemmas::apart_all, crate::proofs::ApartLemmas::none_before))]
pub(crate) fn first_apart(tallies: &Tallies) -> Option<Apart>
    ensures { IsApartAnswer (asked_by tallies.now) (given_by tallies.now) result }
{
    let found = next_apart(None, tallies, Bus::Blocks);
    let found = next_apart(found, tallies, Bus::Children);
    let found = next_apart(found, tallies, Bus::Loops);
    let found = next_apart(found, tallies, Bus::Groups);
    let found = next_apart(found, tallies, Bus::Overflow);
    let found = next_apart(found, tallies, Bus::Hasher);
    let found = next_apart(found, tallies, Bus::Bitwise);
    let found = next_apart(found, tallies, Bus::Memory);
    let found = next_apart(found, tallies, Bus::Range);
    next_apart(found, tallies, Bus::Kernel)
}

// What was found so far, or the least tuple apart of the next bus.
fn next_apart(found: Option<Apart>, tallies: &Tallies, bus: Bus) -> Option<Apart>
    requires { IsApartBelow (asked_by tallies.now) (given_by tallies.now) (bus_number bus) found }
    ensures { IsApartBelow (asked_by tallies.now) (given_by tallies.now) (suc (bus_number bus)) result }
{
    match found {
        Some(apart) => Some(apart),
        None => match tallies.unequal(bus) {
            Some(unequal) => Some(Apart {
                bus,
                tuple: unequal.tuple,
                asked: unequal.asked,
                given: unequal.given,
            }),
            None => None,
        },
    }
}
