ghost use Rattle.sound_buses.specs.BusFacts.{AcceptedGrants};

/// The law of the buses: in an accepted trace each tuple that the rows of the main table ask is given as often as it is asked, and so
/// the rows show what `Granted` says.
pub fn bus_laws()
    ensures granted { AcceptedGrants }
{}
