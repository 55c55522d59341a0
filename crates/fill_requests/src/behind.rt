ghost use Rattle.std.specs.Prelude.{◌≡◌, drop};
ghost use Rattle.complete_rows.specs.Filling.{seen_behind};

use machine_cycles::{Events, Visible};

/// The state before the event at a place, or the last state where there is no such event.
pub fn seen_behind(last: &Visible, events: &Events, place: usize) -> Visible
    ensures { result ≡ seen_behind last.now (drop place events.now) }
{
    if place < events.len() {
        events.before(place)
    } else {
        *last
    }
}
