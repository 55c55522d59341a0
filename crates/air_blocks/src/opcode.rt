//! Entries 1 to 10: the bits of the operation, and the clock.
ghost use Rattle.std.specs.Prelude.{◌≡◌, ◌<◌, option_map};
ghost use Rattle.air_kit.specs.OpcodeValues.{entry_1, entry_8, entry_9, entry_10, opcode_values};
ghost use Rattle.air_kit.specs.Places.{first_fault_of};
ghost use Rattle.air_blocks.specs.Entries.{of_row, of_pair, spot_with};

use air_kit::{OpSet, Seen, first_nonzero};
use vm_field::Felt;
use vm_table::MainView;

// 1 to 7: bit j is 0 or 1.
#[tactic(auto, unfolding(air_kit::specs::OpcodeValues::entry_1))]
fn entry_1<V: MainView>(j: usize, x: &Seen<'_, V>) -> Felt
    requires { j < 7 }
    ensures { result ≡ of_row (entry_1 j) (V.cells x.now.row.now) }
{
    x.row.b(j) * (x.row.b(j) - Felt::ONE)
}

// The bits spell an operation.
#[tactic(auto, unfolding(air_kit::specs::OpcodeValues::entry_8, air_kit::specs::Flags::flags_of))]
fn entry_8<V: MainView>(x: &Seen<'_, V>) -> Felt
    ensures { result ≡ of_row entry_8 (V.cells x.now.row.now) }
{
    Felt::ONE - x.sum(OpSet::Every)
}

// The clock starts at 0.
#[tactic(auto, unfolding(air_kit::specs::OpcodeValues::entry_9))]
fn entry_9<V: MainView>(x: &Seen<'_, V>) -> Felt
    ensures { result ≡ of_row entry_9 (V.cells x.now.row.now) }
{
    x.row.clk()
}

// And grows by one.
#[tactic(auto, unfolding(air_kit::specs::OpcodeValues::entry_10))]
fn entry_10<V: MainView>(x: &Seen<'_, V>, y: &Seen<'_, V>) -> Felt
    ensures { result ≡ of_pair entry_10 (V.cells x.now.row.now) (V.cells y.now.row.now) }
{
    y.row.clk() - x.row.clk() - Felt::ONE
}

/// The first of entries 1 to 10 that is not 0.
#[tactic(auto, unfolding(air_kit::specs::OpcodeValues::opcode_values, air_kit::specs::Places::family))]
pub fn opcode_faults<V: MainView>(
    row: u32,
    x: &Seen<'_, V>,
    next: &Option<Seen<'_, V>>,
) -> Option<(u16, Felt)>
    ensures { result ≡ first_fault_of 1 (opcode_values (spot_with row (V.cells x.now.row.now) (option_map (λ y. V.cells y.row.now) next.now))) }
{
    let starts = if row == 0 { entry_9(x) } else { Felt::ZERO };
    let grows = match next {
        Some(y) => entry_10(x, y),
        None => Felt::ZERO,
    };
    first_nonzero(
        &[
            entry_1(0, x),
            entry_1(1, x),
            entry_1(2, x),
            entry_1(3, x),
            entry_1(4, x),
            entry_1(5, x),
            entry_1(6, x),
            entry_8(x),
            starts,
            grows,
        ],
        1,
    )
}
