ghost use Rattle.std.specs.Prelude.{◌≡◌, ℕ, ◌<◌, ◌≤◌, [], ◌∷◌, List, All, length, map};
ghost use Rattle.air_kit.specs.ChipTuples.{chip_given};
ghost use Rattle.air_kit.specs.Places.{at_number};
ghost use Rattle.air_kit.specs.RangeValues.{range_values};
ghost use Rattle.air_kit.specs.Traces.{spot_of};
ghost use Rattle.air_kit.specs.declared.trace.TableName.TheVariants as table;
ghost use Rattle.buses.specs.Counts.{counted, once, over_rows};
ghost use Rattle.buses.specs.declared.bus.Bus.TheVariants as bus;
ghost use Rattle.fill_chips.specs.RangeRows.{range_rows};

/// The laws of the range table of asked values: all its entries are 0, it gives each value as often
/// as it is asked, and it has 1 to 65,536 rows.
pub fn range_laws()
    ensures zero { (asked : List ℕ) (i number : ℕ) → i < length (range_rows asked)
        → at_number (range_values (spot_of (range_rows asked) i)) number ≡ 0 }
    ensures gives { (asked u : List ℕ) → All (λ v. v < 65536) asked
        → over_rows (chip_given bus.Range table.Range) (range_rows asked) u ≡ counted (map (λ v. once (v ∷ [])) asked) u }
    ensures some { (asked : List ℕ) → 1 ≤ length (range_rows asked) }
    ensures most { (asked : List ℕ) → length (range_rows asked) ≤ 65536 }
{}
