ghost use Rattle.std.specs.Prelude.{◌≡◌, ℕ, List, length};
ghost use Rattle.vm_field.specs.Limits.{number_of_constants};
ghost use Rattle.air_kit.specs.ChipTuples.{chip_given};
ghost use Rattle.air_kit.specs.Places.{Claim};
ghost use Rattle.air_kit.specs.declared.requests.Perm.{Perm};
ghost use Rattle.facts_hasher.specs.HashTables.{ArePermRows, PermsFit, HasherIsZero, ShowsPerms};
ghost use Rattle.air_kit.specs.declared.trace.TableName.TheVariants as table;
ghost use Rattle.buses.specs.Counts.{over_rows};
ghost use Rattle.buses.specs.declared.bus.Bus.TheVariants as bus;
ghost use Rattle.facts_hasher.specs.HashMeaning.{TableGives};
ghost use Rattle.facts_hasher.specs.PermRows.{rows_of_perms};

/// The laws of the hasher's table. Rows whose entries are 0 are those of the permutations that they show, and these fit. The rows
/// of permutations that fit have entries 0 and show these again. What a table whose entries are 0 gives on its bus is right: a hash
/// that is given whole is the hash of its blocks, and what a permutation gives behind it is the permutation of what went in.
pub fn table_laws()
    ensures zeros_are_rows { (c : Claim) (rows : List (List ℕ)) → length c.constants ≡ number_of_constants → HasherIsZero c rows
        → ArePermRows c.constants rows }
    ensures rows_show { (c : Claim) (perms : List Perm) → length c.constants ≡ number_of_constants → PermsFit c.constants perms
        → ShowsPerms c perms (rows_of_perms c.constants perms) }
    ensures gives { (c : Claim) (rows : List (List ℕ)) → length c.constants ≡ number_of_constants → HasherIsZero c rows
        → TableGives c.constants rows (over_rows (chip_given bus.Hasher table.Hasher) rows) }
{}
