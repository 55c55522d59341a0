ghost use Rattle.std.specs.Prelude.{ℕ, List};
ghost use Rattle.vm_table.specs.Layout.{IsTable};
ghost use Rattle.air_kit.specs.Places.{Claim};
ghost use Rattle.facts_lookup.specs.KernelTables.{AreBelow, HasDigests, KernelIsZero};
ghost use Rattle.facts_lookup.specs.RangeTables.{GoesUp, RangeIsZero};

/// The laws of the range table: its entries are 0 exactly where its values go from 0 to 65535, each behind the one before by 0 or by
/// a power of 3.
pub fn range_laws()
    ensures shows { (rows : List (List ℕ)) → IsTable 2 rows → RangeIsZero rows → GoesUp rows }
    ensures zeros { (rows : List (List ℕ)) → GoesUp rows → RangeIsZero rows }
{}

/// The laws of the kernel's table: its entries are 0 exactly where each row has the digest of its number of the statement's kernel.
pub fn kernel_laws()
    ensures shows { (c : Claim) (rows : List (List ℕ)) → IsTable 5 rows → AreBelow c.kernel → KernelIsZero c rows → HasDigests c rows }
    ensures zeros { (c : Claim) (rows : List (List ℕ)) → AreBelow c.kernel → HasDigests c rows → KernelIsZero c rows }
{}
