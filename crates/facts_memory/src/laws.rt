ghost use Rattle.std.specs.Prelude.{◌≡◌, ℕ, List, Option};
ghost use Rattle.std.specs.List.Sorted.{IsNonDecreasingBy, IsPermutation};
ghost use Rattle.vm_table.specs.Layout.{IsTable};
ghost use Rattle.air_kit.specs.declared.requests.Access.{Access};
ghost use Rattle.facts_memory.specs.Accesses.{access_key};
ghost use Rattle.facts_memory.specs.AccessRows.{rows_of_accesses};
ghost use Rattle.facts_memory.specs.MainAccesses.{GivesMain, IsClocked, PairsMain, ServesMain};
ghost use Rattle.facts_memory.specs.MemoryTables.{AreOrdered, AreSmall, AccessesFit, HaveLimbs, MemoryIsZero, ShowLatest, ShowsAccesses};
ghost use Rattle.facts_memory.specs.Serving.{AreAsks, ArePaired, AreServed, GivesAsks};
ghost use Rattle.facts_memory.specs.TableRows.{AreAccessRows};

/// The laws of memory's table. Rows whose entries are 0 and whose limbs have 16 bits are accesses in order, each of which shows
/// what the one before it left: its word is that of the last earlier row of its context and address, or zeros, changed by its own
/// write. They are the rows of these accesses, and the rows of accesses in order have entries 0. A table that gives the accesses
/// asked serves them: each shows what those before its clock leave; so each row of a main table shows the word that the rows before
/// it leave. Accesses and rows pair one to one. The rows of accesses that fit, put in order, have entries 0 and give these accesses.
pub fn table_laws()
    ensures zeros_are_ordered { (rows : List (List ℕ)) → MemoryIsZero rows → HaveLimbs rows → AreSmall rows → AreOrdered rows }
    ensures shows_latest { (rows : List (List ℕ)) → MemoryIsZero rows → HaveLimbs rows → AreSmall rows → ShowLatest rows }
    ensures zeros_are_rows { (rows : List (List ℕ)) → MemoryIsZero rows → HaveLimbs rows → AreSmall rows → AreAccessRows rows }
    ensures rows_are_zero { (rows : List (List ℕ)) → IsTable 14 rows → AreSmall rows → AreOrdered rows → AreAccessRows rows → MemoryIsZero rows }
    ensures serves { (asks : ℕ → Option Access) (m : ℕ) (rows : List (List ℕ)) → AreAsks asks m → MemoryIsZero rows → HaveLimbs rows
        → GivesAsks asks m rows → AreServed asks m }
    ensures serves_main { (main rows : List (List ℕ)) → IsClocked main → MemoryIsZero rows → HaveLimbs rows → GivesMain main rows
        → ServesMain main }
    ensures pairs { (asks : ℕ → Option Access) (m : ℕ) (rows : List (List ℕ)) → AreAsks asks m → MemoryIsZero rows → HaveLimbs rows
        → GivesAsks asks m rows → ArePaired asks m rows }
    ensures pairs_main { (main rows : List (List ℕ)) → IsClocked main → MemoryIsZero rows → HaveLimbs rows → GivesMain main rows
        → PairsMain main rows }
    ensures rows_show { (accesses sorted : List Access) → AccessesFit accesses → IsPermutation accesses sorted
        → IsNonDecreasingBy access_key sorted → ShowsAccesses accesses (rows_of_accesses sorted) }
{}
