ghost use Rattle.std.specs.Prelude.{◌≡◌, ℕ, ◌<◌, List, [], ◌∷◌, length};
ghost use Rattle.air_kit.specs.declared.requests.BitOp.{BitOp};
ghost use Rattle.facts_bitwise.specs.BitRows.{rows_of_bits};
ghost use Rattle.facts_bitwise.specs.BitTables.{AreOpRows, HaveWords, GivesOps, IsBitwise, BitwiseIsZero, ShowsOps, given_in};

/// The laws of the bitwise table. Rows whose entries are 0 are those of the operations that they show, which are on numbers of 32
/// bits. The rows of such operations have entries 0 and show these again. Rows of operations give on their bus what these give. And
/// what a table gives whose entries are 0 is right: the result of two numbers of 32 bits, and nothing else.
pub fn table_laws()
    ensures zeros_are_rows { (rows : List (List ℕ)) → BitwiseIsZero rows → AreOpRows rows }
    ensures rows_show { (ops : List BitOp) → HaveWords ops → ShowsOps ops (rows_of_bits ops) }
    ensures gives { (ops : List BitOp) → GivesOps ops (rows_of_bits ops) }
    ensures means { (rows : List (List ℕ)) (kind u v w : ℕ) → BitwiseIsZero rows → 0 < given_in rows (kind ∷ u ∷ v ∷ w ∷ [])
        → IsBitwise kind u v w }
    ensures shape { (rows : List (List ℕ)) (u : List ℕ) → BitwiseIsZero rows → 0 < given_in rows u → length u ≡ 4 }
{}
