ghost use Rattle.std.specs.Prelude.{ℕ, ◌↔◌, IsTrue};
ghost use Rattle.air_kit.specs.Traces.{IsCount};
ghost use Rattle.air_kit.specs.declared.trace.TableName.{TableName};
ghost use Rattle.air_kit.specs.Counts.{may_have};
ghost use Rattle.air_kit.specs.Numbers.{HaveNumbers};
ghost use Rattle.air_kit.specs.Places.{Claim, Spot};

/// The law of counts: a table may have so many rows exactly where the test of that number says so.
pub fn count_laws()
    ensures { (name : TableName) (n : ℕ) → IsTrue (may_have name n) ↔ IsCount name n }
{}

/// The law of numbers: in each table the value of number n is that of the definition `entry_n`, in its place, and no number is left.
pub fn number_laws()
    ensures { (c : Claim) (p : Spot) → HaveNumbers c p }
{}
