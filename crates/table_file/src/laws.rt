ghost use Rattle.std.specs.Prelude.{◌≡◌, IsTrue, ℕ, ◌<◌, List, Ok, All};
ghost use Rattle.air_kit.specs.Traces.{HasCounts};
ghost use Rattle.air_kit.specs.declared.trace.Trace.{Trace};
ghost use Rattle.table_file.specs.Files.{AreTables, FitsVersion, bytes_in, bytes_of, is_version, trace_of, version_of};

use crate::cause::{FileCause, FileError};

/// The laws of table files. A trace's file reads as the trace, in each version whose limits the trace keeps. A trace has no
/// other file in that version, and none in other versions. What bytes read as has the row counts and the columns that it may have.
pub fn file_laws()
    ensures read_back { (t : Trace) → HasCounts t → AreTables t → trace_of (bytes_of t) ≡ Ok t }
    ensures versions_read { (version : ℕ) (t : Trace) → IsTrue (is_version version) → FitsVersion version t → HasCounts t → AreTables t
        → trace_of (bytes_in version t) ≡ Ok t }
    ensures one_spelling { (bytes : List ℕ) (t : Trace) → All (λ b. b < 256) bytes → trace_of bytes ≡ Ok t
        → bytes ≡ bytes_in (version_of bytes) t }
    ensures versions { (bytes : List ℕ) (t : Trace) → trace_of bytes ≡ Ok t → IsTrue (is_version (version_of bytes)) }
    ensures limits { (bytes : List ℕ) (t : Trace) → trace_of bytes ≡ Ok t → FitsVersion (version_of bytes) t }
    ensures counts { (bytes : List ℕ) (t : Trace) → trace_of bytes ≡ Ok t → HasCounts t }
    ensures tables { (bytes : List ℕ) (t : Trace) → trace_of bytes ≡ Ok t → AreTables t }
{}

fn crosses<T: Send + Sync>() {}

/// Causes and errors may be sent to other threads and read by several.
pub fn types_cross() {
    crosses::<FileCause>();
    crosses::<FileError>();
}
