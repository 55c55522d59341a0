ghost use Rattle.std.specs.Prelude.{◌≡◌, ◌<◌, ℕ, [], slice_index, slice_index_or};
ghost use Rattle.air_kit.specs.KernelValues.{entry_1, kernel_values};
ghost use Rattle.air_kit.specs.Places.{family, first_fault_of};
ghost use Rattle.air_kit.specs.Rows.{claim_at, spot_at};

use air_kit::{Place, first_nonzero};
use chip_columns::KernelView;
use vm_field::{Felt, Word, Words};

// The digest of a number; zeros behind the last.
fn digest_at(kernel: &Words, number: u32) -> Word
    ensures { (j : ℕ) → slice_index result j ≡ slice_index (slice_index_or kernel.now number []) j }
{
    if (number as usize) < kernel.len() {
        kernel.at(number as usize)
    } else {
        Word::ZERO
    }
}

// 1 + j: element j is that of the digest of the row's number.
fn entry_1<V: KernelView>(j: usize, place: &Place<'_, V>) -> Felt
    requires { j < 4 }
    ensures { result ≡ entry_1 j (claim_at place.now) place.now.row (V.cells place.now.cur) }
{
    let digest = digest_at(&place.public.statement.kernel, place.row);
    place.cur.d(j) - digest.at(j)
}

/// The first entry of the kernel table that is not 0 in a row, with its value: the row is the statement's digest of its number,
/// or zeros where there is none.
#[tactic(auto, unfolding(air_kit::specs::KernelValues::kernel_values, air_kit::specs::Places::family))]
pub fn first_fault_kernel<V: KernelView>(place: &Place<'_, V>) -> Option<(u16, Felt)>
    ensures { result ≡ first_fault_of 1 (kernel_values (claim_at place.now) (spot_at V.cells place.now)) }
{
    let values = [
        entry_1(0, place),
        entry_1(1, place),
        entry_1(2, place),
        entry_1(3, place),
    ];
    first_nonzero(&values, 1)
}
