//! What is told of a token whose first part is neither a word of the grammar nor an instruction's name.
ghost use Rattle.std.specs.Prelude.{◌≡◌, [], ◌++◌, unwrap_or, OnOk};
ghost use Rattle.show_tokens.specs.Unnamed.{unnamed_line};
ghost use Rattle.show_why.specs.Sights.{Sight as Seen, first_of};
ghost use Rattle.show_why.specs.Views.{IsSight};

use crate::sight::{Sight, text_or_nothing};
use show_tokens::{append_by_text, first_part};
use std::alloc::Global;
use vm_field::{Bytes, Memory};

pub(crate) fn append_unnamed(
    alloc: Global,
    text: &mut Bytes,
    is_kernel: bool,
    sight: &Sight<'_>,
) -> Result<(), Memory>
    ensures { OnOk result ((seen : Seen) → IsSight sight.now seen
        → text.new ≡ text.old ++ unnamed_line is_kernel seen.procedures (unwrap_or seen.token []) (first_of seen)) }
{
    let token = text_or_nothing(sight.token);
    let first = first_part(sight.parts.as_slice());
    append_by_text(
        alloc,
        text,
        is_kernel,
        sight.procedures.as_slice(),
        token,
        first,
    )
}
