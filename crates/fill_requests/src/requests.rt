ghost use Rattle.std.specs.Prelude.{◌≡◌, ◌++◌, [], ◌∷◌, take, if◌then◌else◌, All, OnOk};
ghost use Rattle.vm_ops.specs.declared.op.Op.TheVariants as ops;
ghost use Rattle.air_kit.specs.Flags.{is_op};
ghost use Rattle.complete_rows.specs.Numbers.{HasU32Address, HasU32Operands, IsU16};
ghost use Rattle.complete_rows.specs.RunRequests.{accesses_by, bits_by, ranges_by};
ghost use Rattle.fill_requests.specs.Asked.{perms_as};

use crate::accesses::push_accesses;
use crate::bits::push_bits;
use crate::calls::push_call;
use crate::perms::push_perms;
use crate::ranges::push_ranges;
use air_kit::Requests;
use machine_cycles::{Event, Visible};
use perm_memo::Permutations;
use std::alloc::Global;
use vm_field::{Felt, Felts, Memory, Sequence, Words};
use vm_ops::Kind;

/// What no rows ask. It allocates nothing.
pub fn no_requests(alloc: Global) -> Requests
    ensures { result ≡ record { perms = []; bits = []; accesses = []; ranges = []; calls = []; keys = [] } }
{
    Requests {
        perms: Sequence::new(alloc),
        bits: Sequence::new(alloc),
        accesses: Sequence::new(alloc),
        ranges: Sequence::new(alloc),
        calls: Words::new(alloc),
        keys: Felts::new(alloc),
    }
}

/// Adds what the row of an event of a kind asks, before the state behind it, where its span has
/// these later batches. Operands and addresses have 32 bits, and limbs 16.
///
/// # Errors
///
/// `Memory` where the system gave none for a request.
pub fn push_requests(
    requests: &mut Requests,
    permutations: &mut Permutations,
    kind: Kind,
    event: &Event,
    next: &Visible,
    batches: &[[Felt; 8]],
) -> Result<(), Memory>
    requires bits { All HasU32Operands (bits_by event.now.op event.now.before) }
    requires accesses { All HasU32Address (accesses_by event.now.op event.now) }
    requires ranges { All IsU16 (ranges_by event.now next.now) }
    ensures perms { OnOk result (requests.new.perms ≡ requests.old.perms ++ perms_as kind permutations.old event.now batches.now) }
    ensures bits { OnOk result (requests.new.bits ≡ requests.old.bits ++ bits_by event.now.op event.now.before) }
    ensures accesses { OnOk result (requests.new.accesses ≡ requests.old.accesses ++ accesses_by event.now.op event.now) }
    ensures ranges { OnOk result (requests.new.ranges ≡ requests.old.ranges ++ ranges_by event.now next.now) }
    ensures calls { OnOk result (requests.new.calls
        ≡ requests.old.calls ++ (if is_op event.now.op ops.Syscall then take 4 event.now.hash ∷ [] else [])) }
    ensures same { permutations.new ≡ permutations.old }
{
    push_perms(permutations, &mut requests.perms, kind, event, batches)?;
    push_bits(&mut requests.bits, event)?;
    push_accesses(&mut requests.accesses, event)?;
    push_ranges(&mut requests.ranges, event, next)?;
    push_call(&mut requests.calls, event)
}
