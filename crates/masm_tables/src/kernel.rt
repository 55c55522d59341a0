ghost use Rattle.std.specs.Prelude.{◌≡◌, IfOk};
ghost use Rattle.masm_tables.specs.Kernels.{names_in};

use masm_flat::KernelProc;
use std::alloc::Global;
use vm_field::{Bytes, Memory};

/// The names of what a kernel exports, in order.
pub fn export_names(alloc: Global, kernel: &[KernelProc]) -> Result<Vec<Bytes>, Memory>
    ensures { IfOk result (λ names. names.items ≡ names_in kernel.now) }
{
    let mut names = Vec::new(alloc);
    for export in kernel {
        names.push(Bytes::copied(alloc, export.name.as_slice())?)?;
    }
    Ok(names)
}
