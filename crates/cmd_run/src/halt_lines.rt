// What `run` prints of a program that halts.
ghost use Rattle.std.specs.Prelude.{◌≡◌, IfOk};
ghost use Rattle.cmd_kit.specs.RunEnds.{limit_line, trap_line};

use decimal_text::append_number;
use std::alloc::Global;
use vm_field::{Bytes, Memory};
use vm_ops::{Cause, cause_text};

// `trap CLOCK CAUSE`
pub(crate) fn trap_text(alloc: Global, clock: u32, cause: Cause) -> Result<Bytes, Memory>
    ensures { IfOk result (λ text. text ≡ trap_line clock cause) }
{
    let mut text = Bytes::copied(alloc, b"trap ")?;
    append_number(&mut text, u64::from(clock))?;
    text.append(b" ")?;
    text.append(cause_text(cause).as_bytes())?;
    text.append(b"\n")?;
    Ok(text)
}

// `out of cycles LIMIT`
pub(crate) fn limit_text(alloc: Global, limit: u32) -> Result<Bytes, Memory>
    ensures { IfOk result (λ text. text ≡ limit_line limit) }
{
    let mut text = Bytes::copied(alloc, b"out of cycles ")?;
    append_number(&mut text, u64::from(limit))?;
    text.append(b"\n")?;
    Ok(text)
}
