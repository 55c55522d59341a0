ghost use Rattle.std.specs.Prelude.{◌≡◌, ◌++◌, IfOk, OnOk, decimal};
ghost use Rattle.cmd_kit.specs.RefusalLines.{bus_line, fault_line, refused_line};

use air_kit::Fault;
use buses::Bus;
use checker::Refused;
use decimal_text::{append_elements, append_number};
use std::alloc::Global;
use vm_field::{Bytes, Felt, Memory};

/// The line of a refusal, with its line feed: `refused TABLE row R constraint K value V`, or
/// `refused bus NAME tuple E1 E2 .. asked A given G` with each element of the tuple. Of want of memory there is no line, and no byte.
///
/// # Errors
///
/// `Memory` where the system gave none for the line.
pub fn refused_line(alloc: Global, refused: &Refused) -> Result<Bytes, Memory>
    ensures { IfOk result (λ line. line ≡ refused_line refused.now) }
{
    match refused {
        Refused::Fault(fault) => fault_line(alloc, fault),
        Refused::Bus {
            bus,
            tuple,
            asked,
            given,
        } => bus_line(alloc, *bus, tuple.as_slice(), *asked, *given),
        Refused::Memory => Ok(Bytes::new(alloc)),
    }
}

fn fault_line(alloc: Global, fault: &Fault) -> Result<Bytes, Memory>
    ensures { IfOk result (λ line. line ≡ fault_line fault.now) }
{
    let table = fault.table;
    let name = format!(in alloc; "refused {table} row ")?;
    let mut line = Bytes::copied(alloc, name.as_bytes())?;
    append_number(&mut line, u64::from(fault.row))?;
    line.append(b" constraint ")?;
    append_number(&mut line, u64::from(fault.number))?;
    line.append(b" value ")?;
    append_number(&mut line, fault.value.value())?;
    line.append(b"\n")?;
    Ok(line)
}

fn bus_line(
    alloc: Global,
    bus: Bus,
    tuple: &[Felt],
    asked: u128,
    given: u128,
) -> Result<Bytes, Memory>
    ensures { IfOk result (λ line. line ≡ bus_line bus tuple.now asked given) }
{
    let name = format!(in alloc; "refused bus {bus} tuple")?;
    let mut line = Bytes::copied(alloc, name.as_bytes())?;
    append_elements(&mut line, tuple)?;
    line.append(b" asked ")?;
    append_count(&mut line, asked)?;
    line.append(b" given ")?;
    append_count(&mut line, given)?;
    line.append(b"\n")?;
    Ok(line)
}

// A count of tuples is a number of 128 bits.
fn append_count(line: &mut Bytes, count: u128) -> Result<(), Memory>
    ensures { OnOk result (line.new ≡ line.old ++ decimal count) }
{
    let mut buffer = itoa::Buffer::new();
    line.append(buffer.format(count).as_bytes())
}
