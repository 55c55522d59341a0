use air_kit::{Fault, TableName};
use bus_kit::Tuple;
use buses::Bus;
use checker::Refused;
use cmd_kit::refused_line;
use std::alloc::Global;
use std::test::Fail;
use vm_field::{Felt, Memory};

// -1
fn last_element() -> Felt {
    Felt::ZERO - Felt::ONE
}

fn fault() -> Refused {
    Refused::Fault(Fault {
        table: TableName::Main,
        row: 0,
        number: 103,
        value: last_element(),
    })
}

fn apart(bus: Bus, tuple: Tuple) -> Refused {
    Refused::Bus {
        bus,
        tuple,
        asked: 1,
        given: 0,
    }
}

fn is_line(alloc: Global, refused: &Refused, wanted: &[u8]) -> Result<bool, Memory> {
    let line = refused_line(alloc, refused)?;
    Ok(line.as_slice() == wanted)
}

#[test]
fn a_fault_is_named(rt: HostRuntime) -> Result<(), Fail> {
    let wanted = b"refused main row 0 constraint 103 value 18446744069414584320\n";
    assert!(rt; is_line(rt.alloc(), &fault(), wanted)?);
    Ok(())
}

#[test]
fn a_bus_is_named(rt: HostRuntime) -> Result<(), Fail> {
    let loops = apart(
        Bus::Loops,
        Tuple::of(&[Felt::ONE, Felt::ZERO, Felt::ZERO, Felt::ZERO, Felt::ZERO]),
    );
    assert!(rt;
        is_line(
            rt.alloc(),
            &loops,
            b"refused bus loops tuple 1 0 0 0 0 asked 1 given 0\n"
        )?
    );
    let range = apart(Bus::Range, Tuple::of(&[last_element()]));
    assert!(rt;
        is_line(
            rt.alloc(),
            &range,
            b"refused bus range tuple 18446744069414584320 asked 1 given 0\n"
        )?
    );
    Ok(())
}
