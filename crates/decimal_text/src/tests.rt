use crate::{append_elements, append_number};
use std::test::Fail;
use vm_field::{Bytes, Felt};

#[test]
fn numbers_and_elements_stand_behind_a_text(rt: HostRuntime) -> Result<(), Fail> {
    let mut text = Bytes::copied(rt.alloc(), b"tape")?;
    append_elements(&mut text, &[Felt::ZERO, Felt::ONE])?;
    text.append(b" of ")?;
    append_number(&mut text, u64::MAX)?;
    assert_eq!(rt;
        text.as_slice(),
        b"tape 0 1 of 18446744073709551615".as_slice()
    );
    Ok(())
}
