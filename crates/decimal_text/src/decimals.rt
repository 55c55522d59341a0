ghost use Rattle.std.specs.Prelude.{◌≡◌, ◌++◌, OnOk, decimal};
ghost use Rattle.std.specs.List.{flat_map};
ghost use Rattle.decimal_text.specs.Decimals.{element_text};

use vm_field::{Bytes, Felt, Memory};

/// Adds a number in decimal.
///
/// # Errors
///
/// `Memory` where the system gave none for the longer text.
pub fn append_number(text: &mut Bytes, number: u64) -> Result<(), Memory>
    ensures { OnOk result (text.new ≡ text.old ++ decimal number) }
{
    let mut buffer = itoa::Buffer::new();
    text.append(buffer.format(number).as_bytes())
}

/// Adds a space, and the element in decimal.
///
/// # Errors
///
/// `Memory` where the system gave none for the longer text.
pub fn append_element(text: &mut Bytes, element: Felt) -> Result<(), Memory>
    ensures { OnOk result (text.new ≡ text.old ++ element_text element) }
{
    text.push(b' ')?;
    append_number(text, element.value())
}

/// Adds each element, in decimal and with a space before it.
///
/// # Errors
///
/// `Memory` where the system gave none for the longer text.
pub fn append_elements(text: &mut Bytes, elements: &[Felt]) -> Result<(), Memory>
    ensures { OnOk result (text.new ≡ text.old ++ flat_map element_text elements.now) }
{
    for element in elements {
        append_element(text, *element)?;
    }
    Ok(())
}
