ghost use Rattle.std.specs.Prelude.{◌≡◌, ℕ, List, [], ◌∷◌, ◌++◌, OnOk, OnErr, bytes_eq, if◌then◌else◌};
ghost use Rattle.std.specs.Option.{option_or};
ghost use Rattle.std.specs.BTreeMap.{IsUnchanged};
ghost use Rattle.masm_reading.specs.Constants.{constant_of, value_at};

use std::alloc::Global;
use std::collections::BTreeMap;
use std::marker::Model;
use vm_field::{Bytes, Felt, Memory};

/// A constant of a source.
#[derive(Drop)]
pub struct Const {
    pub name: Bytes,
    pub value: Felt,
    /// The line of its token, counted from 1.
    pub line: u32,
    /// The column of its token, counted in bytes from 1.
    pub column: u32,
}

/// The constants of a source so far, in their order.
#[derive(Drop)]
pub struct Consts {
    alloc: Global,
    items: Vec<Const>,
    // the first value of each name
    values: BTreeMap<Vec<u8>, Felt>,
}

impl Model for Consts {
    ghost use Rattle.std.specs.Prelude.{List};
    ghost use Rattle.masm_reading.specs.declared.constant.Const.{Const};
    ghost use Rattle.masm_reading.specs.Constants.{IsIndex};

    ghost Value = { List Const };

    ghost view = { λ a. a.items.items };

    ghost invariant = { λ a. IsIndex a.values a.items.items };
}

// Gives a name a value, unless it has one.
fn add_value(
    values: &mut BTreeMap<Vec<u8>, Felt>,
    alloc: Global,
    name: &[u8],
    value: Felt,
) -> Result<(), Memory>
    ensures ok { OnOk result ((text : List ℕ)
        → value_at values.new text
        ≡ option_or (value_at values.old text) (if bytes_eq name.now text then Some value else None)) }
    ensures err { OnErr result (IsUnchanged values.old values.new) }
{
    if values.contains_key(name) {
        return Ok(());
    }
    let key = Vec::from_slice(alloc, name)?;
    values.insert(key, value)?;
    Ok(())
}

impl Consts {
    /// No constants. It allocates nothing.
    pub fn new(alloc: Global) -> Consts
        ensures empty { result ≡ [] }
    {
        Consts {
            alloc,
            items: Vec::new(alloc),
            values: BTreeMap::new(alloc),
        }
    }

    /// Adds a constant at the end. At `Memory` the list is as before.
    pub fn push(&mut self, x: Const) -> Result<(), Memory>
        ensures ok { OnOk result (self.new ≡ self.old ++ x ∷ []) }
        ensures err { OnErr result (self.new ≡ self.old) }
    {
        self.items.reserve(1)?;
        add_value(&mut self.values, self.alloc, x.name.as_slice(), x.value)?;
        self.items.push_reserved(x);
        Ok(())
    }

    /// The constants, in order.
    pub fn as_slice(&self) -> &[Const]
        ensures items { result.now ≡ self.now }
    {
        self.items.as_slice()
    }

    /// The value of the first constant of this name.
    pub fn value_of(&self, name: &[u8]) -> Option<Felt>
        ensures { result ≡ constant_of self.now name.now }
    {
        self.values.get(name).copied()
    }
}
