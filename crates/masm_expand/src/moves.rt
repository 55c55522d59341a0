ghost use Rattle.std.specs.Prelude.{◌≡◌, ◌*◌, ◌+◌, ◌<◌, ◌≤◌, ◌++◌, [], ◌∷◌, replicate, OnOk};
ghost use Rattle.masm_expand.specs.Expansion.{plain, dup, dups, swapws, entry, movup, movdn, swap, movupw, movdnw};

use crate::pieces::{add_plain, add_times};
use vm_field::Memory;
use vm_ops::{Item, Items, Op};

// The operations that copy cells, by the cell; NOOP stands where there is none.
const DUPS: [Op; 16] = [
    Op::Dup0,
    Op::Dup1,
    Op::Dup2,
    Op::Dup3,
    Op::Dup4,
    Op::Dup5,
    Op::Dup6,
    Op::Dup7,
    Op::Noop,
    Op::Dup9,
    Op::Noop,
    Op::Dup11,
    Op::Noop,
    Op::Dup13,
    Op::Noop,
    Op::Dup15,
];

// The operations that move a cell to the top, by the cell.
const MOVUPS: [Op; 9] = [
    Op::Noop,
    Op::Swap,
    Op::MovUp2,
    Op::MovUp3,
    Op::MovUp4,
    Op::MovUp5,
    Op::MovUp6,
    Op::MovUp7,
    Op::MovUp8,
];

// The operations that move the top to a cell, by the cell.
const MOVDNS: [Op; 9] = [
    Op::Noop,
    Op::Swap,
    Op::MovDn2,
    Op::MovDn3,
    Op::MovDn4,
    Op::MovDn5,
    Op::MovDn6,
    Op::MovDn7,
    Op::MovDn8,
];

// The operations that exchange the top word with a word, by the word.
const SWAPWS: [Op; 4] = [Op::Noop, Op::SwapW, Op::SwapW2, Op::SwapW3];

// A copy of a cell.
#[tactic(auto, unfolding(crate::specs::Expansion::dup))]
pub(crate) fn add_dup(items: &mut Items, cell: u128) -> Result<(), Memory>
    requires { cell ≤ 15 }
    ensures { OnOk result (items.new ≡ items.old ++ plain (dup cell)) }
{
    let n = cell as usize;
    if n < 8 || n % 2 == 1 {
        add_plain(items, &[DUPS[n]])
    } else {
        add_plain(items, &[Op::Pad, DUPS[n + 1], Op::Add])
    }
}

// A copy of a word.
pub(crate) fn add_dupw(items: &mut Items, word: u128) -> Result<(), Memory>
    requires { word ≤ 3 }
    ensures { OnOk result (items.new ≡ items.old ++ plain (replicate 4 (entry dups (4 * word + 3)))) }
{
    add_times(items, 4, DUPS[4 * word as usize + 3])
}

// A cell to the top.
#[tactic(auto, unfolding(crate::specs::Expansion::movup))]
pub(crate) fn add_movup(items: &mut Items, cell: u128) -> Result<(), Memory>
    requires { cell ≤ 15 }
    ensures { OnOk result (items.new ≡ items.old ++ plain (movup cell)) }
{
    let n = cell as usize;
    if n <= 8 {
        add_plain(items, &[MOVUPS[n]])
    } else {
        add_plain(items, &[Op::SwapDW, MOVUPS[n - 8], Op::SwapDW, Op::MovUp8])
    }
}

// The top to a cell.
#[tactic(auto, unfolding(crate::specs::Expansion::movdn))]
pub(crate) fn add_movdn(items: &mut Items, cell: u128) -> Result<(), Memory>
    requires { cell ≤ 15 }
    ensures { OnOk result (items.new ≡ items.old ++ plain (movdn cell)) }
{
    let n = cell as usize;
    if n <= 8 {
        add_plain(items, &[MOVDNS[n]])
    } else {
        add_plain(items, &[Op::MovDn8, Op::SwapDW, MOVDNS[n - 8], Op::SwapDW])
    }
}

// The top exchanged with a cell.
#[tactic(auto, unfolding(crate::specs::Expansion::swap))]
pub(crate) fn add_swap(items: &mut Items, cell: u128) -> Result<(), Memory>
    requires low { 1 ≤ cell }
    requires high { cell ≤ 15 }
    ensures { OnOk result (items.new ≡ items.old ++ plain (swap cell)) }
{
    if cell == 1 {
        return add_plain(items, &[Op::Swap]);
    }
    add_movdn(items, cell)?;
    add_movup(items, cell - 1)
}

// The top word exchanged with a word.
pub(crate) fn add_swapw(items: &mut Items, word: u128) -> Result<(), Memory>
    requires { word ≤ 3 }
    ensures { OnOk result (items.new ≡ items.old ++ plain (entry swapws word ∷ [])) }
{
    add_plain(items, &[SWAPWS[word as usize]])
}

// A word to the top.
#[tactic(auto, unfolding(crate::specs::Expansion::movupw))]
pub(crate) fn add_movupw(items: &mut Items, word: u128) -> Result<(), Memory>
    ensures { OnOk result (items.new ≡ items.old ++ plain (movupw word)) }
{
    if word == 2 {
        add_plain(items, &[Op::SwapW, Op::SwapW2])
    } else {
        add_plain(items, &[Op::SwapW, Op::SwapW2, Op::SwapW3])
    }
}

// The top word to a word.
#[tactic(auto, unfolding(crate::specs::Expansion::movdnw))]
pub(crate) fn add_movdnw(items: &mut Items, word: u128) -> Result<(), Memory>
    ensures { OnOk result (items.new ≡ items.old ++ plain (movdnw word)) }
{
    if word == 2 {
        add_plain(items, &[Op::SwapW2, Op::SwapW])
    } else {
        add_plain(items, &[Op::SwapW3, Op::SwapW2, Op::SwapW])
    }
}
