//! What the kinds mean that tuples of some buses have (docs/CONSTRAINTS.md, "Buses").
ghost use Rattle.std.specs.Prelude.{◌≡◌, ◌++◌, map, option_map, slice_get, OnOk, Some};
ghost use Rattle.show_constraints.specs.Meanings.{kind_text, kinds_as_said, kinds_of, meaning_in, meaning_line, told_meaning};

use buses::Bus;
use decimal_text::append_number;
use vm_field::{Bytes, Felt, Memory};

/// Where in a tuple its kind stands, that field's name, and the kinds with what each means.
#[derive(Clone, Copy)]
pub(crate) struct Kinds {
    place: usize,
    name: &'static str,
    meanings: &'static [(u64, &'static str)],
}

const BLOCKS: Kinds = Kinds {
    place: 2,
    name: "kind",
    meanings: &[
        (0, "a JOIN, a SPLIT, a DYN, or a LOOP with s0 = 0"),
        (1, "a LOOP with s0 = 1"),
        (2, "a SPAN"),
        (3, "a CALL"),
        (4, "a SYSCALL"),
    ],
};

const CHILDREN: Kinds = Kinds {
    place: 5,
    name: "more",
    meanings: &[
        (0, "a child behind which no block starts"),
        (
            1,
            "the first child of a JOIN, behind which the second one starts",
        ),
    ],
};

const HASHER: Kinds = Kinds {
    place: 0,
    name: "tag",
    meanings: &[
        (1, "the beginning of a hash"),
        (2, "a permutation with which a hash goes on"),
        (3, "the end of a hash"),
        (4, "the beginning of a permutation of HPERM"),
        (5, "the end of a permutation of HPERM"),
    ],
};

const MEMORY: Kinds = Kinds {
    place: 0,
    name: "kind",
    meanings: &[
        (0, "a word that is read"),
        (1, "a word that is written"),
        (2, "a word of which element 0 is written"),
    ],
};

/// Adds what the kind of a tuple means, where it has one.
///
/// # Errors
///
/// `Memory` where the system gave none for the longer text.
pub fn append_meaning(text: &mut Bytes, bus: Bus, tuple: &[Felt]) -> Result<(), Memory>
    ensures { OnOk result (text.new ≡ text.old ++ meaning_line (kinds_of bus) tuple.now) }
{
    match kinds_of(bus) {
        Some(kinds) => append_kind(text, &kinds, tuple),
        None => Ok(()),
    }
}

#[tactic(auto, unfolding(crate::specs::Meanings::kinds_of))]
fn kinds_of(bus: Bus) -> Option<Kinds>
    ensures { option_map kinds_as_said result ≡ kinds_of bus }
{
    match bus {
        Bus::Blocks => Some(BLOCKS),
        Bus::Children => Some(CHILDREN),
        Bus::Hasher => Some(HASHER),
        Bus::Memory => Some(MEMORY),
        Bus::Loops | Bus::Groups | Bus::Overflow | Bus::Bitwise | Bus::Range | Bus::Kernel => None,
    }
}

fn append_kind(text: &mut Bytes, kinds: &Kinds, tuple: &[Felt]) -> Result<(), Memory>
    ensures { OnOk result (text.new ≡ text.old ++ kind_text (kinds_as_said kinds.now) (slice_get tuple.now kinds.now.place)) }
{
    match tuple.get(kinds.place) {
        Some(kind) => append_told(text, kinds, kind.value()),
        None => Ok(()),
    }
}

fn append_told(text: &mut Bytes, kinds: &Kinds, kind: u64) -> Result<(), Memory>
    ensures { OnOk result (text.new ≡ text.old
        ++ told_meaning kinds.now.name.now kind (meaning_in kind (map (λ meaning. (meaning.0, meaning.1.now)) kinds.now.meanings.now))) }
{
    match meaning_in(kind, kinds.meanings) {
        Some(meaning) => append_line(text, kinds.name, kind, meaning),
        None => Ok(()),
    }
}

fn append_line(text: &mut Bytes, name: &str, kind: u64, meaning: &str) -> Result<(), Memory>
    ensures { OnOk result (text.new ≡ text.old ++ told_meaning name.now kind (Some meaning.now)) }
{
    text.append(b"where ")?;
    text.append(name.as_bytes())?;
    text.append(b" ")?;
    append_number(text, kind)?;
    text.append(b" is ")?;
    text.append(meaning.as_bytes())?;
    text.append(b"\n")
}

// What a kind means, where it is one of these.
#[tactic(auto, unfolding(crate::specs::Meanings::meaning_in))]
fn meaning_in(kind: u64, meanings: &[(u64, &'static str)]) -> Option<&'static str>
    ensures { option_map (λ meaning. meaning.now) result ≡ meaning_in kind (map (λ meaning. (meaning.0, meaning.1.now)) meanings.now) }
{
    match meanings {
        [] => None,
        [(known, meaning), meanings @ ..] => {
            if kind == *known {
                Some(*meaning)
            } else {
                meaning_in(kind, meanings)
            }
        }
    }
}
