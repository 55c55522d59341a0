ghost use Rattle.std.specs.Prelude.{◌≡◌, ◌+◌, ◌<◌, ◌≤◌, ℕ, List, [], ◌++◌, drop, length, reverse, slice_index_or, IfOk, IsTrue};
ghost use Rattle.machine_cycles.specs.Names.{AreNames, HaveGrown, Lacks, Stands, named, nowhere, scene_of, under, zeros};

use crate::event::Visible;
use std::alloc::Global;
use vm_field::{Felt, Memory, Word};

pub(crate) const ZEROS: [Felt; 8] = [Felt::ZERO; 8];

// So many of the latest scenes are looked through for one that comes again.
const RECENT: usize = 8;

// What of the state before a cycle blocks, calls and the frame pointer's operation change alone.
#[derive(Clone, Copy, Drop)]
pub(crate) struct Scene {
    pub fmp: Felt,
    pub digest: Word,
    pub context: u32,
    pub nesting: u32,
    pub in_syscall: bool,
}

// What an event shows that stands in lists beside it: the place of its scene and of its cells below
// the fourth, and the number of its elements, which is their place and one, or 0 where they are zeros.
#[derive(Clone, Copy, Drop)]
pub(crate) struct Names {
    pub scene: usize,
    pub lower: usize,
    pub elements: usize,
}

// Where a scene and cells are likely to stand.
#[derive(Clone, Copy, Drop)]
pub(crate) struct Likely {
    pub scene: usize,
    pub near: usize,
}

// What events show, each part of it once, in place of once for each event.
#[derive(Drop)]
pub(crate) struct Lists {
    pub scenes: Vec<Scene>,
    // cells below the fourth of a stack, the highest last
    pub cells: Vec<Felt>,
    pub uses: Vec<[Felt; 8]>,
    // the numbers of elements that were named lately, each in the slot of what is in them
    found: [usize; 64],
}

impl Lists {
    // Empty lists. They allocate nothing.
    pub fn new(alloc: Global) -> Lists
        ensures scenes { result.scenes.items ≡ [] }
        ensures cells { result.cells.items ≡ [] }
        ensures uses { result.uses.items ≡ [] }
    {
        Lists {
            scenes: Vec::new(alloc),
            cells: Vec::new(alloc),
            uses: Vec::new(alloc),
            found: [0; 64],
        }
    }

    // Names what an event shows, and adds what is missing. Where the event is plain, its elements are
    // known to be zeros.
    pub fn names(
        &mut self,
        likely: Likely,
        before: &Visible,
        elements: &[Felt; 8],
        plain: bool,
    ) -> Result<Names, Memory>
        requires { IsTrue plain → elements.now ≡ zeros }
        ensures grown { HaveGrown self.old self.new }
        ensures named { IfOk result (AreNames self.new before.now elements.now) }
    {
        let scene = name_scene(&mut self.scenes, likely.scene, before)?;
        let lower = name_lower(&mut self.cells, likely.near, &before.cells)?;
        let elements = name_elements(&mut self.uses, &mut self.found, elements, plain)?;
        Ok(Names {
            scene,
            lower,
            elements,
        })
    }
}

// The scene of a state.
fn scene_of(before: &Visible) -> Scene
    ensures { result ≡ scene_of before.now }
{
    Scene {
        fmp: before.fmp,
        digest: before.digest,
        context: before.context,
        nesting: before.nesting,
        in_syscall: before.in_syscall,
    }
}

// Whether two scenes are the same.
fn is_same(a: &Scene, b: &Scene) -> bool
    ensures { IsTrue result → a.now ≡ b.now }
{
    a.digest == b.digest && is_alike(a, b)
}

// Whether two scenes have all in common but maybe their digests.
fn is_alike(a: &Scene, b: &Scene) -> bool
    ensures { IsTrue result → (a.now.fmp ≡ b.now.fmp) × (a.now.context ≡ b.now.context) × (a.now.nesting ≡ b.now.nesting)
        × (a.now.in_syscall ≡ b.now.in_syscall) }
{
    a.nesting == b.nesting
        && a.fmp == b.fmp
        && a.context == b.context
        && a.in_syscall == b.in_syscall
}

// Whether a scene stands at a place.
fn is_at(scenes: &[Scene], place: usize, scene: &Scene) -> bool
    ensures { IsTrue result → (place < length scenes.now) × (slice_index_or scenes.now place nowhere ≡ scene.now) }
{
    match scenes.get(place) {
        Some(known) => is_same(known, scene),
        None => false,
    }
}

// The place of a state's scene in a list, to which it is added where it is neither at the likely
// place nor one of the latest.
fn name_scene(scenes: &mut Vec<Scene>, likely: usize, before: &Visible) -> Result<usize, Memory>
    ensures more { (more : List Scene) × (scenes.new.items ≡ scenes.old.items ++ more) }
    ensures is { IfOk result (λ place. (place < length scenes.new.items) × (slice_index_or scenes.new.items place nowhere ≡ scene_of before.now)) }
{
    let scene = scene_of(before);
    if is_at(scenes, likely, &scene) {
        return Ok(likely);
    }
    let count = scenes.len();
    for place in count.saturating_sub(RECENT)..count {
        if is_at(scenes, place, &scene) {
            return Ok(place);
        }
    }
    scenes.push(scene)?;
    Ok(count)
}

// The cells below the fourth, the highest last.
fn lower_cells(cells: &[Felt; 16]) -> [Felt; 12]
    ensures { result ≡ reverse (drop 4 cells.now) }
{
    let all = &cells[..];
    let mut lower = [Felt::ZERO; 12];
    lower.copy_from_slice(&all[4..]);
    lower.reverse();
    lower
}

// Whether these cells stand at a place of a list.
fn stands(list: &[Felt], place: usize, lower: &[Felt; 12]) -> bool
    ensures { IsTrue result → Stands list.now place lower.now }
{
    if list.len() < 12 || list.len() - 12 < place {
        return false;
    }
    are_same(&list[place..place + 12], lower)
}

// Whether these are the same cells. It has no early end, so that several are compared at once.
fn are_same(part: &[Felt], lower: &[Felt; 12]) -> bool
    requires { length part.now ≡ 12 }
    ensures { IsTrue result → part.now ≡ lower.now }
{
    let mut same = true;
    for i in 0..12 {
        same = same & (part[i] == lower[i]);
    }
    same
}

// Whether these cells would stand at a place of a list, if the last of them were added.
fn lacks_one(list: &[Felt], place: usize, lower: &[Felt; 12]) -> bool
    ensures { IsTrue result → Lacks list.now place lower.now }
{
    if list.len() < 11 || list.len() - 11 != place {
        return false;
    }
    list[place..] == lower[..11]
}

// The place of a state's cells below the fourth in a list of cells, to which those that are missing
// are added. They may stand near a place.
fn name_lower(list: &mut Vec<Felt>, near: usize, cells: &[Felt; 16]) -> Result<usize, Memory>
    ensures more { (more : List ℕ) × (list.new.items ≡ list.old.items ++ more) }
    ensures is { IfOk result (λ place. Stands list.new.items place (reverse (drop 4 cells.now))) }
{
    let lower = lower_cells(cells);
    if stands(list, near, &lower) {
        return Ok(near);
    }
    if lacks_one(list, near, &lower) {
        list.push(lower[11])?;
        return Ok(near);
    }
    let place = list.len();
    list.extend_from_slice(&lower)?;
    Ok(place)
}

// The number of eight elements in a list, to which they are added where they are neither zeros, which
// may be known, nor those that were named last in their slot.
fn name_elements(
    uses: &mut Vec<[Felt; 8]>,
    found: &mut [usize; 64],
    elements: &[Felt; 8],
    plain: bool,
) -> Result<usize, Memory>
    requires { IsTrue plain → elements.now ≡ zeros }
    ensures more { (more : List (List ℕ)) × (uses.new.items ≡ uses.old.items ++ more) }
    ensures is { IfOk result (λ n. (n ≤ length uses.new.items) × (named zeros uses.new.items n ≡ elements.now)) }
{
    if plain {
        return Ok(0);
    }
    if *elements == ZEROS {
        return Ok(0);
    }
    let slot = slot_of(elements);
    let known = found[slot];
    if is_named(uses, known, elements) {
        return Ok(known);
    }
    uses.push(*elements)?;
    let n = uses.len();
    found[slot] = n;
    Ok(n)
}

// A slot for what is in eight elements.
fn slot_of(elements: &[Felt; 8]) -> usize
    ensures { result < 64 }
{
    let mixed = elements[0].value()
        ^ elements[1].value()
        ^ elements[4].value()
        ^ elements[5].value();
    (mixed % 64) as usize
}

// Whether a number names these elements.
fn is_named(uses: &[[Felt; 8]], n: usize, elements: &[Felt; 8]) -> bool
    ensures { IsTrue result → (n ≤ length uses.now) × (named zeros uses.now n ≡ elements.now) }
{
    match n.checked_sub(1) {
        None => false,
        Some(place) => match uses.get(place) {
            None => false,
            Some(known) => *known == *elements,
        },
    }
}

// The eight elements that a number names.
pub(crate) fn elements_named(uses: &[[Felt; 8]], n: usize) -> [Felt; 8]
    requires { n ≤ length uses.now }
    ensures { result ≡ named zeros uses.now n }
{
    match n.checked_sub(1) {
        None => ZEROS,
        Some(place) => uses[place],
    }
}

// A state's cells: the top four, and those that stand at a place of a list.
pub(crate) fn cells_named(top: &[Felt; 4], list: &[Felt], place: usize) -> [Felt; 16]
    requires { place + 12 ≤ length list.now }
    ensures { result ≡ top.now ++ under list.now place }
{
    let mut lower = [Felt::ZERO; 12];
    lower.copy_from_slice(&list[place..place + 12]);
    lower.reverse();
    let mut cells = [Felt::ZERO; 16];
    let all = &mut cells[..];
    all[..4].copy_from_slice(top);
    all[4..].copy_from_slice(&lower);
    cells
}
