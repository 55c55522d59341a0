ghost use Rattle.std.specs.Prelude.{◌≡◌, ◌<◌, slice_index};
ghost use Rattle.masm_instr.specs.Slots.{key, slot};

// Times this, cut to eight bits, no two names have the same key. It was found by trial.
const FACTOR: u64 = 8782688472565355437;

// For each slot the place in `EVERY` of the one name that may have it; 0 where there is none.
pub(crate) const SLOTS: [u8; 256] = [
    0, 0, 0, 0, 65, 0, 0, 61, 0, 0, 59, 0, 7, 11, 0, 0, 66, 67, 0, 0, 0, 0, 22, 75, 0, 42, 0, 0,
    68, 0, 54, 39, 0, 0, 16, 3, 0, 43, 0, 19, 0, 0, 0, 45, 0, 0, 0, 0, 24, 0, 0, 64, 0, 20, 84, 0,
    53, 0, 83, 0, 0, 12, 0, 0, 0, 0, 0, 79, 0, 0, 90, 0, 80, 56, 0, 0, 14, 13, 0, 0, 0, 0, 0, 0, 0,
    55, 0, 0, 0, 0, 0, 91, 38, 62, 86, 0, 49, 0, 44, 0, 74, 29, 0, 0, 0, 0, 0, 0, 0, 0, 70, 78, 0,
    30, 0, 0, 51, 4, 0, 0, 0, 32, 0, 0, 31, 46, 0, 0, 0, 0, 63, 0, 87, 33, 71, 72, 0, 0, 0, 0, 57,
    41, 0, 0, 34, 0, 5, 0, 21, 47, 17, 0, 0, 0, 0, 6, 0, 0, 0, 1, 0, 0, 0, 0, 73, 0, 0, 27, 0, 0,
    0, 0, 0, 0, 50, 26, 0, 0, 0, 0, 0, 0, 35, 0, 0, 58, 8, 0, 0, 89, 0, 0, 88, 36, 52, 0, 0, 0, 0,
    0, 9, 60, 40, 0, 23, 37, 0, 2, 0, 0, 0, 0, 0, 0, 85, 0, 81, 0, 0, 0, 0, 15, 0, 0, 0, 0, 0, 76,
    0, 0, 0, 0, 0, 0, 18, 77, 28, 48, 0, 0, 0, 0, 0, 69, 0, 0, 0, 25, 0, 0, 0, 0, 0, 10, 82, 0,
];

fn byte_at(text: &[u8], place: usize) -> u8
    ensures { result ≡ slice_index text.now place }
{
    match text.get(place) {
        Some(byte) => *byte,
        None => 0,
    }
}

// The length of a text with its first byte and its last three.
fn key(text: &[u8]) -> u64
    ensures { result ≡ key text.now }
{
    let length = text.len();
    u64::from_le_bytes([
        byte_at(text, 0),
        byte_at(text, length.saturating_sub(1)),
        byte_at(text, length.saturating_sub(2)),
        byte_at(text, length.saturating_sub(3)),
        (length % 256) as u8,
        0,
        0,
        0,
    ])
}

// The slot of a text. Those of the names are all different.
#[tactic(auto, unfolding(crate::specs::Slots::slot))]
pub(crate) fn slot(text: &[u8]) -> usize
    ensures slot { result ≡ slot text.now }
    ensures bound { result < 256 }
{
    (key(text).wrapping_mul(FACTOR) >> 56) as usize
}
