ghost use Rattle.std.specs.Prelude.{◌≡◌, ◌≤◌, [], length, take};
ghost use Rattle.vm_io.specs.Shelf.{kept_name};

use std::marker::Model;
use vm_field::MOST_NAME_BYTES;

/// The front of a name, of `MOST_NAME_BYTES` at most. It takes no memory.
#[derive(Drop)]
pub struct KeptName {
    bytes: [u8; MOST_NAME_BYTES],
    length: usize,
}

impl Model for KeptName {
    ghost use Rattle.std.specs.Prelude.{ℕ, List, take, ◌≤◌};
    ghost use Rattle.vm_field.specs.Limits.{most_name_bytes};

    ghost Value = { List ℕ };

    ghost view = { λ a. take a.length a.bytes };

    ghost invariant = { λ a. a.length ≤ most_name_bytes };
}

impl KeptName {
    /// No name.
    pub fn new() -> KeptName
        ensures none { result ≡ [] }
    {
        KeptName {
            bytes: [0; MOST_NAME_BYTES],
            length: 0,
        }
    }

    /// Keeps the first `MOST_NAME_BYTES` of a name.
    pub fn keep(&mut self, name: &str)
        ensures kept { self.new ≡ kept_name name.now }
    {
        self.length = keep_front(&mut self.bytes, name.as_bytes());
    }
}

// Copies as much of the name as there is room for, and answers how much.
fn keep_front(room: &mut [u8], name: &[u8]) -> usize
    ensures within { result ≤ length room.old }
    ensures kept { take result room.new ≡ take (length room.old) name.now }
{
    let length = room.len().min(name.len());
    room[..length].copy_from_slice(&name[..length]);
    length
}
