ghost use Rattle.std.specs.Prelude.{◌≡◌, ◌↔◌, IsTrue};
ghost use Rattle.block_tree.specs.Kernels.{AreDistinct};

use vm_field::Word;

/// Whether no word stands in the list twice, as in a kernel's list of digests.
pub fn are_distinct(words: &[Word]) -> bool
    ensures { IsTrue result ↔ AreDistinct words.now }
{
    match words.split_first() {
        None => true,
        Some((first, rest)) => !rest.contains(first) && are_distinct(rest),
    }
}
