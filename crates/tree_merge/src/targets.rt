ghost use Rattle.std.specs.Prelude.{◌≡◌, ◌++◌, ◌∷◌, [], OnOk, IfErr, IfSome, IfNone};
ghost use Rattle.tree_merge.specs.AddrView.{entries_of};
ghost use Rattle.tree_merge.specs.Targets.{HasNone, IsFirstAt};
ghost use Rattle.tree_merge.specs.declared.addr_tree.MergeStop.TheVariants.{Memory};

use crate::addr_tree::{AddrTrees, MergeStop, Target};
use vm_field::Word;

// How many targets come before the first of this digest.
pub(crate) fn place(targets: &[Target], digest: Word) -> Option<usize>
    ensures some { IfSome result (λ i. IsFirstAt (entries_of targets.now) digest i) }
    ensures none { IfNone result (HasNone digest (entries_of targets.now)) }
{
    for i in 0..targets.len() {
        if targets[i].digest == digest {
            return Some(i);
        }
    }
    None
}

// A target put at the end.
pub(crate) fn push(targets: &mut AddrTrees, target: Target) -> Result<(), MergeStop>
    ensures ok { OnOk result (targets.new.items ≡ targets.old.items ++ target ∷ []) }
    ensures err { IfErr result (λ stop. stop ≡ Memory) }
{
    match targets.push(target) {
        Ok(()) => Ok(()),
        Err(_) => Err(MergeStop::Memory),
    }
}
