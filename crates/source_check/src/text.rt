ghost use Rattle.std.specs.Prelude.{◌≡◌, ◌++◌, IfOk, OnOk};
ghost use Rattle.source_check.specs.SourceText.{clash_file_text, clash_node_text, source_evidence_text};

use crate::evidence::SourceEvidence;
use decimal_text::append_number;
use statement::append_run;
use std::alloc::Global;
use vm_field::{Bytes, Memory};

/// The one text that is written of evidence for a source: the line `ran` and behind it the lines of a
/// run, as `statement::write_evidence` has them, or the line `clash file` with an address, and `file`
/// with another one or `node` with the number of a block.
pub fn write_source_evidence(alloc: Global, evidence: &SourceEvidence) -> Result<Bytes, Memory>
    ensures { IfOk result (λ bytes. bytes ≡ source_evidence_text evidence.now) }
{
    let mut text = Bytes::new(alloc);
    match evidence {
        SourceEvidence::Ran { cycles, tree, tape } => {
            text.append(b"ran\n")?;
            append_run(alloc, &mut text, *cycles, tape.as_slice(), tree)?;
        }
        SourceEvidence::ClashFile { first, second } => {
            append_clash_of_file(&mut text, *first, *second)?;
        }
        SourceEvidence::ClashNode { address, node } => {
            append_clash_of_node(&mut text, *address, *node)?;
        }
    }
    Ok(text)
}

/// Adds the line of two addresses that clash.
pub fn append_clash_of_file(text: &mut Bytes, first: u32, second: u32) -> Result<(), Memory>
    ensures { OnOk result (text.new ≡ text.old ++ clash_file_text first second) }
{
    text.append(b"clash file ")?;
    append_number(text, u64::from(first))?;
    text.append(b" file ")?;
    append_number(text, u64::from(second))?;
    text.push(b'\n')
}

/// Adds the line of an address and a block of the source that clash.
pub fn append_clash_of_node(text: &mut Bytes, address: u32, node: u64) -> Result<(), Memory>
    ensures { OnOk result (text.new ≡ text.old ++ clash_node_text address node) }
{
    text.append(b"clash file ")?;
    append_number(text, u64::from(address))?;
    text.append(b" node ")?;
    append_number(text, node)?;
    text.push(b'\n')
}
