// What chains of runs share: their lists, and the lines that tell of a link.
ghost use Rattle.std.specs.Prelude.{◌≡◌, ℕ, List, Some, Ok, IfErr, IfOk};
ghost use Rattle.vm_io.specs.Shelf.{ShelfState};
ghost use Rattle.run_chain.specs.Lists.{links_of};
ghost use Rattle.run_chain.specs.Reads.{given};
ghost use Rattle.cmd_kit.specs.Links.{broken_line, line_of_link, with_lines};
ghost use Rattle.cmd_kit.specs.Outcomes.{EndsIn, SaysStatus};
ghost use Rattle.cmd_kit.specs.Steps.{Steps};

use crate::bad_forms::malformed;
use crate::outcome::{Outcome, answered};
use crate::status::Status;
use decimal_text::append_number;
use run_chain::{LinkError, Links, cause_text, read_links};
use std::alloc::Global;
use vm_field::{Bytes, Memory};

/// The longest list of links, in bytes.
pub const MOST_LIST_BYTES: u64 = 65_536;

/// Reads the bytes of a list as its lines: those of a chain where the name of its evidence is given, else
/// those of runs. An `Err` is how the command ends, whatever was to come next.
#[tactic(auto, using(crate::proofs::ServingLemmas::work_ends, crate::proofs::ServingLemmas::says_comes, crate::proofs::ServingLemmas::same_again))]
pub fn lines_of_list<'a>(
    alloc: Global,
    bytes: &'a [u8],
    params: &'a str,
    list: &'a str,
    evidence: Option<&'a str>,
) -> Result<Links<'a>, Outcome>
    ensures lines { IfOk result (λ lines. links_of (given params.entry.now list.entry.now evidence.entry) bytes.entry.now ≡ Ok lines) }
    ensures ends { IfErr result (λ end. (s : ShelfState) (next : List (List (List ℕ)) → Steps)
        → EndsIn (Some (with_lines list.entry.now next (links_of (given params.entry.now list.entry.now evidence.entry) bytes.entry.now))) end s s) }
{
    match read_links(alloc, bytes, params, list, evidence) {
        Ok(lines) => Ok(lines),
        Err(LinkError::Bad { line, cause }) => {
            Err(malformed(alloc, list, line, cause_text(cause)))
        }
        Err(LinkError::Memory) => Err(Outcome::Memory),
    }
}

/// `broken link K`
#[tactic(auto, using(crate::proofs::OutcomeLemmas::says_line))]
pub fn broken_link(alloc: Global, number: u64) -> Outcome
    ensures { SaysStatus result Status.Broken (broken_line number) }
{
    answered(Status::Broken, broken_text(alloc, number))
}

fn broken_text(alloc: Global, number: u64) -> Result<Bytes, Memory>
    ensures { IfOk result (λ text. text ≡ broken_line number) }
{
    let mut text = Bytes::copied(alloc, b"broken link ")?;
    append_number(&mut text, number)?;
    text.append(b"\n")?;
    Ok(text)
}

/// A line that tells of a link, with `link K ` in front.
///
/// # Errors
///
/// `Memory` where the system gave none for the line.
pub fn text_of_link(alloc: Global, number: u64, line: &[u8]) -> Result<Bytes, Memory>
    ensures { IfOk result (λ text. text ≡ line_of_link number line.now) }
{
    let mut text = Bytes::copied(alloc, b"link ")?;
    append_number(&mut text, number)?;
    text.append(b" ")?;
    text.append(line)?;
    Ok(text)
}
