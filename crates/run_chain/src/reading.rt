ghost use Rattle.std.specs.Prelude.{◌≡◌, ◌<◌, ◌^◌, ◌+◌, ◌-◌, ℕ, map, option_map, IfOk};
ghost use Rattle.answers.specs.Gives.{Gives};
ghost use Rattle.run_chain.specs.Lists.{Ended, links_of, names_in as names_of_line};
ghost use Rattle.run_chain.specs.Reads.{given, wrong_line};

use crate::links::Links;
use crate::naming::{add_names, has_clash, names_of_words, roles_for};
use crate::refusal::{LinkCause, LinkError};
use cmd_words::file_name;
use rpo_hash::next_line;
use std::alloc::{AllocError, Global};

/// A list has at most so many lines.
pub const MOST_LINKS: usize = 64;

/// Reads a list of links: for a chain where the name of its evidence is given, else for runs. The
/// names of the parameters and of the list itself are those of the words that ask for it.
///
/// A list is 1 to 64 lines, each ended by a line feed. A line is names of files with one space
/// between them: TABLE STATEMENT for a chain, SOURCE INPUTS TABLE STATEMENT for runs. `Bad` names
/// the first line that is wrong, and the first of its causes; `Memory` says nothing of the bytes.
pub fn read_links<'a>(
    alloc: Global,
    bytes: &'a [u8],
    params: &'a str,
    list: &'a str,
    evidence: Option<&'a str>,
) -> Result<Links<'a>, LinkError>
    ensures { Gives (λ links. links) wrong_line result (links_of (given params.entry.now list.entry.now evidence.entry) bytes.entry.now) }
{
    if bytes.is_empty() {
        return Err(wrong(0, LinkCause::Count));
    }
    let roles = roles_for(evidence);
    let mut seen = names_of_words(alloc, params, list, evidence)?;
    let mut lines = Vec::new(alloc);
    let mut rest = bytes;
    while !rest.is_empty() {
        if lines.len() == MOST_LINKS {
            return Err(wrong(lines.len(), LinkCause::Count));
        }
        let Some((text, behind)) = next_line(rest) else {
            return Err(wrong(lines.len(), LinkCause::Line));
        };
        let Some(names) = names_in(alloc, roles.len(), text)? else {
            return Err(wrong(lines.len(), LinkCause::Line));
        };
        add_names(&mut seen, roles, names.as_slice())?;
        if has_clash(seen.as_slice()) {
            return Err(wrong(lines.len(), LinkCause::Output));
        }
        lines.push(names)?;
        rest = behind;
    }
    Ok(Links { lines })
}

// The names of a line, if it is so many with one space between them.
fn names_in(alloc: Global, count: usize, text: &[u8]) -> Result<Option<Vec<&str>>, AllocError>
    ensures { IfOk result (λ names. option_map (λ ns. map (λ n. n.now) ns.items) names ≡ names_of_line count (Ended text.entry.now)) }
{
    let mut names = Vec::new(alloc);
    for part in text.split(|byte| *byte == b' ') {
        let Some(name) = file_name(part) else {
            return Ok(None);
        };
        names.push(name)?;
    }
    if names.len() == count {
        Ok(Some(names))
    } else {
        Ok(None)
    }
}

// The line behind so many good ones is wrong.
fn wrong(good: usize, cause: LinkCause) -> LinkError
    requires { good < 2 ^ 32 - 1 }
    ensures { result ≡ LinkError.Bad (good + 1) cause }
{
    LinkError::Bad {
        line: good as u32 + 1,
        cause,
    }
}
