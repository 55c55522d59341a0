ghost use Rattle.std.specs.Prelude.{◌≡◌, ◌++◌, map, option_map, IfOk, OnOk, Option};
ghost use Rattle.std.specs.List.{list_any};
ghost use Rattle.run_chain.specs.Names.{has_clash as any_clash, is_clash as clash, names_of_words as names_given, roles_for as roles, with_roles};
ghost use Rattle.run_chain.specs.Reads.{given, named_as};

use std::alloc::{AllocError, Global};

/// What becomes of the file of a name.
#[derive(Clone, Copy, Debug, PartialEq, Eq)]
pub enum Role {
    /// It is read.
    Input,
    /// It is written.
    Output,
}

// A name, and what becomes of its file.
#[derive(Clone, Copy)]
pub(crate) struct Named<'a> {
    pub role: Role,
    pub name: &'a str,
}

static ROLES_OF_CHAINS: [Role; 2] = [Role::Input, Role::Input];

static ROLES_OF_RUNS: [Role; 4] = [Role::Input, Role::Input, Role::Output, Role::Output];

// The roles of the names of a line: of a chain where there is evidence, else of runs.
pub(crate) fn roles_for(evidence: Option<&str>) -> &'static [Role]
    ensures { result.now ≡ roles (option_map (λ e. e.now) evidence.entry) }
{
    match evidence {
        Some(_) => &ROLES_OF_CHAINS,
        None => &ROLES_OF_RUNS,
    }
}

// The names of the words.
pub(crate) fn names_of_words<'a>(
    alloc: Global,
    params: &'a str,
    list: &'a str,
    evidence: Option<&'a str>,
) -> Result<Vec<Named<'a>>, AllocError>
    ensures { IfOk result (λ names. map named_as names.items ≡ names_given (given params.entry.now list.entry.now evidence.entry)) }
{
    let mut names = Vec::new(alloc);
    names.push(Named {
        role: Role::Input,
        name: params,
    })?;
    names.push(Named {
        role: Role::Input,
        name: list,
    })?;
    if let Some(evidence) = evidence {
        names.push(Named {
            role: Role::Output,
            name: evidence,
        })?;
    }
    Ok(names)
}

// Adds the names of a line.
pub(crate) fn add_names<'a>(
    seen: &mut Vec<Named<'a>>,
    roles: &[Role],
    names: &[&'a str],
) -> Result<(), AllocError>
    ensures { OnOk result (map named_as seen.new.items ≡ map named_as seen.old.items ++ with_roles roles.now (map (λ n. n.now) names.now)) }
{
    for (role, name) in roles.iter().zip(names.iter()) {
        seen.push(Named {
            role: *role,
            name: *name,
        })?;
    }
    Ok(())
}

// Whether two of the names clash.
pub(crate) fn has_clash(names: &[Named<'_>]) -> bool
    ensures { result ≡ any_clash (map named_as names.now) }
{
    match names.split_first() {
        None => false,
        Some((first, others)) => clashes_with(first, others) || has_clash(others),
    }
}

fn clashes_with(name: &Named<'_>, others: &[Named<'_>]) -> bool
    ensures { result ≡ list_any (λ other. clash (named_as name.now) (named_as other)) others.now }
{
    others.iter().any(|other| is_clash(name, other))
}

// Whether one file, which is written, has both names.
fn is_clash(a: &Named<'_>, b: &Named<'_>) -> bool
    ensures { result ≡ clash (named_as a.now) (named_as b.now) }
{
    (a.role == Role::Output || b.role == Role::Output) && a.name == b.name
}
