ghost use Rattle.std.specs.Prelude.{◌≡◌, ℕ, ◌<◌, [], length, replicate, ◌⊎◌, ◌↔◌, IfOk, OnOk};
ghost use Rattle.graphs.specs.Graph.{rows_of, Edge};
ghost use Rattle.masm_graph.specs.Users.{HasOwn, UsesProcedure, AreUsers};

use crate::links::{Link, Target};
use std::alloc::{AllocError, Global};

// So many empty rows.
fn empty_rows(alloc: Global, count: usize) -> Result<Vec<Vec<usize>>, AllocError>
    ensures { IfOk result (λ rows. rows_of rows.items ≡ replicate count []) }
{
    let mut rows = Vec::new(alloc);
    for _ in 0..count {
        rows.push(Vec::new(alloc))?;
    }
    Ok(rows)
}

// Adds a user to those of the procedure to which a use leads.
fn add_user(users: &mut Vec<Vec<usize>>, user: usize, link: Link) -> Result<(), AllocError>
    requires within { (place : ℕ) → link.target ≡ Target.Own place → place < length users.old.items }
    ensures edges { OnOk result ((place other : ℕ) → Edge (rows_of users.new.items) place other
        ↔ (Edge (rows_of users.old.items) place other ⊎ ((other ≡ user) × (link.target ≡ Target.Own place)))) }
    ensures count { length users.new.items ≡ length users.old.items }
{
    if let Target::Own(place) = link.target {
        users[place].push(user)?;
    }
    Ok(())
}

// Adds a user to those of the procedures to which its uses lead.
fn add_uses(users: &mut Vec<Vec<usize>>, user: usize, row: &[Link]) -> Result<(), AllocError>
    requires within { (place : ℕ) → HasOwn row.now place → place < length users.old.items }
    ensures edges { OnOk result ((place other : ℕ) → Edge (rows_of users.new.items) place other
        ↔ (Edge (rows_of users.old.items) place other ⊎ ((other ≡ user) × HasOwn row.now place))) }
    ensures count { length users.new.items ≡ length users.old.items }
{
    for link in row {
        add_user(users, user, *link)?;
    }
    Ok(())
}

/// For each procedure those that use it.
pub fn users_of(alloc: Global, rows: &[Vec<Link>]) -> Result<Vec<Vec<usize>>, AllocError>
    requires within { (user place : ℕ) → UsesProcedure (rows_of rows.now) user place → place < length rows.now }
    ensures { IfOk result (λ users. AreUsers (rows_of rows.now) (rows_of users.items)) }
{
    let mut users = empty_rows(alloc, rows.len())?;
    for (user, row) in rows.iter().enumerate() {
        add_uses(&mut users, user, row)?;
    }
    Ok(users)
}
