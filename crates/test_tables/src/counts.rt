ghost use Rattle.std.specs.Prelude.{ℕ, ◌^◌, ◌<◌, List, IfOk};
ghost use Rattle.bus_kit.specs.Widths.{tallied};

use bus_kit::{Count, Seed, Side, StepTally, Tally, Tuple, Unequal, ValueTally};
use std::alloc::Global;
use std::test::Fail;
use vm_field::{Felt, Memory};

fn told(found: Option<Unequal>) -> Option<(Tuple, u128, u128)> {
    found.map(|x| (x.tuple, x.asked, x.given))
}

fn one(number: u32) -> [Felt; 1] {
    [Felt::from_u32(number)]
}

// 7 is asked and given, 70000 asked alone.
fn values(alloc: Global) -> Result<Option<(Tuple, u128, u128)>, Memory> {
    let mut tally = ValueTally::new(alloc, Seed::new(0));
    tally.add(Side::Asked, &one(7), 3)?;
    tally.add(Side::Given, &one(7), 3)?;
    tally.add(Side::Asked, &one(70000), 5)?;
    Ok(told(tally.unequal()))
}

// The greater of two tuples is asked, and the lesser one given.
fn tuples(alloc: Global) -> Result<Option<(Tuple, u128, u128)>, Memory> {
    let mut tally = Tally::<3>::new(alloc, Seed::new(0));
    tally.add(Side::Asked, &[Felt::ONE, Felt::ONE, Felt::ZERO], 4)?;
    tally.add(Side::Given, &[Felt::ONE, Felt::ZERO, Felt::ONE], 2)?;
    Ok(told(tally.unequal()))
}

// A step of six elements is asked, and a lesser one of ten given.
fn steps(alloc: Global) -> Result<Option<(Tuple, u128, u128)>, Memory> {
    let mut tally = StepTally::new(alloc, Seed::new(0));
    tally.add(Side::Asked, &[Felt::from_u32(3); 6], 1)?;
    tally.add(Side::Given, &[Felt::from_u32(2); 10], 1)?;
    Ok(told(tally.unequal()))
}

#[test]
fn finds_the_least_value(rt: HostRuntime) -> Result<(), Fail> {
    assert_eq!(rt; values(rt.alloc())?, Some((Tuple::of(&one(70000)), 5, 0)));
    Ok(())
}

#[test]
fn finds_the_least_tuple(rt: HostRuntime) -> Result<(), Fail> {
    let least = Tuple::of(&[Felt::ONE, Felt::ZERO, Felt::ONE]);
    assert_eq!(rt; tuples(rt.alloc())?, Some((least, 0, 2)));
    Ok(())
}

#[test]
fn finds_the_least_step(rt: HostRuntime) -> Result<(), Fail> {
    let least = Tuple::of(&[Felt::from_u32(2); 10]);
    assert_eq!(rt; steps(rt.alloc())?, Some((least, 0, 1)));
    Ok(())
}

// A tally of one tuple, counted so often.
fn once(alloc: Global, side: Side, first: u32, count: u64) -> Result<Tally<3>, Memory>
    ensures { IfOk result (λ t. (u : List ℕ) → ((tallied t u).0 < 2 ^ 64) × ((tallied t u).1 < 2 ^ 64)) }
{
    let mut tally = Tally::new(alloc, Seed::new(0));
    tally.add(side, &[Felt::from_u32(first), Felt::ONE, Felt::ZERO], count)?;
    Ok(tally)
}

// What is apart where the other tally's counts were added.
fn absorbed(alloc: Global, side: Side, first: u32) -> Result<Option<(Tuple, u128, u128)>, Memory> {
    let mut tally = once(alloc, Side::Asked, 5, 2)?;
    tally.absorb(&once(alloc, side, first, 2)?)?;
    Ok(told(tally.unequal()))
}

#[test]
fn adds_other_counts(rt: HostRuntime) -> Result<(), Fail> {
    let five = Tuple::of(&[Felt::from_u32(5), Felt::ONE, Felt::ZERO]);
    assert_eq!(rt; absorbed(rt.alloc(), Side::Given, 5)?, None);
    assert_eq!(rt; absorbed(rt.alloc(), Side::Asked, 5)?, Some((five, 4, 0)));
    Ok(())
}
