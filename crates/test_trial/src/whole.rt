// A whole run: calls that were thrown on a plain store are made by `run`, on a new store over a keeper.
use crate::compare::compare_all;
use crate::dice::Dice;
use crate::plain::Plain;
use crate::run::{same, sizes_of};
use crate::shape::Shape;
use crate::stretch::Stretch;
use crate::tally::Tally;
use anyhow::Result;
use keepers::keeper::Keeper;
use std::alloc::{AllocError, Global};
use store::run::run;

// So many calls of the shape, thrown on the plain store.
fn thrown(
    alloc: Global,
    plain: &mut Plain,
    shape: &Shape,
    seed: u64,
    calls: u16,
) -> Result<Stretch, AllocError> {
    let mut dice = Dice::new(seed);
    Stretch::thrown(alloc, &mut dice, shape, plain, &mut Tally::NONE, calls)
}

// Makes so many calls by `run`.
pub fn try_run<K: Keeper + Drop>(
    alloc: Global,
    keeper: K,
    shape: &Shape,
    seed: u64,
    calls: u16,
) -> Result<()> {
    let mut plain = Plain::new(alloc, shape.sizes, shape.places)?;
    let mut stretch = thrown(alloc, &mut plain, shape, seed, calls)?;
    let sizes = sizes_of(shape.sizes);
    let (store, made) = run(keeper, sizes, &stretch.calls, &mut stretch.answers);
    stretch.compare(made)?;
    same(compare_all(&store, &plain), u64::from(calls))
}
