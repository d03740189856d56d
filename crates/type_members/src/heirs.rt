//! Which type goes on with the row of another, and in which order rows are made.
//!
//! No contract says so. Whoever uses this tests it.

use crate::bodied::is_conditional;
use std::alloc::{AllocError, Global};
use type_heads::{Body, Heads, TypeId};

/// Which type goes on with the row of each, if one does, and with which types rows begin, in the order in which they are
/// made: each after that of its base.
#[derive(Drop)]
pub struct Heirs {
    pub heirs: Vec<Option<TypeId>>,
    pub order: Vec<TypeId>,
}

fn zeros(alloc: Global, count: u32) -> Result<Vec<u32>, AllocError> {
    let mut zeros = Vec::new(alloc);
    for _type in 0..count {
        zeros.push(0)?;
    }
    Ok(zeros)
}

fn number_of(numbers: &[u32], of: TypeId) -> u32 {
    match numbers.get(of.0 as usize) {
        Some(number) => *number,
        None => 0,
    }
}

fn put_number(numbers: &mut [u32], of: TypeId, number: u32) {
    if let Some(place) = numbers.get_mut(of.0 as usize) {
        *place = number;
    }
}

/// Works out how many types there are from a type on, each the base of the one before. 0 stands for what isn't known yet.
fn put_depth(
    depths: &mut [u32],
    way: &mut Vec<TypeId>,
    heads: &Heads,
    of: TypeId,
) -> Result<(), AllocError> {
    let mut depth: u32 = 0;
    let mut at = Some(of);
    for _step in 0..heads.count() {
        let Some(current) = at else {
            break;
        };
        depth = number_of(depths, current);
        if depth > 0 {
            break;
        }
        way.push(current)?;
        at = heads.base(current);
    }
    for _step in 0..way.len() {
        let Some(last) = way.pop() else {
            return Ok(());
        };
        depth = depth.saturating_add(1);
        put_number(depths, last, depth);
    }
    Ok(())
}

/// All types, none before its base.
fn by_depth(alloc: Global, heads: &Heads) -> Result<Vec<TypeId>, AllocError> {
    let mut depths = zeros(alloc, heads.count())?;
    let mut way = Vec::new(alloc);
    let mut keys = Vec::new(alloc);
    for number in 0..heads.count() {
        put_depth(depths.as_mut_slice(), &mut way, heads, TypeId(number))?;
        let depth = number_of(depths.as_slice(), TypeId(number));
        keys.push((depth, number))?;
    }
    keys.sort_unstable();
    let mut order = Vec::new(alloc);
    for (_depth, number) in keys {
        order.push(TypeId(number))?;
    }
    Ok(order)
}

/// How many types inherit from each, and itself.
fn sizes(alloc: Global, heads: &Heads, order: &[TypeId]) -> Result<Vec<u32>, AllocError> {
    let mut sizes = zeros(alloc, heads.count())?;
    for of in order.iter().rev() {
        let size = number_of(sizes.as_slice(), *of).saturating_add(1);
        put_number(sizes.as_mut_slice(), *of, size);
        if let Some(base) = heads.base(*of) {
            let all = number_of(sizes.as_slice(), base).saturating_add(size);
            put_number(sizes.as_mut_slice(), base, all);
        }
    }
    Ok(sizes)
}

/// Puts a type down as the heir of its base, if it inherits without a condition, and more types inherit from it than from
/// the one that was put down.
fn put_heir(
    heirs: &mut [Option<TypeId>],
    heads: &Heads,
    bodies: &[Body<'_>],
    sizes: &[u32],
    of: TypeId,
) {
    if is_conditional(bodies, of) {
        return;
    }
    let Some(base) = heads.base(of) else {
        return;
    };
    let Some(heir) = heirs.get_mut(base.0 as usize) else {
        return;
    };
    let most = match heir {
        Some(other) => number_of(sizes, *other),
        None => 0,
    };
    if number_of(sizes, of) > most {
        *heir = Some(of);
    }
}

/// Whether a type goes on with the row of its base.
fn goes_on(heirs: &[Option<TypeId>], heads: &Heads, of: TypeId) -> bool {
    let Some(base) = heads.base(of) else {
        return false;
    };
    match heirs.get(base.0 as usize) {
        Some(Some(heir)) => *heir == of,
        _ => false,
    }
}

impl Heirs {
    /// The heirs and the order of all types.
    pub fn of(alloc: Global, heads: &Heads, bodies: &[Body<'_>]) -> Result<Heirs, AllocError> {
        let all = by_depth(alloc, heads)?;
        let sizes = sizes(alloc, heads, all.as_slice())?;
        let mut heirs = Vec::new(alloc);
        for _type in 0..heads.count() {
            heirs.push(None)?;
        }
        for of in &all {
            put_heir(heirs.as_mut_slice(), heads, bodies, sizes.as_slice(), *of);
        }
        let mut order = Vec::new(alloc);
        for of in &all {
            if !goes_on(heirs.as_slice(), heads, *of) {
                order.push(*of)?;
            }
        }
        Ok(Heirs { heirs, order })
    }
}
