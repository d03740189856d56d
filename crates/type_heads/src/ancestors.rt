//! A table by which it is found in few steps whether a type inherits from another.
//!
//! It has for each type how many types there are from it on, each the base of the one before, and one of those
//! farther along. A walk takes at most three steps for each binary digit of the number of types.

ghost use Rattle.std.specs.Prelude.{◌≡◌, ◌<◌, ◌^◌, length, nat_eq, true, IfOk};
ghost use Rattle.std.specs.List.{list_all};
ghost use Rattle.type_heads.specs.Table.{all_types, base, bases};
ghost use Rattle.type_heads.specs.Members.{has};
ghost use Rattle.type_heads.specs.Ancestors.{AreAncestors, depth, depth_from as depth_after, entries_fit, entry as entry_in, entry_fits, is_depth as is_depth_of, is_jump as is_jump_of, jump, line_from};

use crate::{Head, TypeId};
use std::alloc::{AllocError, Global};

/// How many types there are from a type on, each the base of the one before, and one of those farther along.
#[derive(Clone, Copy)]
pub struct LineEntry {
    depth: u32,
    jump: TypeId,
}

/// An entry for each type.
#[derive(Drop)]
pub struct Ancestors {
    entries: Vec<LineEntry>,
}

/// The type that a type inherits from. A number that no type has inherits from none.
pub fn base_in(heads: &[Head], of: TypeId) -> Option<TypeId>
    ensures { result ≡ base heads.now of }
{
    let head = heads.get(of.0 as usize)?;
    head.base()
}

/// The entry of a type. A number that no type has stands for a type without a base.
fn entry(entries: &[LineEntry], of: TypeId) -> LineEntry
    ensures { result ≡ entry_in entries.now of }
{
    match entries.get(of.0 as usize) {
        Some(entry) => *entry,
        None => LineEntry { depth: 1, jump: of },
    }
}

/// How many types there are from a base on, if there is one.
fn depth_from(entries: &[LineEntry], base: Option<TypeId>) -> u32
    ensures { result ≡ depth_after entries.now base }
{
    match base {
        Some(base) => entry(entries, base).depth,
        None => 0,
    }
}

fn put(entries: &mut [LineEntry], of: TypeId, entry: LineEntry) {
    if let Some(place) = entries.get_mut(of.0 as usize) {
        *place = entry;
    }
}

/// Where a type with this base jumps: over the base's jump and the next one if both pass equally many types, else to
/// the base.
fn jump_over(entries: &[LineEntry], base: TypeId) -> TypeId {
    let near = entry(entries, base);
    let middle = entry(entries, near.jump);
    let far = entry(entries, middle.jump);
    let passed = near.depth.saturating_sub(middle.depth);
    if passed == middle.depth.saturating_sub(far.depth) {
        middle.jump
    } else {
        base
    }
}

/// Notes a type and those that it inherits from, up to the first one that was noted before.
fn open_line(
    heads: &[Head],
    entries: &mut [LineEntry],
    of: TypeId,
    open: &mut Vec<TypeId>,
) -> Result<(), AllocError> {
    let mut at = Some(of);
    for _head in 0..heads.len() {
        let Some(current) = at else {
            return Ok(());
        };
        if entry(entries, current).depth > 0 {
            return Ok(());
        }
        let first = LineEntry {
            depth: 1,
            jump: current,
        };
        put(entries, current, first);
        open.push(current)?;
        at = base_in(heads, current);
    }
    Ok(())
}

/// Works out the entry of a type from those of the types farther along.
fn settle(heads: &[Head], entries: &mut [LineEntry], of: TypeId) {
    if let Some(base) = base_in(heads, of) {
        let depth = entry(entries, base).depth.saturating_add(1);
        let jump = jump_over(entries, base);
        put(entries, of, LineEntry { depth, jump });
    }
}

/// Works out the entries of types that were noted, the last one first.
fn close_line(heads: &[Head], entries: &mut [LineEntry], open: &mut Vec<TypeId>) {
    for _open in 0..open.len() {
        let Some(of) = open.pop() else {
            return;
        };
        settle(heads, entries, of);
    }
}

/// An entry for each type, before any is worked out.
fn no_entries(alloc: Global, heads: &[Head]) -> Result<Vec<LineEntry>, AllocError> {
    let mut entries = Vec::new(alloc);
    for _head in 0..heads.len() {
        entries.push(LineEntry {
            depth: 0,
            jump: TypeId(0),
        })?;
    }
    Ok(entries)
}

/// The entries of all types, each worked out once. No contract says so: they are tested.
fn entries_of(alloc: Global, heads: &[Head]) -> Result<Vec<LineEntry>, AllocError>
    requires { length heads.now < 2 ^ 32 }
{
    let mut entries = no_entries(alloc, heads)?;
    let mut open = Vec::new(alloc);
    let count = heads.len() as u32;
    for number in 0..count {
        let of = TypeId(number);
        open_line(heads, entries.as_mut_slice(), of, &mut open)?;
        close_line(heads, entries.as_mut_slice(), &mut open);
    }
    Ok(entries)
}

/// Whether there is one type more from this one on than from its base on, and at most as many as there are types.
fn is_depth(heads: &[Head], entries: &[LineEntry], of: TypeId) -> bool
    ensures { result ≡ is_depth_of heads.now entries.now of }
{
    let depth = entry(entries, of).depth;
    let after = depth_from(entries, base_in(heads, of));
    u64::from(depth) == u64::from(after) + 1 && depth as usize <= heads.len()
}

/// Whether a type jumps to its base, or where the jump of its base's jump leads. Without a base it jumps to itself.
fn is_jump(entries: &[LineEntry], of: TypeId, base: Option<TypeId>) -> bool
    ensures { result ≡ is_jump_of (jump entries.now) of base }
{
    let jump = entry(entries, of).jump;
    match base {
        Some(base) => {
            let middle = entry(entries, base).jump;
            jump == base || jump == entry(entries, middle).jump
        }
        None => jump == of,
    }
}

fn fits(heads: &[Head], entries: &[LineEntry], of: TypeId) -> bool
    ensures { result ≡ entry_fits heads.now entries.now of }
{
    is_depth(heads, entries, of) && is_jump(entries, of, base_in(heads, of))
}

fn all_fit(heads: &[Head], entries: &[LineEntry]) -> bool
    requires { length heads.now < 2 ^ 32 }
    ensures { result ≡ list_all (entry_fits heads.now entries.now) (all_types heads.now) }
{
    let mut number: u32 = 0;
    for _head in heads {
        if !fits(heads, entries, TypeId(number)) {
            return false;
        }
        number += 1;
    }
    true
}

/// Whether each type has an entry, and all of them fit.
fn are_fit(heads: &[Head], entries: &[LineEntry]) -> bool
    requires { length heads.now < 2 ^ 32 }
    ensures { result ≡ entries_fit heads.now entries.now }
{
    entries.len() == heads.len() && all_fit(heads, entries)
}

impl Ancestors {
    /// The table of these types. There is none if a type inherits from itself.
    pub fn of(alloc: Global, heads: &[Head]) -> Result<Option<Ancestors>, AllocError>
        requires { length heads.now < 2 ^ 32 }
        ensures { IfOk result (AreAncestors heads.now) }
    {
        let entries = entries_of(alloc, heads)?;
        if are_fit(heads, entries.as_slice()) {
            Ok(Some(Ancestors { entries }))
        } else {
            Ok(None)
        }
    }

    fn depth(&self, of: TypeId) -> u32
        ensures { result ≡ depth self.now.entries.items of }
    {
        entry(self.entries.as_slice(), of).depth
    }

    fn jump(&self, of: TypeId) -> TypeId
        ensures { result ≡ jump self.now.entries.items of }
    {
        entry(self.entries.as_slice(), of).jump
    }

    /// A type farther along, and not past that base.
    fn farther(&self, heads: &[Head], base: TypeId, of: TypeId) -> TypeId
        requires fit { entries_fit heads.now self.now.entries.items ≡ true }
        requires deep { depth self.now.entries.items base < depth self.now.entries.items of }
        ensures nearer { depth self.now.entries.items result < depth self.now.entries.items of }
        ensures same { has base (line_from heads.now self.now.entries.items of) ≡ has base (line_from heads.now self.now.entries.items result) }
    {
        let far = self.jump(of);
        if self.depth(far) >= self.depth(base) {
            return far;
        }
        match base_in(heads, of) {
            Some(next) => next,
            None => of,
        }
    }

    /// The ancestor of `of` at the depth of `base`. It is `base` itself exactly if `base` is an ancestor of `of`.
    fn reached(&self, heads: &[Head], base: TypeId, of: TypeId) -> TypeId
        requires { entries_fit heads.now self.now.entries.items ≡ true }
        ensures { has base (line_from heads.now self.now.entries.items of) ≡ nat_eq base result }
    {
        let mut at = of;
        while self.depth(at) > self.depth(base) {
            at = self.farther(heads, base, at);
        }
        at
    }

    /// Whether a type inherits from `base`.
    pub fn has_base(&self, heads: &[Head], base: TypeId, of: TypeId) -> bool
        requires { entries_fit heads.now self.now.entries.items ≡ true }
        ensures { result ≡ has base (bases heads.now of) }
    {
        match base_in(heads, of) {
            Some(next) => base == self.reached(heads, base, next),
            None => false,
        }
    }
}
