//! The walks over an expression.

ghost use Rattle.expr_value.specs.Words.{IsReady, IsCounted, IsReadyRow, IsCountedRow, CanJoinParts, IsFound, AreReady, IsFoundAmong};

use crate::count::Count;
use crate::reading::Reading;
use expr_nodes::{Compare, Earlier, Join, Typed};

/// The value times the scale.
#[cycle(counts)]
pub(crate) fn count_of<R: Reading>(typed: &Typed, reading: &R) -> Count
    requires { IsReady (R.told reading.now) typed.now }
    ensures { IsCounted (R.told reading.now) typed.now result }
{
    match typed {
        Typed::Constant { info, number } => Count::of_number(number, info.size),
        Typed::Read { info, path, .. } => Count::of_held(reading.held(path), info.size),
        Typed::Whole { info, path: _ } => Count::zero(info.size),
        Typed::Listed {
            info,
            is_field: _,
            items: _,
        } => Count::zero(info.size),
        Typed::Span {
            info,
            low: _,
            high: _,
        } => Count::zero(info.size),
        Typed::Minus { part, .. } => count_of(part.get(), reading).opposite(),
        Typed::Not { part, .. } => count_of(part.get(), reading).negated(),
        Typed::Joined {
            info,
            join,
            first,
            earlier,
            last,
        } => {
            let left = count_of_row(first.get(), earlier.as_slice(), *join, reading);
            left.join(*join, &count_of(last.get(), reading), info.size)
        }
        Typed::Implies { left, right, .. } => {
            let left = count_of(left.get(), reading);
            let right = count_of(right.get(), reading);
            left.implies(&right)
        }
        Typed::Relation {
            sign,
            left,
            right,
            ..
        } => {
            let left = count_of(left.get(), reading);
            let right = count_of(right.get(), reading);
            Count::truth(left.compares(*sign, &right))
        }
        Typed::Within { left, right, .. } => {
            let left = count_of(left.get(), reading);
            Count::truth(is_in(&left, right.get(), reading))
        }
    }
}

/// The value of a row times its scale.
#[cycle(counts)]
fn count_of_row<R: Reading>(first: &Typed, earlier: &[Earlier], join: Join, reading: &R) -> Count
    requires { IsReadyRow (R.told reading.now) join first.now earlier.now }
    ensures { IsCountedRow (R.told reading.now) join first.now earlier.now result }
{
    let mut row = count_of(first, reading);
    'parts: for next in earlier {
        let part = count_of(&next.part, reading);
        row = row.join(join, &part, next.info.size);
    }
    row
}

/// The value is in a range or list.
#[cycle(counts)]
fn is_in<R: Reading>(value: &Count, right: &Typed, reading: &R) -> bool
    requires ready { IsReady (R.told reading.now) right.now }
    requires joins { CanJoinParts value.now right.now }
    ensures { IsFound (R.told reading.now) value.now right.now result }
{
    match right {
        Typed::Span { low, high, .. } => {
            let low = count_of(low.get(), reading);
            let high = count_of(high.get(), reading);
            value.is_between(&low, &high)
        }
        Typed::Listed { items, .. } => is_item(value, items.as_slice(), reading),
        Typed::Constant { .. }
        | Typed::Read { .. }
        | Typed::Whole { .. }
        | Typed::Minus { .. }
        | Typed::Not { .. }
        | Typed::Joined { .. }
        | Typed::Implies { .. }
        | Typed::Relation { .. }
        | Typed::Within { .. } => false,
    }
}

/// The value is that of an item.
#[cycle(counts)]
fn is_item<R: Reading>(value: &Count, items: &[Typed], reading: &R) -> bool
    requires { AreReady (R.told reading.now) value.now items.now }
    ensures { IsFoundAmong (R.told reading.now) value.now items.now result }
{
    'items: for item in items {
        if value.compares(Compare::Equal, &count_of(item, reading)) {
            return true;
        }
    }
    false
}
