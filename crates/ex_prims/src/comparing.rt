//! What is asked of values, and their order.
//!
//! Values may share their parts, so one that takes little memory may take very long to compare. Where
//! values are compared, it is first seen that the sizes of the arguments, and the one unit that each
//! value has at least, can be paid: those sizes bound the time of a comparison.
ghost use Rattle.std.specs.Prelude.{◌≡◌, IfOk};
ghost use Rattle.ex_prims.specs.Bodies.{IsAnswer, IsWithin};
ghost use Rattle.ex_prims.specs.Lists.{greatest, has, least, sorted, unique};
ghost use Rattle.ex_prims.specs.Rows.{given_one, given_two};
ghost use Rattle.ex_prims.specs.declared.functions.Unary.TheVariants as U;
ghost use Rattle.ex_prims.specs.declared.functions.Binary.TheVariants as B;

use crate::arguments::{boolean, is_falsy, list, nil, truth};
use crate::limits::Limits;
use crate::refused::Refused;
use ex_faults::Fault;
use ex_terms::{Items, Value};
use std::alloc::{AllocError, Global};
use std::collections::BTreeSet;

/// `!v`: whether the value is `nil` or `false`.
pub(crate) fn not(alloc: Global, value: &Value) -> Result<Value, Refused>
    ensures { IsAnswer result (given_one U.Not value.now) }
{
    Ok(truth(alloc, is_falsy(value))?)
}

/// `not v`: a truth value turned round; any other value is [`Fault::NotABoolean`].
pub(crate) fn strict_not(alloc: Global, value: &Value) -> Result<Value, Refused>
    ensures { IsAnswer result (given_one U.StrictNot value.now) }
{
    match boolean(value) {
        Some(holds) => Ok(truth(alloc, !holds)?),
        None => Err(Refused::Faulted(Fault::NotABoolean(value.copy()?))),
    }
}

/// `is_integer(v)`.
pub(crate) fn is_integer(alloc: Global, value: &Value) -> Result<Value, Refused>
    ensures { IsAnswer result (given_one U.IsInteger value.now) }
{
    Ok(truth(alloc, matches!(value, Value::Int(_)))?)
}

/// `is_atom(v)`: truth values and `nil` are atoms.
pub(crate) fn is_atom(alloc: Global, value: &Value) -> Result<Value, Refused>
    ensures { IsAnswer result (given_one U.IsAtom value.now) }
{
    Ok(truth(alloc, matches!(value, Value::Atom(_)))?)
}

/// `is_binary(v)`: whether the value is a text.
pub(crate) fn is_binary(alloc: Global, value: &Value) -> Result<Value, Refused>
    ensures { IsAnswer result (given_one U.IsBinary value.now) }
{
    Ok(truth(alloc, matches!(value, Value::Str(_)))?)
}

/// `is_list(v)`.
pub(crate) fn is_list(alloc: Global, value: &Value) -> Result<Value, Refused>
    ensures { IsAnswer result (given_one U.IsList value.now) }
{
    Ok(truth(alloc, matches!(value, Value::List(_)))?)
}

/// `is_tuple(v)`.
pub(crate) fn is_tuple(alloc: Global, value: &Value) -> Result<Value, Refused>
    ensures { IsAnswer result (given_one U.IsTuple value.now) }
{
    Ok(truth(alloc, matches!(value, Value::Tuple(_)))?)
}

/// `is_boolean(v)`.
pub(crate) fn is_boolean(alloc: Global, value: &Value) -> Result<Value, Refused>
    ensures { IsAnswer result (given_one U.IsBoolean value.now) }
{
    Ok(truth(alloc, boolean(value).is_some())?)
}

/// `is_nil(v)`.
pub(crate) fn is_nil(alloc: Global, value: &Value) -> Result<Value, Refused>
    ensures { IsAnswer result (given_one U.IsNil value.now) }
{
    let nil = nil(alloc)?;
    Ok(truth(alloc, value == &nil)?)
}

/// `v == w`.
pub(crate) fn equal(
    alloc: Global,
    left: &Value,
    right: &Value,
    limits: &Limits,
) -> Result<Value, Refused>
    ensures { IsWithin limits.now result (given_two B.Equal left.now right.now) }
{
    limits.cover(1)?;
    Ok(truth(alloc, left == right)?)
}

/// `v != w`.
pub(crate) fn not_equal(
    alloc: Global,
    left: &Value,
    right: &Value,
    limits: &Limits,
) -> Result<Value, Refused>
    ensures { IsWithin limits.now result (given_two B.NotEqual left.now right.now) }
{
    limits.cover(1)?;
    Ok(truth(alloc, left != right)?)
}

/// `v < w`.
pub(crate) fn less(
    alloc: Global,
    left: &Value,
    right: &Value,
    limits: &Limits,
) -> Result<Value, Refused>
    ensures { IsWithin limits.now result (given_two B.Less left.now right.now) }
{
    limits.cover(1)?;
    Ok(truth(alloc, left < right)?)
}

/// `v > w`.
pub(crate) fn greater(
    alloc: Global,
    left: &Value,
    right: &Value,
    limits: &Limits,
) -> Result<Value, Refused>
    ensures { IsWithin limits.now result (given_two B.Greater left.now right.now) }
{
    limits.cover(1)?;
    Ok(truth(alloc, left > right)?)
}

/// `v <= w`.
pub(crate) fn less_or_equal(
    alloc: Global,
    left: &Value,
    right: &Value,
    limits: &Limits,
) -> Result<Value, Refused>
    ensures { IsWithin limits.now result (given_two B.LessOrEqual left.now right.now) }
{
    limits.cover(1)?;
    Ok(truth(alloc, left <= right)?)
}

/// `v >= w`.
pub(crate) fn greater_or_equal(
    alloc: Global,
    left: &Value,
    right: &Value,
    limits: &Limits,
) -> Result<Value, Refused>
    ensures { IsWithin limits.now result (given_two B.GreaterOrEqual left.now right.now) }
{
    limits.cover(1)?;
    Ok(truth(alloc, left >= right)?)
}

/// `max(v, w)` by the order of terms.
pub(crate) fn max(
    alloc: Global,
    left: &Value,
    right: &Value,
    limits: &Limits,
) -> Result<Value, Refused>
    ensures { IsWithin limits.now result (given_two B.Max left.now right.now) }
{
    limits.cover(1)?;
    if left < right {
        Ok(right.copy()?)
    } else {
        Ok(left.copy()?)
    }
}

/// `min(v, w)` by the order of terms.
pub(crate) fn min(
    alloc: Global,
    left: &Value,
    right: &Value,
    limits: &Limits,
) -> Result<Value, Refused>
    ensures { IsWithin limits.now result (given_two B.Min left.now right.now) }
{
    limits.cover(1)?;
    if left > right {
        Ok(right.copy()?)
    } else {
        Ok(left.copy()?)
    }
}

/// Whether a value is among some items. Takes no memory.
fn has(items: &[Value], value: &Value) -> bool
    ensures { result ≡ has items.now value.now }
{
    items.contains(value)
}

/// `v in l`: whether an equal item is there.
pub(crate) fn is_in(
    alloc: Global,
    left: &Value,
    right: &Value,
    limits: &Limits,
) -> Result<Value, Refused>
    ensures { IsWithin limits.now result (given_two B.In left.now right.now) }
{
    let items = list(right)?;
    limits.cover(1)?;
    Ok(truth(alloc, has(items, left))?)
}

/// `Enum.member?(l, v)`.
pub(crate) fn has_member(
    alloc: Global,
    left: &Value,
    right: &Value,
    limits: &Limits,
) -> Result<Value, Refused>
    ensures { IsWithin limits.now result (given_two B.HasMember left.now right.now) }
{
    is_in(alloc, right, left, limits)
}

/// The greatest of values, of which there is at least one.
fn greatest_of(first: &Value, rest: &[Value]) -> Result<Value, AllocError>
    ensures { IfOk result (λ v. v ≡ greatest first.now rest.now) }
{
    let mut best = first;
    for item in rest {
        if best < item {
            best = item;
        }
    }
    best.copy()
}

/// The least of values, of which there is at least one.
fn least_of(first: &Value, rest: &[Value]) -> Result<Value, AllocError>
    ensures { IfOk result (λ v. v ≡ least first.now rest.now) }
{
    let mut best = first;
    for item in rest {
        if best > item {
            best = item;
        }
    }
    best.copy()
}

/// `Enum.max(l)` by the order of terms; an empty list is [`Refused::Wrong`].
pub(crate) fn greatest(alloc: Global, value: &Value, limits: &Limits) -> Result<Value, Refused>
    ensures { IsWithin limits.now result (given_one U.Greatest value.now) }
{
    let items = list(value)?;
    let Some((first, rest)) = items.split_first() else {
        return Err(Refused::Wrong);
    };
    limits.cover(1)?;
    Ok(greatest_of(first, rest)?)
}

/// `Enum.min(l)`.
pub(crate) fn least(alloc: Global, value: &Value, limits: &Limits) -> Result<Value, Refused>
    ensures { IsWithin limits.now result (given_one U.Least value.now) }
{
    let items = list(value)?;
    let Some((first, rest)) = items.split_first() else {
        return Err(Refused::Wrong);
    };
    limits.cover(1)?;
    Ok(least_of(first, rest)?)
}

/// Copies of values.
fn copies(alloc: Global, items: &[Value]) -> Result<Vec<Value>, AllocError>
    ensures { IfOk result (λ v. v.items ≡ items.now) }
{
    let mut values = Vec::new(alloc);
    for item in items {
        values.push(item.copy()?)?;
    }
    Ok(values)
}

/// Values in ascending order.
fn ascending(alloc: Global, items: &[Value]) -> Result<Vec<Value>, AllocError>
    ensures { IfOk result (λ v. v.items ≡ sorted items.now) }
{
    let mut values = copies(alloc, items)?;
    values.sort()?;
    Ok(values)
}

/// `Enum.sort(l)`: ascending.
pub(crate) fn sort(alloc: Global, value: &Value, limits: &Limits) -> Result<Value, Refused>
    ensures { IsWithin limits.now result (given_one U.Sort value.now) }
{
    let items = list(value)?;
    limits.cover(1)?;
    let values = ascending(alloc, items)?;
    Ok(Value::List(Items::of(alloc, values)?))
}

/// The first of equal values alone.
fn without_repeats(alloc: Global, items: &[Value]) -> Result<Vec<Value>, AllocError>
    ensures { IfOk result (λ v. v.items ≡ unique items.now) }
{
    let mut seen = BTreeSet::new(alloc);
    let mut firsts = Vec::new(alloc);
    for item in items {
        if seen.insert(item.copy()?)? {
            firsts.push(item.copy()?)?;
        }
    }
    Ok(firsts)
}

/// `Enum.uniq(l)`: the first of equal items alone.
pub(crate) fn unique(alloc: Global, value: &Value, limits: &Limits) -> Result<Value, Refused>
    ensures { IsWithin limits.now result (given_one U.Unique value.now) }
{
    let items = list(value)?;
    limits.cover(1)?;
    let values = without_repeats(alloc, items)?;
    Ok(Value::List(Items::of(alloc, values)?))
}
