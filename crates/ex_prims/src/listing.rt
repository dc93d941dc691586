//! Lists and tuples: their items, and what is made of them.
ghost use Rattle.std.specs.Prelude.{◌≡◌, ◌≤◌, ◌++◌, length, take, drop, IfOk, MatchOption};
ghost use Rattle.std.specs.Option.{IfSome, option_copied};
ghost use Rattle.std.specs.Result.{OnOk};
ghost use Rattle.ex_prims.specs.Answers.{Gives, Wrong, list, or_nil, or_wrong};
ghost use Rattle.ex_prims.specs.Bodies.{IsAnswer};
ghost use Rattle.ex_prims.specs.Lists.{at_place, dropped, from_either_end, pair, pairs, taken, with_places};
ghost use Rattle.ex_prims.specs.Rows.{given_one, given_two};
ghost use Rattle.ex_prims.specs.declared.functions.Unary.TheVariants as U;
ghost use Rattle.ex_prims.specs.declared.functions.Binary.TheVariants as B;

use crate::arguments::{integer, list, nil, tuple};
use crate::refused::Refused;
use ex_terms::{Items, Value};
use std::alloc::{AllocError, Global};

/// `length(l)`.
pub(crate) fn length(value: &Value) -> Result<Value, Refused>
    ensures { IsAnswer result (given_one U.Length value.now) }
{
    let items = list(value)?;
    Ok(Value::Int(items.len() as i128))
}

/// `tuple_size(u)`.
pub(crate) fn tuple_size(value: &Value) -> Result<Value, Refused>
    ensures { IsAnswer result (given_one U.TupleSize value.now) }
{
    let items = tuple(value)?;
    Ok(Value::Int(items.len() as i128))
}

/// `hd(l)`; an empty list is [`Refused::Wrong`].
pub(crate) fn head(value: &Value) -> Result<Value, Refused>
    ensures { IsAnswer result (given_one U.Head value.now) }
{
    let items = list(value)?;
    or_wrong(items.first())
}

/// `tl(l)`; an empty list is [`Refused::Wrong`].
pub(crate) fn tail(alloc: Global, value: &Value) -> Result<Value, Refused>
    ensures { IsAnswer result (given_one U.Tail value.now) }
{
    let items = list(value)?;
    if items.is_empty() {
        return Err(Refused::Wrong);
    }
    Ok(list_of(alloc, copied(alloc, &items[1..])?)?)
}

/// `Enum.reverse(l)`.
pub(crate) fn reverse(alloc: Global, value: &Value) -> Result<Value, Refused>
    ensures { IsAnswer result (given_one U.Reverse value.now) }
{
    let items = list(value)?;
    let mut items = copied(alloc, items)?;
    items.reverse();
    Ok(list_of(alloc, items)?)
}

/// `Enum.with_index(l)`: pairs of an item and its place from 0.
pub(crate) fn with_index(alloc: Global, value: &Value) -> Result<Value, Refused>
    ensures { IsAnswer result (given_one U.WithIndex value.now) }
{
    let items = list(value)?;
    Ok(list_of(alloc, with_places(alloc, items)?)?)
}

/// `List.first(l)`; `nil` where the list is empty.
pub(crate) fn first(alloc: Global, value: &Value) -> Result<Value, Refused>
    ensures { IsAnswer result (given_one U.First value.now) }
{
    let items = list(value)?;
    or_nil(alloc, items.first())
}

/// `List.last(l)`; `nil` where the list is empty.
pub(crate) fn last(alloc: Global, value: &Value) -> Result<Value, Refused>
    ensures { IsAnswer result (given_one U.Last value.now) }
{
    let items = list(value)?;
    or_nil(alloc, items.last())
}

/// `List.to_tuple(l)`.
pub(crate) fn list_to_tuple(value: &Value) -> Result<Value, Refused>
    ensures { IsAnswer result (given_one U.ListToTuple value.now) }
{
    match value {
        Value::List(items) => Ok(Value::Tuple(items.copy()?)),
        Value::Int(_) | Value::Atom(_) | Value::Str(_) | Value::Tuple(_) => Err(Refused::Wrong),
    }
}

/// `Tuple.to_list(u)`.
pub(crate) fn tuple_to_list(value: &Value) -> Result<Value, Refused>
    ensures { IsAnswer result (given_one U.TupleToList value.now) }
{
    match value {
        Value::Tuple(items) => Ok(Value::List(items.copy()?)),
        Value::Int(_) | Value::Atom(_) | Value::Str(_) | Value::List(_) => Err(Refused::Wrong),
    }
}

/// `l ++ m`.
pub(crate) fn append(alloc: Global, left: &Value, right: &Value) -> Result<Value, Refused>
    ensures { IsAnswer result (given_two B.Append left.now right.now) }
{
    let left = list(left)?;
    let right = list(right)?;
    let mut items = copied(alloc, left)?;
    add_copies(&mut items, right)?;
    Ok(list_of(alloc, items)?)
}

/// `elem(u, i)`, from 0; outside is [`Refused::Wrong`].
pub(crate) fn element(left: &Value, right: &Value) -> Result<Value, Refused>
    ensures { IsAnswer result (given_two B.Element left.now right.now) }
{
    let items = tuple(left)?;
    let place = integer(right)?;
    or_wrong(item_at(items, place))
}

/// `Enum.at(l, i)`, from 0, or from the end where `i` is below 0; `nil` outside.
pub(crate) fn at(alloc: Global, left: &Value, right: &Value) -> Result<Value, Refused>
    ensures { IsAnswer result (given_two B.At left.now right.now) }
{
    let items = list(left)?;
    let place = integer(right)?;
    or_nil(alloc, item_from_either_end(items, place))
}

/// `Enum.take(l, i)`; `i` isn't below 0.
pub(crate) fn take(alloc: Global, left: &Value, right: &Value) -> Result<Value, Refused>
    ensures { IsAnswer result (given_two B.Take left.now right.now) }
{
    let items = list(left)?;
    let number = integer(right)?;
    match number_within(items, number) {
        Some(number) => Ok(list_of(alloc, copied(alloc, &items[..number])?)?),
        None => Err(Refused::Wrong),
    }
}

/// `Enum.drop(l, i)`; `i` isn't below 0.
pub(crate) fn drop_first(alloc: Global, left: &Value, right: &Value) -> Result<Value, Refused>
    ensures { IsAnswer result (given_two B.Drop left.now right.now) }
{
    let items = list(left)?;
    let number = integer(right)?;
    match number_within(items, number) {
        Some(number) => Ok(list_of(alloc, copied(alloc, &items[number..])?)?),
        None => Err(Refused::Wrong),
    }
}

/// `Enum.zip(l, m)`: pairs up to the shorter.
pub(crate) fn zip(alloc: Global, left: &Value, right: &Value) -> Result<Value, Refused>
    ensures { IsAnswer result (given_two B.Zip left.now right.now) }
{
    let left = list(left)?;
    let right = list(right)?;
    Ok(list_of(alloc, pairs(alloc, left, right)?)?)
}

/// A copy of an item that is there; [`Refused::Wrong`] where there is none.
fn or_wrong(item: Option<&Value>) -> Result<Value, Refused>
    ensures { IsAnswer result (or_wrong (option_copied item.entry)) }
{
    match item {
        Some(item) => Ok(item.copy()?),
        None => Err(Refused::Wrong),
    }
}

/// A copy of an item that is there; `nil` where there is none.
fn or_nil(alloc: Global, item: Option<&Value>) -> Result<Value, Refused>
    ensures { IsAnswer result (or_nil (option_copied item.entry)) }
{
    match item {
        Some(item) => Ok(item.copy()?),
        None => Ok(nil(alloc)?),
    }
}

/// The item at a place from 0, if there is one.
fn item_at(items: &[Value], place: i128) -> Option<&Value>
    ensures { option_copied result ≡ at_place items.now place }
{
    if 0 <= place && place < items.len() as i128 {
        Some(&items[place as usize])
    } else {
        None
    }
}

/// The item at a place from 0, or from the end where the place is below 0, if there is one.
fn item_from_either_end(items: &[Value], place: i128) -> Option<&Value>
    ensures { option_copied result ≡ from_either_end items.now place }
{
    if place < 0 {
        item_at(items, items.len() as i128 + place)
    } else {
        item_at(items, place)
    }
}

/// How many of the items so many are: all where there are fewer. No number is below 0.
fn number_within(items: &[Value], number: i128) -> Option<usize>
    ensures within { IfSome result (λ n. n ≤ length items.now) }
    ensures taken { MatchOption result (taken items.now number ≡ Wrong) (λ n. taken items.now number ≡ Gives (list (take n items.now))) }
    ensures dropped { MatchOption result (dropped items.now number ≡ Wrong) (λ n. dropped items.now number ≡ Gives (list (drop n items.now))) }
{
    if number < 0 {
        None
    } else {
        Some(number.min(items.len() as i128) as usize)
    }
}

/// Copies of values, behind what is already there.
fn add_copies(copies: &mut Vec<Value>, values: &[Value]) -> Result<(), AllocError>
    ensures { OnOk result (copies.new.items ≡ copies.old.items ++ values.now) }
{
    for value in values {
        copies.push(value.copy()?)?;
    }
    Ok(())
}

/// Copies of values.
fn copied(alloc: Global, values: &[Value]) -> Result<Vec<Value>, AllocError>
    ensures { IfOk result (λ copies. copies.items ≡ values.now) }
{
    let mut copies = Vec::new(alloc);
    add_copies(&mut copies, values)?;
    Ok(copies)
}

/// A list of values.
fn list_of(alloc: Global, values: Vec<Value>) -> Result<Value, AllocError>
    ensures { IfOk result (λ v. v ≡ list values.items) }
{
    Ok(Value::List(Items::of(alloc, values)?))
}

/// Two values as a tuple.
fn pair(alloc: Global, left: Value, right: Value) -> Result<Value, AllocError>
    ensures { IfOk result (λ v. v ≡ pair left right) }
{
    let parts = Vec::from_array(alloc, [left, right])?;
    Ok(Value::Tuple(Items::of(alloc, parts)?))
}

/// Each item in a pair with its place from 0.
fn with_places(alloc: Global, items: &[Value]) -> Result<Vec<Value>, AllocError>
    ensures { IfOk result (λ pairs. pairs.items ≡ with_places items.now) }
{
    let mut pairs = Vec::new(alloc);
    for (place, item) in items.iter().enumerate() {
        pairs.push(pair(alloc, item.copy()?, Value::Int(place as i128))?)?;
    }
    Ok(pairs)
}

/// The items of two lists in pairs, up to the end of the shorter.
fn pairs(alloc: Global, left: &[Value], right: &[Value]) -> Result<Vec<Value>, AllocError>
    ensures { IfOk result (λ together. together.items ≡ pairs left.now right.now) }
{
    let mut together = Vec::new(alloc);
    for place in 0..left.len().min(right.len()) {
        together.push(pair(alloc, left[place].copy()?, right[place].copy()?)?)?;
    }
    Ok(together)
}
