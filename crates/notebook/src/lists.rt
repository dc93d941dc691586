//! Moves of items within and between lists.
ghost use Rattle.std.specs.Prelude.{◌≡◌, ◌++◌, [], ◌<◌, ◌≤◌, OnOk, OnErr, length, slice_get, insert, remove};
ghost use Rattle.notebook.specs.Lists.{IsShifted, IsTransferred};

use plain_list::Items;
use std::alloc::{AllocError, Global};
use std::mem;

/// Puts an item at the index. After want of memory the list is as it was, and the item is dropped.
pub fn insert<T: Drop>(
    items: &mut Items<T>,
    alloc: Global,
    index: usize,
    item: T,
) -> Result<(), AllocError>
    requires { index ≤ length items.old }
    ensures ok { OnOk result (items.new ≡ insert items.old index item) }
    ensures err { OnErr result (items.new ≡ items.old) }
{
    let mut list = mem::replace(items, Items::new(alloc)).into_vec();
    let done = list.insert(index, item);
    *items = Items::from_vec(list);
    done?;
    Ok(())
}

/// Takes out the item at the place. It takes no memory.
pub fn remove<T: Drop>(items: &mut Items<T>, alloc: Global, at: usize) -> T
    requires { at < length items.old }
    ensures value { slice_get items.old at ≡ Some result }
    ensures rest { items.new ≡ remove items.old at }
{
    let mut list = mem::replace(items, Items::new(alloc)).into_vec();
    let item = list.remove(at);
    *items = Items::from_vec(list);
    item
}

/// Takes out the item at the place and puts it at the index among the others. It takes no memory.
pub fn shift<T: Drop>(items: &mut Items<T>, alloc: Global, at: usize, index: usize)
    requires place { at < length items.old }
    requires index { index < length items.old }
    ensures { IsShifted items.old at index items.new }
{
    let mut list = mem::replace(items, Items::new(alloc)).into_vec();
    let item = list.remove(at);
    let Ok(()) = list.insert(index, item) else {
        unreachable!()
    };
    *items = Items::from_vec(list);
}

/// Takes the item at the place out of one list and puts it at the index of the other. After want of
/// memory both are as they were.
pub fn transfer<T: Drop>(
    alloc: Global,
    from: &mut Items<T>,
    at: usize,
    to: &mut Items<T>,
    index: usize,
) -> Result<(), AllocError>
    requires place { at < length from.old }
    requires index { index ≤ length to.old }
    ensures ok { OnOk result (IsTransferred from.old at from.new to.old index to.new) }
    ensures from { OnErr result (from.new ≡ from.old) }
    ensures to { OnErr result (to.new ≡ to.old) }
{
    let mut list = mem::replace(to, Items::new(alloc)).into_vec();
    let room = list.reserve(1);
    if room.is_err() {
        *to = Items::from_vec(list);
        return room;
    }
    let item = remove(from, alloc, at);
    let Ok(()) = list.insert(index, item) else {
        unreachable!()
    };
    *to = Items::from_vec(list);
    Ok(())
}

/// Puts all items of one list at the end of the other, in order. After want of memory both are as
/// they were.
pub fn pour<T: Drop>(
    alloc: Global,
    from: &mut Items<T>,
    into: &mut Items<T>,
) -> Result<(), AllocError>
    ensures taken { OnOk result (from.new ≡ []) }
    ensures put { OnOk result (into.new ≡ into.old ++ from.old) }
    ensures from { OnErr result (from.new ≡ from.old) }
    ensures into { OnErr result (into.new ≡ into.old) }
{
    let mut items = mem::replace(from, Items::new(alloc)).into_vec();
    let mut list = mem::replace(into, Items::new(alloc)).into_vec();
    let done = list.append(&mut items);
    *from = Items::from_vec(items);
    *into = Items::from_vec(list);
    done?;
    Ok(())
}
