//! The list of records (`plain_list`).
use plain_list::Items;
use std::alloc::Global;

fn push_all(list: &mut Items<u64>, items: &[u64]) -> Option<()> {
    for item in items {
        list.push(*item).ok()?;
    }
    Some(())
}

fn set_second(list: &mut Items<u64>, item: u64) {
    if list.len() >= 2 {
        *list.item_mut(1) = item;
    }
}

fn take_first(list: &mut Items<u64>) -> u64 {
    if list.is_empty() { 0 } else { list.remove(0) }
}

/// A list of two is copied as it is.
fn is_copied(list: &Items<u64>) -> Option<bool> {
    let copy = list.copied_by(|item| Ok(*item)).ok()?;
    let same = copy.as_slice() == [7, 9].as_slice();
    Some(same && Items::from_vec(copy.into_vec()).len() == 2)
}

fn shrinks(list: &mut Items<u64>) -> bool {
    list.retain(|item| *item != 9);
    let kept = list.as_slice() == [7, 8].as_slice();
    let first = take_first(list);
    list.truncate(1);
    kept && first == 7 && list.as_slice() == [8].as_slice()
}

fn grows(list: &mut Items<u64>) -> Option<bool> {
    let is_new = list.is_empty();
    push_all(list, &[7, 8])?;
    set_second(list, 9);
    let copied = is_copied(list)?;
    push_all(list, &[8])?;
    Some(is_new && copied && shrinks(list))
}

pub fn story(alloc: Global) -> Option<bool> {
    grows(&mut Items::new(alloc))
}
