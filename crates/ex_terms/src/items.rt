//! Making, copying and reading the values of a tuple or a list.
ghost use Rattle.std.specs.Prelude.{◌≡◌, IfOk};
ghost use Rattle.ex_terms.specs.Seen.{terms_of, values_of};
ghost use Rattle.ex_terms.specs.Sizes.{sizes_of, capped};

use crate::values::{Items, Value};
use std::alloc::{AllocError, Global};
use std::sync::Arc;

impl Items {
    /// The items of some values. After want of memory they are dropped.
    pub fn of(alloc: Global, values: Vec<Value>) -> Result<Items, AllocError>
        ensures { IfOk result (λ items. items ≡ terms_of values.items) }
    {
        let size = size_together(values.as_slice());
        match Arc::new(alloc, values) {
            Ok(values) => Ok(Items { values, size }),
            Err(_) => Err(AllocError),
        }
    }

    /// The values in their order. Takes no memory.
    pub fn as_slice(&self) -> &[Value]
        ensures terms { terms_of result.now ≡ self.now }
        ensures values { result.now ≡ values_of self.now }
    {
        self.values.as_slice()
    }

    /// The same items, which share their values: it takes the same time for any number of them.
    pub fn copy(&self) -> Result<Items, AllocError>
        ensures { IfOk result (λ items. items ≡ self.now) }
    {
        Ok(Items {
            values: Arc::try_clone(&self.values)?,
            size: self.size,
        })
    }

    /// The sizes of the values together, or the largest number of 64 bits where that is greater.
    /// Takes no memory, and the same time for any number of values.
    pub(crate) fn size(&self) -> u64
        ensures { result ≡ capped (sizes_of self.now) }
    {
        self.size
    }
}

/// The sizes of some values together, or the largest number of 64 bits where that is greater. Takes no
/// memory, and the same time for each value.
pub fn size_together(values: &[Value]) -> u64
    ensures { result ≡ capped (sizes_of (terms_of values.now)) }
{
    let mut size: u64 = 0;
    for value in values {
        size = size.saturating_add(value.size());
    }
    size
}
