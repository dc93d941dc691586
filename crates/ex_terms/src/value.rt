//! What is asked of a value: copies, sizes, order.
ghost use Rattle.std.specs.Prelude.{◌≡◌, ◌↔◌, IsTrue, IfOk};
ghost use Rattle.ex_terms.specs.Seen.{term_of, terms_of};
ghost use Rattle.ex_terms.specs.Order.{order_of, order_all, order_tuples};
ghost use Rattle.ex_terms.specs.Sizes.{size_of, capped};
ghost use Rattle.ex_terms.specs.Keys.{value_cmp, value_total};
ghost use Rattle.std.specs.Prelude.{refl};
ghost use Rattle.std.specs.Ordering.{as_partial_cmp, eq_by_cmp};
ghost use Rattle.std.specs.Cmp.{eq_by_cmp_equiv, partial_equiv_from_equiv, po};

use crate::values::Value;
use std::alloc::AllocError;
use std::cmp::Ordering;

impl Value {
    /// An equal value, which shares the items of a tuple or a list.
    pub fn copy(&self) -> Result<Value, AllocError>
        ensures { IfOk result (λ v. v ≡ self.now) }
    {
        match self {
            Value::Int(number) => Ok(Value::Int(*number)),
            Value::Atom(text) => Ok(Value::Atom(text.copy()?)),
            Value::Str(text) => Ok(Value::Str(text.copy()?)),
            Value::Tuple(items) => Ok(Value::Tuple(items.copy()?)),
            Value::List(items) => Ok(Value::List(items.copy()?)),
        }
    }

    /// The size in units, by which evaluations are charged and limited: 1 for an integer, 1 and one for
    /// each 16 bytes for an atom or a text, 1 and the sizes of its items for a tuple or a list; the
    /// largest number of 64 bits where it is greater. Takes no memory, and the same time for each value.
    pub fn size(&self) -> u64
        ensures { result ≡ capped (size_of (term_of self.now)) }
    {
        match self {
            Value::Int(_) => 1,
            Value::Atom(text) | Value::Str(text) => 1 + (text.as_str().len() / 16) as u64,
            Value::Tuple(items) | Value::List(items) => items.size().saturating_add(1),
        }
    }

    /// Whether two values are equal. Takes no memory.
    pub fn equal(&self, other: &Value) -> bool
        ensures { IsTrue result ↔ (self.now ≡ other.now) }
    {
        self.order(other) == Ordering::Equal
    }

    /// How two values stand in the order of terms: a number before an atom, that before a tuple, that
    /// before a list, that before a text. Takes no memory.
    #[cycle(order)]
    pub fn order(&self, other: &Value) -> Ordering
        ensures { result ≡ order_of (term_of self.now) (term_of other.now) }
    {
        match self {
            Value::Int(left) => match other {
                Value::Int(right) => left.cmp(right),
                Value::Atom(_) | Value::Tuple(_) | Value::List(_) | Value::Str(_) => Ordering::Less,
            },
            Value::Atom(left) => match other {
                Value::Int(_) => Ordering::Greater,
                Value::Atom(right) => left.as_str().cmp(right.as_str()),
                Value::Tuple(_) | Value::List(_) | Value::Str(_) => Ordering::Less,
            },
            Value::Tuple(left) => match other {
                Value::Int(_) | Value::Atom(_) => Ordering::Greater,
                Value::Tuple(right) => order_tuples(left.as_slice(), right.as_slice()),
                Value::List(_) | Value::Str(_) => Ordering::Less,
            },
            Value::List(left) => match other {
                Value::Int(_) | Value::Atom(_) | Value::Tuple(_) => Ordering::Greater,
                Value::List(right) => order_items(left.as_slice(), right.as_slice()),
                Value::Str(_) => Ordering::Less,
            },
            Value::Str(left) => match other {
                Value::Str(right) => left.as_str().cmp(right.as_str()),
                Value::Int(_) | Value::Atom(_) | Value::Tuple(_) | Value::List(_) =>
                    Ordering::Greater,
            },
        }
    }
}

/// Tuples by their number of items, and then item by item.
#[cycle(order)]
fn order_tuples(left: &[Value], right: &[Value]) -> Ordering
    ensures { result ≡ order_tuples (terms_of left.now) (terms_of right.now) }
{
    match left.len().cmp(&right.len()) {
        Ordering::Less => Ordering::Less,
        Ordering::Greater => Ordering::Greater,
        Ordering::Equal => order_items(left, right),
    }
}

/// Items one after the other, a beginning first.
#[cycle(order)]
fn order_items(left: &[Value], right: &[Value]) -> Ordering
    ensures { result ≡ order_all (terms_of left.now) (terms_of right.now) }
{
    for place in 0..left.len().min(right.len()) {
        match left[place].order(&right[place]) {
            Ordering::Less => return Ordering::Less,
            Ordering::Greater => return Ordering::Greater,
            Ordering::Equal => {}
        }
    }
    left.len().cmp(&right.len())
}

/// Equality is that of [`Value::equal`].
impl PartialEq for Value {
    ghost eq = { eq_by_cmp value_cmp };

    ghost laws = { partial_equiv_from_equiv (eq_by_cmp_equiv value_total) };

    fn eq(&self, other: &Value) -> bool {
        self.order(other).is_eq()
    }
}

impl Eq for Value {
    ghost laws = { eq_by_cmp_equiv value_total };
}

impl PartialOrd for Value {
    ghost partial_cmp = { as_partial_cmp value_cmp };

    ghost laws = { po value_total (λ v w. refl) };

    fn partial_cmp(&self, other: &Value) -> Option<Ordering> {
        Some(self.order(other))
    }
}

/// The order is that of [`Value::order`].
impl Ord for Value {
    ghost cmp = { value_cmp };

    ghost total = { value_total };

    ghost matches_partial_cmp = { λ v w. refl };

    ghost matches_eq = { λ v w. refl };

    fn cmp(&self, other: &Value) -> Ordering {
        self.order(other)
    }
}
