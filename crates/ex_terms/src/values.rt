//! Values and the lists of values that stand in them.
use ex_word::Word;
use std::alloc::Global;
use std::marker::Model;
use std::sync::Arc;

/// What an expression gives.
#[cycle(values)]
#[derive(Debug, Drop)]
pub enum Value {
    /// An integer of 128 bits: `42`.
    Int(i128),
    /// An atom, by its text: `nil`.
    Atom(Word),
    /// A text: `"abc"`.
    Str(Word),
    /// A tuple: `{1, :a}`.
    Tuple(Items),
    /// A list: `[1, 2]`.
    List(Items),
}

/// The values of a tuple or a list, which don't change. A copy shares them.
#[cycle(values)]
#[derive(Debug, Drop)]
pub struct Items {
    pub(crate) values: Arc<Vec<Value>, Global>,
    /// The sizes of the values together, or the largest number of 64 bits where that is greater.
    pub(crate) size: u64,
}

impl Model for Items {
    ghost use Rattle.ex_terms.specs.Terms.{Terms, counts};
    ghost use Rattle.ex_terms.specs.Coded.{terms_code};

    ghost Value = { Terms };

    ghost coded = { terms_code };

    ghost use Rattle.std.specs.Arc.{arc_value};
    ghost use Rattle.ex_terms.specs.Seen.{terms_of};

    ghost view = { λ a. terms_of (arc_value a.values).items };

    ghost use Rattle.std.specs.Prelude.{◌≡◌};
    ghost use Rattle.ex_terms.specs.Sizes.{sizes_of, capped};

    ghost invariant = { λ a. a.size ≡ capped (sizes_of (terms_of (arc_value a.values).items)) };

    ghost size = { counts };

    ghost use Rattle.ex_terms.specs.Falls.{most_le-counts};

    ghost size_decreases = { λ a h. most_le-counts (arc_value a.values).items };
}
