// Why a cell gives no value.
ghost use Rattle.std.specs.Prelude.{◌≡◌, ◌++◌, IfOk, codes, decimal};
ghost use Rattle.ex_model.specs.Faults.{text_of};

use ex_value::Word;
use itoa::Buffer;
use std::alloc::{AllocError, Global};

/// Why a cell gives no value.
#[derive(Debug, Drop)]
pub enum Fault {
    /// The source isn't in the part of the language that is built: `[x]`.
    Unbuilt,
    /// The source has more than 1,048,576 bytes.
    SourceTooLong,
    /// The value and the values of the names that the cell bound have more than 8,192 units.
    ValueTooLarge,
    /// The steps reach the limit and more are wanted.
    TooManySteps,
    /// A result doesn't fit 128 bits.
    IntegerTooWide,
    /// A name, here given, has no value.
    UnboundVariable(Word),
    /// A call, by its name and its number of arguments, got one of a kind that it doesn't take.
    BadArgument { name: Word, arity: u64 },
}

impl Fault {
    /// An equal fault.
    pub fn copy(&self) -> Result<Fault, AllocError>
        ensures { IfOk result (λ f. f ≡ self.now) }
    {
        match self {
            Fault::Unbuilt => Ok(Fault::Unbuilt),
            Fault::SourceTooLong => Ok(Fault::SourceTooLong),
            Fault::ValueTooLarge => Ok(Fault::ValueTooLarge),
            Fault::TooManySteps => Ok(Fault::TooManySteps),
            Fault::IntegerTooWide => Ok(Fault::IntegerTooWide),
            Fault::UnboundVariable(name) => Ok(Fault::UnboundVariable(name.copy()?)),
            Fault::BadArgument { name, arity } => Ok(Fault::BadArgument {
                name: name.copy()?,
                arity: *arity,
            }),
        }
    }
}

/// The fault as it is printed.
pub fn fault_text(alloc: Global, fault: &Fault) -> Result<Word, AllocError>
    ensures { IfOk result (λ w. w ≡ text_of fault.now) }
{
    match fault {
        Fault::Unbuilt => Word::of(alloc, "unbuilt"),
        Fault::SourceTooLong => Word::of(alloc, "source too long"),
        Fault::ValueTooLarge => Word::of(alloc, "value too large"),
        Fault::TooManySteps => Word::of(alloc, "too many steps"),
        Fault::IntegerTooWide => Word::of(alloc, "integer too wide"),
        Fault::UnboundVariable(name) => unbound_text(alloc, name.as_str()),
        Fault::BadArgument { name, arity } => argument_text(alloc, name.as_str(), *arity),
    }
}

fn unbound_text(alloc: Global, name: &str) -> Result<Word, AllocError>
    ensures { IfOk result (λ w. w ≡ codes "unbound variable: " ++ name.now) }
{
    let mut text = String::from_str(alloc, "unbound variable: ")?;
    text.push_str(name)?;
    Word::of(alloc, text.as_str())
}

fn argument_text(alloc: Global, name: &str, arity: u64) -> Result<Word, AllocError>
    ensures { IfOk result (λ w. w ≡ codes "bad argument: " ++ name.now ++ codes "/" ++ decimal arity) }
{
    let mut buffer = Buffer::new();
    let mut text = String::from_str(alloc, "bad argument: ")?;
    text.push_str(name)?;
    text.push_str("/")?;
    text.push_str(buffer.format(arity))?;
    Word::of(alloc, text.as_str())
}
