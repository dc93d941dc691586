// Names with their values.
ghost use Rattle.std.specs.Prelude.{◌≡◌, [], IfOk, OnOk, OnErr, position};
ghost use Rattle.std.specs.Option.{option_copied};
ghost use Rattle.std.specs.Str.{bytes_eq};
ghost use Rattle.ex_model.specs.Bound.{value_of, put, put_all};

use ex_value::{Value, Word};
use std::alloc::{AllocError, Global};
use std::marker::Model;

/// A name with its value.
#[derive(Debug, Drop)]
pub struct Binding {
    pub name: Word,
    pub value: Value,
}

impl Binding {
    /// An equal binding.
    pub fn copy(&self) -> Result<Binding, AllocError>
        ensures { IfOk result (λ b. b ≡ self.now) }
    {
        Ok(Binding {
            name: self.name.copy()?,
            value: self.value.copy()?,
        })
    }

    fn become_of(&mut self, name: Word, value: Value)
        ensures { self.new ≡ record { name = name; value = value } }
    {
        *self = Binding { name, value };
    }
}

/// Names with their values, in the order in which the names were first bound.
#[derive(Debug, Drop)]
pub struct Bindings {
    bindings: Vec<Binding>,
}

impl Model for Bindings {
    ghost use Rattle.std.specs.Prelude.{List};
    ghost use Rattle.ex_model.specs.declared.bindings.Binding.{Binding};

    ghost Value = { List Binding };

    ghost view = { λ b. b.bindings.items };
}

impl Bindings {
    /// No bindings. Takes no memory; the bindings keep the allocator for when they grow.
    pub fn new(alloc: Global) -> Bindings
        ensures { result ≡ [] }
    {
        Bindings {
            bindings: Vec::new(alloc),
        }
    }

    /// The bindings in order. Takes no memory.
    pub fn as_slice(&self) -> &[Binding]
        ensures { result.now ≡ self.now }
    {
        self.bindings.as_slice()
    }

    /// The value of a name: none where no binding has it. Takes no memory.
    pub fn get(&self, name: &str) -> Option<&Value>
        ensures { option_copied result ≡ value_of self.now name.now }
    {
        for binding in &self.bindings {
            if binding.name.as_str() == name {
                return Some(&binding.value);
            }
        }
        None
    }

    /// Binds a name: in the place of its binding where there is one, else at the end. After want of
    /// memory the bindings are as they were.
    pub fn put(&mut self, name: Word, value: Value) -> Result<(), AllocError>
        ensures ok { OnOk result (self.new ≡ put self.old name value) }
        ensures err { OnErr result (self.new ≡ self.old) }
    {
        match place_of(&self.bindings, name.as_str()) {
            Some(place) => self.bindings[place].become_of(name, value),
            None => self.bindings.push(Binding { name, value })?,
        }
        Ok(())
    }

    /// Equal bindings.
    pub fn copy(&self) -> Result<Bindings, AllocError>
        ensures { IfOk result (λ b. b ≡ self.now) }
    {
        let mut bindings = Vec::with_capacity(*self.bindings.allocator(), self.bindings.len())?;
        for binding in &self.bindings {
            bindings.push(binding.copy()?)?;
        }
        Ok(Bindings { bindings })
    }

    /// These bindings with each of the others put over them.
    pub fn with(&self, others: &Bindings) -> Result<Bindings, AllocError>
        ensures { IfOk result (λ b. b ≡ put_all self.now others.now) }
    {
        let mut all = self.copy()?;
        for binding in others.as_slice() {
            all.put(binding.name.copy()?, binding.value.copy()?)?;
        }
        Ok(all)
    }
}

/// The place of the first binding of a name.
fn place_of(bindings: &[Binding], name: &str) -> Option<usize>
    ensures { result ≡ position (λ b. bytes_eq b.name name.now) bindings.now }
{
    bindings
        .iter()
        .position(|binding| binding.name.as_str() == name)
}
