// Small steps, packed into the canonical steps of a delta.
ghost use Rattle.std.specs.Prelude.{◌≡◌, ◌+◌, ◌^◌, ◌<◌, ◌++◌, [], true, false, List, map, replicate, IfOk, OnOk};
ghost use Rattle.delta.specs.Spread.{Small, Keep, Put, small_reach};
ghost use Rattle.delta.specs.Pack.{inserting, deleting, packed};
ghost use Rattle.delta.specs.Fronts.{head_small};
ghost use Rattle.delta.specs.Packers.{packs, retaining, IsFlushed, TakesSteps};

use crate::Step;
use crate::front::Head;
use std::alloc::{AllocError, Global};
use utf16_text::Text;

/// The steps that are made, and the stretch that is open: as many kept units, then what is put in and
/// how many units are dropped since the last of them.
#[derive(Drop)]
pub struct Packer {
    alloc: Global,
    made: Vec<Step>,
    keeps: u64,
    puts: Vec<u16>,
    drops: u64,
}

impl Packer {
    pub fn new(alloc: Global) -> Packer
        ensures same { (s : List Small) → packs result s ≡ packed s }
        ensures count { result.keeps + result.drops ≡ 0 }
    {
        Packer {
            alloc,
            made: Vec::new(alloc),
            keeps: 0,
            puts: Vec::new(alloc),
            drops: 0,
        }
    }

    /// Takes the small steps of a head.
    pub fn take(&mut self, head: &Head<'_>) -> Result<(), AllocError>
        requires { self.old.keeps + self.old.drops + small_reach (head_small head.now) < 2 ^ 64 }
        ensures { OnOk result (TakesSteps self.old self.new (head_small head.now)) }
    {
        match head {
            Head::End => Ok(()),
            Head::Kept(n) => self.keep(*n),
            Head::Gone(n) => {
                self.drops += *n;
                Ok(())
            }
            Head::New(units) => self.put(units),
        }
    }

    fn keep(&mut self, n: u64) -> Result<(), AllocError>
        requires { self.old.keeps + n < 2 ^ 64 }
        ensures { OnOk result (TakesSteps self.old self.new (replicate n Keep)) }
    {
        if n == 0 {
            return Ok(());
        }
        self.flush()?;
        self.keeps += n;
        Ok(())
    }

    fn put(&mut self, units: &[u16]) -> Result<(), AllocError>
        ensures { OnOk result (TakesSteps self.old self.new (map Put units.now)) }
    {
        self.puts.extend_from_slice(units)?;
        Ok(())
    }

    /// Ends the open stretch, where it puts something in or drops something.
    fn flush(&mut self) -> Result<(), AllocError>
        ensures { OnOk result (IsFlushed self.old self.new) }
    {
        let text = Text::of_units(self.alloc, &self.puts)?;
        self.puts.clear();
        if is_idle(&text, self.drops) {
            return Ok(());
        }
        push_retain(&mut self.made, self.keeps)?;
        push_insert(&mut self.made, text)?;
        push_delete(&mut self.made, self.drops)?;
        self.keeps = 0;
        self.drops = 0;
        Ok(())
    }

    /// The steps of all that was taken.
    pub fn finish(self) -> Result<Vec<Step>, AllocError>
        ensures { IfOk result (λ steps. steps.items ≡ packs self []) }
    {
        let mut packer = self;
        packer.flush()?;
        Ok(packer.made)
    }
}

/// Whether a stretch does nothing.
fn is_idle(text: &Text, drops: u64) -> bool
    ensures idle { result ≡ true → (text.now ≡ []) × (drops ≡ 0) }
    ensures busy { result ≡ false → text.now ≡ [] → drops ≡ 0 → ⊥ }
{
    text.is_empty() && drops == 0
}

fn push_retain(made: &mut Vec<Step>, n: u64) -> Result<(), AllocError>
    ensures { OnOk result (made.new.items ≡ made.old.items ++ retaining n) }
{
    if n > 0 {
        made.push(Step::Retain(n))?;
    }
    Ok(())
}

fn push_insert(made: &mut Vec<Step>, text: Text) -> Result<(), AllocError>
    ensures { OnOk result (made.new.items ≡ made.old.items ++ inserting text) }
{
    if !text.is_empty() {
        made.push(Step::Insert(text))?;
    }
    Ok(())
}

fn push_delete(made: &mut Vec<Step>, n: u64) -> Result<(), AllocError>
    ensures { OnOk result (made.new.items ≡ made.old.items ++ deleting n) }
{
    if n > 0 {
        made.push(Step::Delete(n))?;
    }
    Ok(())
}
