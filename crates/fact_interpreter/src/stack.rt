//! The operand stack.

ghost use Rattle.std.specs.Prelude.{◌≡◌, ℕ, [], ◌∷◌, ◌++◌, reverse, OnOk, IfOk, MatchOption};
ghost use Rattle.fact_machine.specs.Machine.{grab};
ghost use Rattle.fact_interpreter.specs.Cut.{IsCut};

use fact_machine::{CoreValue, OutOfMemory};
use fact_wasm::Seq;
use std::alloc::Global;
use std::marker::Model;

/// A stack of operands over a `Vec`, whose last item is the top. Contracts see it as a list that begins with the top.
#[derive(Drop)]
pub struct Stack {
    items: Vec<CoreValue>,
}

impl Model for Stack {
    ghost use Rattle.std.specs.Prelude.{List, reverse};
    ghost use Rattle.fact_machine.specs.declared.types.CoreValue.{CoreValue};

    ghost Value = { List CoreValue };

    ghost view = { λ s. reverse s.items.items };
}

impl Stack {
    /// An empty stack. It takes no memory until the first push.
    pub fn new(alloc: Global) -> Stack
        ensures { result ≡ [] }
    {
        Stack {
            items: Vec::new(alloc),
        }
    }

    /// The values of a slice, the last one on top.
    pub fn from_slice(alloc: Global, values: &[CoreValue]) -> Result<Stack, OutOfMemory>
        ensures { IfOk result (λ stack. stack ≡ reverse values.now) }
    {
        let items = Vec::from_slice(alloc, values)?;
        Ok(Stack { items })
    }

    /// Puts a value on top.
    pub fn push(&mut self, value: CoreValue) -> Result<(), OutOfMemory>
        ensures { OnOk result (self.new ≡ value ∷ self.old) }
    {
        self.items.push(value)?;
        Ok(())
    }

    /// Takes the top off.
    pub fn pop(&mut self) -> Option<CoreValue>
        ensures { MatchOption result ((self.old ≡ []) × (self.new ≡ [])) (λ value. self.old ≡ value ∷ self.new) }
    {
        self.items.pop()
    }

    /// Takes so many values off, as a stack of their own. Where there are fewer, it takes none and answers `None`.
    pub fn grab(&mut self, count: usize) -> Result<Option<Stack>, OutOfMemory>
        ensures { IfOk result (λ top. IsCut (grab count self.old) top self.new) }
    {
        let len = self.items.len();
        if len < count {
            return Ok(None);
        }
        let items = self.items.split_off(len - count)?;
        Ok(Some(Stack { items }))
    }

    /// The values from the bottom up.
    pub fn into_values(self) -> Seq<CoreValue>
        ensures { result ≡ reverse self }
    {
        let Stack { items } = self;
        Seq::from_vec(items)
    }

    /// The values from the bottom up, where they stand.
    pub fn as_slice(&self) -> &[CoreValue]
        ensures { result.now ≡ reverse self.now }
    {
        self.items.as_slice()
    }

    /// Puts these values on top, the last one topmost.
    pub fn push_all(&mut self, values: &[CoreValue]) -> Result<(), OutOfMemory>
        ensures { OnOk result (self.new ≡ reverse values.now ++ self.old) }
    {
        self.items.extend_from_slice(values)?;
        Ok(())
    }

    /// Puts another stack below this one.
    pub fn lay_on(&mut self, below: Stack) -> Result<(), OutOfMemory>
        ensures { OnOk result (self.new ≡ self.old ++ below) }
    {
        let Stack { mut items } = below;
        items.append(&mut self.items)?;
        self.items = items;
        Ok(())
    }
}
