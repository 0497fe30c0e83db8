//! The types of operands (core specification, "Validation", "Instructions", "Instruction Sequences").

ghost use Rattle.std.specs.Prelude.{◌≡◌, [], ◌∷◌, Option, Some, OnOk, IfOk, is_some, reverse};
ghost use Rattle.fact_machine.specs.Typing.{Known, Open, only_if, same_type, matches, is_number, pop, pop_all, push_all, change, jump, ends, is_empty, drop_operand, common_number, choose};
ghost use Rattle.fact_check.specs.Operands.{operands_of};
ghost use Rattle.fact_check.specs.declared.operands.Operands.TheVariants as Operands;

use crate::OutOfMemory;
use fact_wasm::{Seq, ValType};
use std::alloc::Global;

/// The types of the operands on the stack, the topmost last.
#[derive(Drop)]
pub enum Operands {
    /// Just these.
    Known(Seq<ValType>),
    /// In code that is not reached: these, and below them any. `None` is the type that matches every type.
    Open(Seq<Option<ValType>>),
}

/// Whether two types are the same.
pub fn same_type(a: ValType, b: ValType) -> bool
    ensures { result ≡ same_type a b }
{
    match (a, b) {
        (ValType::I32, ValType::I32)
        | (ValType::I64, ValType::I64)
        | (ValType::F32, ValType::F32)
        | (ValType::F64, ValType::F64)
        | (ValType::FuncRef, ValType::FuncRef) => true,
        _ => false,
    }
}

/// Whether a type is one of numbers.
pub fn is_number(ty: ValType) -> bool
    ensures { result ≡ is_number ty }
{
    match ty {
        ValType::FuncRef => false,
        _ => true,
    }
}

/// Whether a type is the one that stands there.
fn matches(ty: ValType, there: Option<ValType>) -> bool
    ensures { result ≡ matches ty there }
{
    match there {
        None => true,
        Some(there) => same_type(ty, there),
    }
}

/// The type of both, where it is one of numbers.
fn common_number(a: Option<ValType>, b: Option<ValType>) -> Option<Option<ValType>>
    ensures { result ≡ common_number a b }
{
    match a {
        None => match b {
            None => Some(None),
            Some(ty) => { if is_number(ty) { Some(Some(ty)) } else { None } }
        },
        Some(ty) => {
            if is_number(ty) && matches(ty, b) {
                Some(Some(ty))
            } else {
                None
            }
        }
    }
}

/// Whether just these operands end in some of these types.
fn known_end_in(known: &[ValType], types: &[ValType]) -> bool
    ensures { result ≡ is_some (pop_all (reverse types.now) (Known (reverse known.now))) }
{
    let mut below = known;
    let mut left = types;
    while let [rest @ .., last] = left {
        let [under @ .., top] = below else {
            return false;
        };
        if !same_type(*last, *top) {
            return false;
        }
        left = rest;
        below = under;
    }
    true
}

/// Whether these operands, below which there are any, end in some of these types.
fn open_end_in(known: &[Option<ValType>], types: &[ValType]) -> bool
    ensures { result ≡ is_some (pop_all (reverse types.now) (Open (reverse known.now))) }
{
    let mut below = known;
    let mut left = types;
    while let [rest @ .., last] = left {
        let [under @ .., top] = below else {
            return true;
        };
        if !matches(*last, *top) {
            return false;
        }
        left = rest;
        below = under;
    }
    true
}

impl Operands {
    /// No operands.
    pub fn new(alloc: Global) -> Operands
        ensures { result ≡ Operands.Known [] }
    {
        Operands::Known(Seq::new(alloc))
    }

    /// Takes an operand of a type. Where there is none, the operands are of no further use.
    pub fn pop(&mut self, ty: ValType) -> bool
        ensures { pop ty (operands_of self.old) ≡ only_if result (Some (operands_of self.new)) }
    {
        match self {
            Operands::Known(types) => match types.pop() {
                Some(top) => same_type(ty, top),
                None => false,
            },
            Operands::Open(types) => match types.pop() {
                Some(top) => matches(ty, top),
                None => true,
            },
        }
    }

    /// Gives an operand of a type.
    pub fn push(&mut self, ty: ValType) -> Result<(), OutOfMemory>
        ensures { OnOk result (operands_of self.new ≡ push_all (ty ∷ []) (operands_of self.old)) }
    {
        match self {
            Operands::Known(types) => types.push(ty),
            Operands::Open(types) => types.push(Some(ty)),
        }
    }

    /// Takes operands of these types, the last from the top.
    pub fn pop_all(&mut self, types: &[ValType]) -> bool
        ensures { pop_all (reverse types.now) (operands_of self.old) ≡ only_if result (Some (operands_of self.new)) }
    {
        let mut left = types;
        while let [rest @ .., last] = left {
            left = rest;
            if !self.pop(*last) {
                return false;
            }
        }
        true
    }

    /// Gives operands of these types, the last topmost.
    pub fn push_all(&mut self, types: &[ValType]) -> Result<(), OutOfMemory>
        ensures { OnOk result (operands_of self.new ≡ push_all (reverse types.now) (operands_of self.old)) }
    {
        for ty in types {
            self.push(*ty)?;
        }
        Ok(())
    }

    /// Takes operands of some types, and gives operands of others. The last of each is the topmost.
    pub fn change(&mut self, takes: &[ValType], gives: &[ValType]) -> Result<bool, OutOfMemory>
        ensures { IfOk result (λ done. change (reverse takes.now) (reverse gives.now) (operands_of self.old) ≡ only_if done (Some (operands_of self.new))) }
    {
        if !self.pop_all(takes) {
            return Ok(false);
        }
        self.push_all(gives)?;
        Ok(true)
    }

    /// Takes operands of these types, the last from the top; the code behind is not reached.
    pub fn jump(&mut self, alloc: Global, takes: &[ValType]) -> bool
        ensures { jump (reverse takes.now) (operands_of self.old) ≡ only_if result (Some (operands_of self.new)) }
    {
        if !self.pop_all(takes) {
            return false;
        }
        *self = Operands::Open(Seq::new(alloc));
        true
    }

    /// Takes an operand of any type.
    pub fn drop_operand(&mut self) -> bool
        ensures { drop_operand (operands_of self.old) ≡ only_if result (Some (operands_of self.new)) }
    {
        match self {
            Operands::Known(types) => types.pop().is_some(),
            Operands::Open(types) => {
                types.pop();
                true
            }
        }
    }

    /// Takes two operands of one type of numbers, and gives one.
    pub fn choose(&mut self) -> Result<bool, OutOfMemory>
        ensures { IfOk result (λ done. choose (operands_of self.old) ≡ only_if done (Some (operands_of self.new))) }
    {
        match self {
            Operands::Known(types) => {
                let Some(top) = types.pop() else {
                    return Ok(false);
                };
                let Some(other) = types.pop() else {
                    return Ok(false);
                };
                if !is_number(top) || !same_type(top, other) {
                    return Ok(false);
                }
                types.push(top)?;
                Ok(true)
            }
            Operands::Open(types) => {
                let top = types.pop().unwrap_or(None);
                let other = types.pop().unwrap_or(None);
                match common_number(top, other) {
                    Some(ty) => {
                        types.push(ty)?;
                        Ok(true)
                    }
                    None => Ok(false),
                }
            }
        }
    }

    /// Whether these are just the results of code, the last topmost.
    pub fn ends(mut self, results: &[ValType]) -> bool
        ensures { result ≡ ends results.now (Some (operands_of self)) }
    {
        self.pop_all(results) && self.is_empty()
    }

    /// Whether operands of these types are there, the last topmost.
    pub fn end_in(&self, types: &[ValType]) -> bool
        ensures { result ≡ is_some (pop_all (reverse types.now) (operands_of self.now)) }
    {
        match self {
            Operands::Known(known) => known_end_in(known.as_slice(), types),
            Operands::Open(known) => open_end_in(known.as_slice(), types),
        }
    }

    /// Whether no operand is known.
    fn is_empty(&self) -> bool
        ensures { result ≡ is_empty (operands_of self.now) }
    {
        match self {
            Operands::Known(types) => types.len() == 0,
            Operands::Open(types) => types.len() == 0,
        }
    }
}
