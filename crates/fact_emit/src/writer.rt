//! The code of a function as it is written.

ghost use Rattle.std.specs.Prelude.{IsTrue, IfOk, IfSome, OnOk, ◌≡◌, ◌++◌, ◌∷◌, [], true, Some, slice_get};
ghost use Rattle.fact_types.specs.declared.import.Import.TheVariants as import;
ghost use Rattle.fact_machine.specs.Typing.{is_number};
ghost use Rattle.fact_emit.specs.States.{AreMemoriesImported, HaveMemoryWidths};
ghost use Rattle.fact_emit.specs.Writers.{Wrote, AddedLocal, Began, EndedBody, Took, Freed, TookRuntime, TookTranscoder, TookTrap, Same, free_local_of, taken_in};

use crate::imported::RuntimeFunction;
use crate::sections::ModuleSections;
use crate::transcoders::Transcoder;
use fact_types::Trap;
use fact_wasm::{Instr, OutOfMemory, Seq, ValType};
use std::alloc::{AllocError, Global};
use std::mem;

/// A local: its type, and whether it is in use.
#[derive(Clone, Copy)]
pub struct Local {
    pub ty: ValType,
    pub in_use: bool,
}

/// The code of a function so far, its locals, the parameters first, and the module around it. A local that was freed
/// is taken again for its type, the last freed first.
#[derive(Drop)]
pub struct Writer {
    pub alloc: Global,
    pub sections: ModuleSections,
    pub code: Vec<Instr>,
    pub locals: Vec<Local>,
    // Locals that were freed, the last one last. One that is in use again is passed over.
    free: Vec<u32>,
}

impl Writer {
    /// No code and no locals yet, of a function of this module. It takes no memory.
    pub fn over(alloc: Global, sections: ModuleSections) -> Writer
        ensures sections { result.sections ≡ sections }
        ensures code { result.code.items ≡ [] }
        ensures locals { result.locals.items ≡ [] }
    {
        Writer {
            alloc,
            sections,
            code: Vec::new(alloc),
            locals: Vec::new(alloc),
            free: Vec::new(alloc),
        }
    }

    /// The module around the code, the code, and the locals.
    pub fn into_parts(self) -> (ModuleSections, Vec<Instr>, Vec<Local>)
        ensures sections { result.0 ≡ self.sections }
        ensures code { result.1 ≡ self.code }
        ensures locals { result.2 ≡ self.locals }
    {
        let Writer {
            sections,
            code,
            locals,
            ..
        } = self;
        (sections, code, locals)
    }

    /// Puts an instruction behind the code.
    pub fn put(&mut self, instr: Instr) -> Result<(), OutOfMemory>
        ensures { OnOk result (Wrote self.old self.new (instr ∷ [])) }
    {
        self.code.push(instr)?;
        Ok(())
    }

    /// Begins a body: the code so far is handed out, and no code is there.
    pub fn begin(&mut self) -> Vec<Instr>
        ensures { Began self.old self.new result.items }
    {
        mem::replace(&mut self.code, Vec::new(self.alloc))
    }

    /// Ends a body, which is handed out, and puts the code from before it back.
    pub fn end(&mut self, outer: Vec<Instr>) -> Seq<Instr>
        ensures { EndedBody self.old self.new outer.items result }
    {
        Seq::from_vec(mem::replace(&mut self.code, outer))
    }

    /// The place of a function of the runtime among the imported functions.
    pub fn runtime(&mut self, function: RuntimeFunction) -> Result<u32, OutOfMemory>
        ensures { IfOk result (λ place. TookRuntime self.old self.new function place) }
    {
        self.sections.runtime(function)
    }

    /// The place of a transcoder among the imported functions.
    pub fn transcoder(&mut self, transcoder: Transcoder) -> Result<u32, OutOfMemory>
        requires memories { AreMemoriesImported transcoder self.old.sections }
        requires widths { HaveMemoryWidths transcoder self.old.sections }
        ensures { IfOk result (λ place. TookTranscoder self.old self.new transcoder place) }
    {
        self.sections.transcoder(transcoder)
    }

    /// The place of a trap among the imported functions.
    pub fn trap(&mut self, trap: Trap) -> Result<u32, OutOfMemory>
        ensures { IfOk result (λ place. TookTrap self.old self.new trap place) }
    {
        self.runtime(RuntimeFunction::Trap(trap))
    }

    /// Whether a local is of a type and not in use.
    fn is_free(&self, local: u32, ty: ValType) -> bool
        ensures { IsTrue result → slice_get self.now.locals.items local ≡ Some (free_local_of ty) }
    {
        match self.locals.get(local as usize) {
            Some(l) => l.ty == ty && !l.in_use,
            None => false,
        }
    }

    /// The local of a type that was freed last, and its place among those that were freed.
    fn last_freed(&self, ty: ValType) -> Option<(usize, u32)>
        ensures { IfSome result (λ r. slice_get self.now.locals.items r.1 ≡ Some (free_local_of ty)) }
    {
        for (place, local) in self.free.iter().enumerate().rev() {
            if self.is_free(*local, ty) {
                return Some((place, *local));
            }
        }
        None
    }

    /// Passes over a local that was freed.
    fn forget(&mut self, place: usize)
        ensures { Same self.old self.new }
    {
        if place < self.free.len() {
            self.free.remove(place);
        }
    }

    /// Takes a local that is not in use.
    fn reuse(&mut self, local: u32, ty: ValType)
        requires { slice_get self.old.locals.items local ≡ Some (free_local_of ty) }
        ensures { Took self.old self.new ty local }
    {
        self.locals[local as usize] = Local { ty, in_use: true };
    }

    /// Adds a local behind the others, which is in use.
    pub fn add_local(&mut self, ty: ValType) -> Result<u32, OutOfMemory>
        ensures { IfOk result (λ local. AddedLocal self.old self.new ty local) }
    {
        let local = self.locals.len();
        if local > u32::MAX as usize {
            return Err(AllocError);
        }
        self.locals.push(Local { ty, in_use: true })?;
        Ok(local as u32)
    }

    /// Takes a new local of a type of numbers.
    fn take_new(&mut self, ty: ValType) -> Result<u32, OutOfMemory>
        requires { is_number ty ≡ true }
        ensures { IfOk result (λ local. Took self.old self.new ty local) }
    {
        let local = self.add_local(ty)?;
        Ok(local)
    }

    /// A local of a type of numbers that is not in use, and now is.
    pub fn take_local(&mut self, ty: ValType) -> Result<u32, OutOfMemory>
        requires { is_number ty ≡ true }
        ensures { IfOk result (λ local. Took self.old self.new ty local) }
    {
        match self.last_freed(ty) {
            Some((place, local)) => {
                self.reuse(local, ty);
                self.forget(place);
                Ok(local)
            }
            None => self.take_new(ty),
        }
    }

    /// A local is in use no more.
    pub fn free_local(&mut self, local: u32) -> Result<(), OutOfMemory>
        requires { taken_in self.old local ≡ true }
        ensures { OnOk result (Freed self.old self.new local) }
    {
        self.locals[local as usize].in_use = false;
        self.free.push(local)?;
        Ok(())
    }
}
