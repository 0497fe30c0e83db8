//! The list of the function types of a module that is being made.

ghost use Rattle.std.specs.Prelude.{◌≡◌, ◌⊎◌, ◌++◌, ◌∷◌, [], ℕ, None, position, slice_get, IfOk, IfSome, IfNone, OnOk, OnErr};
ghost use Rattle.fact_wasm.specs.CoreTypes.{signature, IsOnlyPlaceOfType, HasNoTwins};

use crate::OutOfMemory;
use crate::copies::copy_list;
use crate::seq::Seq;
use crate::types::{FuncType, ValType};
use fact_entity::{EntityRef, Interner, ModuleInternedTypeIndex};
use std::alloc::{AllocError, Global};
use std::marker::Model;

/// Function types by their hashes. The number of a key is the place of its type in the type section.
type Places = Interner<ModuleInternedTypeIndex, FuncType>;

/// The function types of a module, each signature once (core specification, "Structure", "Modules", "Types"). Contracts
/// see it as the list of the types, in the order in which they came.
#[derive(Drop)]
pub struct CoreTypes {
    alloc: Global,
    section: Seq<FuncType>,
    // The same types, by which a signature is found.
    places: Places,
}

impl Model for CoreTypes {
    ghost use Rattle.std.specs.Prelude.{List, ◌≡◌};
    ghost use Rattle.fact_wasm.specs.declared.types.FuncType.{FuncType};
    ghost use Rattle.fact_wasm.specs.CoreTypes.{HasNoTwins};

    ghost Value = { List FuncType };

    ghost view = { λ s. s.section };

    ghost invariant = { λ s. (s.places ≡ s.section) × HasNoTwins s.section };
}

/// The key of a type, or `None` where it is not among them.
fn key_of(places: &Places, ty: &FuncType) -> Option<ModuleInternedTypeIndex>
    ensures found { IfSome result (λ k. IsOnlyPlaceOfType places.now ty.now k.number) }
    ensures absent { IfNone result (position (⟦<FuncType as PartialEq>⟧.eq ty.now) places.now ≡ None) }
{
    places.find(ty)
}

/// Puts a type that is not among them behind the last one, and answers its place. The types are unchanged after a refusal.
fn push_type(
    section: &mut Seq<FuncType>,
    places: &mut Places,
    ty: FuncType,
) -> Result<u32, OutOfMemory>
    requires same { places.old ≡ section.old }
    requires apart { HasNoTwins section.old }
    requires absent { position (⟦<FuncType as PartialEq>⟧.eq ty) places.old ≡ None }
    ensures place { IfOk result (λ place. IsOnlyPlaceOfType section.new ty place) }
    ensures list { OnOk result (section.new ≡ section.old ++ ty ∷ []) }
    ensures distinct { HasNoTwins section.new }
    ensures same { places.new ≡ section.new }
    ensures refused { OnErr result (section.new ≡ section.old) }
{
    let listed = ty.try_clone()?;
    let Ok(key) = places.add_new(ty) else {
        return Err(AllocError);
    };
    if let Err(error) = section.push(listed) {
        places.pop();
        return Err(error);
    }
    Ok(key.as_u32())
}

impl CoreTypes {
    /// No types. It takes no memory until the first one comes.
    pub fn new(alloc: Global) -> Self
        ensures { result ≡ [] }
    {
        CoreTypes {
            alloc,
            section: Seq::new(alloc),
            places: Interner::new(alloc),
        }
    }

    /// The types, by their index.
    pub fn types(&self) -> &Seq<FuncType>
        ensures list { result.now ≡ self.now }
        ensures distinct { HasNoTwins self.now }
    {
        &self.section
    }

    /// A copy of the list of the types.
    pub fn copied_types(&self) -> Result<Seq<FuncType>, OutOfMemory>
        ensures { IfOk result (λ copy. copy ≡ self.now) }
    {
        copy_list(&self.section)
    }

    /// The list of the types.
    pub fn into_types(self) -> Seq<FuncType>
        ensures list { result ≡ self }
        ensures distinct { HasNoTwins self }
    {
        let CoreTypes { section, .. } = self;
        section
    }

    /// The index of the type of these parameters and results. Where there is none yet, it comes behind the last one. An
    /// index past a u32 is a want of memory. The types are unchanged after a refusal.
    pub fn function(&mut self, params: &[ValType], results: &[ValType]) -> Result<u32, OutOfMemory>
        ensures place { IfOk result (λ place. IsOnlyPlaceOfType self.new (signature params.now results.now) place) }
        ensures list { OnOk result ((self.new ≡ self.old) ⊎ (self.new ≡ self.old ++ signature params.now results.now ∷ [])) }
        ensures keeps { (k : ℕ) (ty : FuncType) → slice_get self.old k ≡ Some ty → slice_get self.new k ≡ Some ty }
        ensures distinct { HasNoTwins self.new }
        ensures refused { OnErr result (self.new ≡ self.old) }
    {
        let ty = FuncType::from_slices(self.alloc, params, results)?;
        if let Some(key) = key_of(&self.places, &ty) {
            return Ok(key.as_u32());
        }
        push_type(&mut self.section, &mut self.places, ty)
    }
}
