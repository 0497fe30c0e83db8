//! The tables of types, with what is known of the types in them.

ghost use Rattle.std.specs.Prelude.{◌≡◌, min, option_map};
ghost use Rattle.fact_types.specs.declared.extents.MemoryWidth.TheVariants.{Memory32, Memory64};
ghost use Rattle.fact_types.specs.FlatShapes.{flat_types as flat_types_of};
ghost use Rattle.fact_types.specs.Shapes.{Shape};
ghost use Rattle.fact_types.specs.Tables.{no_tables, IsLive, HasShape};
ghost use Rattle.fact_types.specs.Valid.{nesting};
ghost use Rattle.fact_types.specs.Handles.{has_handle, has_borrow};
ghost use Rattle.fact_types.specs.PointerPairs.{has_pointer_pair};

use crate::information::{TypeInformation, plain_flat_types};
use crate::known::known;
use fact_types::{ComponentTypes, FlatTypes, InterfaceType};
use indexmap::IndexMap;
use std::alloc::Global;
use std::marker::Model;

/// Tables of types, and what is known of each. Contracts see it as the tables.
#[derive(Drop)]
pub(crate) struct KnownTypes {
    pub(crate) types: ComponentTypes,
    // What is known of the types with members. What is kept of an index that is not live is of no account.
    pub(crate) kept: IndexMap<InterfaceType, TypeInformation>,
}

impl Model for KnownTypes {
    ghost use Rattle.indexmap.specs.IndexMap.{get};
    ghost use Rattle.fact_types.specs.Tables.{Tables};
    ghost use Rattle.fact_builder.specs.Information.{AllKept};

    ghost Value = { Tables };

    ghost view = { λ k. k.types };

    ghost invariant = { λ k. AllKept k.types (get ⟦<InterfaceType as PartialEq>⟧.eq k.kept) };
}

impl KnownTypes {
    /// No types. It takes no memory.
    #[tactic(auto, using(crate::proofs::InformationLaws::none_kept))]
    pub(crate) fn new(alloc: Global) -> KnownTypes
        ensures { result ≡ no_tables }
    {
        KnownTypes {
            types: ComponentTypes::new(alloc),
            kept: IndexMap::new(alloc),
        }
    }

    /// The allocator.
    pub(crate) fn allocator(&self) -> Global {
        *self.kept.allocator()
    }

    /// The tables, without what is known of the types in them.
    pub(crate) fn into_tables(self) -> ComponentTypes
        ensures { result ≡ self }
    {
        let KnownTypes { types, kept } = self;
        drop(kept);
        types
    }

    /// The tables.
    pub(crate) fn tables(&self) -> &ComponentTypes
        ensures { result.now ≡ self.now }
    {
        &self.types
    }

    /// The flat types of a live type, or `None` where there are more than 16.
    pub(crate) fn flat_types(&self, ty: &InterfaceType) -> Option<FlatTypes<'_>>
        requires { IsLive self.now ty.now }
        ensures memory32 { (s : Shape) → HasShape self.now ty.now s → option_map (λ f. f.memory32.now) result ≡ flat_types_of Memory32 s }
        ensures memory64 { (s : Shape) → HasShape self.now ty.now s → option_map (λ f. f.memory64.now) result ≡ flat_types_of Memory64 s }
    {
        self.types.reveal();
        match self.kept.get(ty) {
            Some(kept) => kept.flat_types(),
            None => Some(plain_flat_types(ty)),
        }
    }

    /// Whether a live type holds a borrow.
    pub(crate) fn has_borrow(&self, ty: &InterfaceType) -> bool
        requires { IsLive self.now ty.now }
        ensures { (s : Shape) → HasShape self.now ty.now s → result ≡ has_borrow s }
    {
        known(&self.kept, ty).has_borrow
    }

    /// Whether a live type holds a handle.
    pub(crate) fn has_handle(&self, ty: &InterfaceType) -> bool
        requires { IsLive self.now ty.now }
        ensures { (s : Shape) → HasShape self.now ty.now s → result ≡ has_handle s }
    {
        known(&self.kept, ty).has_handle
    }

    /// Whether a live type is a string, a list or a map, or holds one.
    pub(crate) fn has_pointer_pair(&self, ty: &InterfaceType) -> bool
        requires { IsLive self.now ty.now }
        ensures { (s : Shape) → HasShape self.now ty.now s → result ≡ has_pointer_pair s }
    {
        known(&self.kept, ty).has_pointer_pair
    }

    /// How deep a live type nests, up to 101.
    pub(crate) fn nesting(&self, ty: &InterfaceType) -> u32
        requires { IsLive self.now ty.now }
        ensures { (s : Shape) → HasShape self.now ty.now s → result ≡ min (nesting s) 101 }
    {
        known(&self.kept, ty).nesting
    }
}
