//! What the builder tells of types.

ghost use Rattle.std.specs.Prelude.{◌≡◌, ◌<◌, ◌||◌, List, length, min, option_map};
ghost use Rattle.std.specs.List.{IsDistinct};
ghost use Rattle.fact_types.specs.declared.extents.MemoryWidth.{MemoryWidth};
ghost use Rattle.fact_types.specs.declared.extents.MemoryWidth.TheVariants.{Memory32, Memory64};
ghost use Rattle.fact_types.specs.Flat.{flat_within};
ghost use Rattle.fact_types.specs.FlatShapes.{flat, flat_types as flat_types_of};
ghost use Rattle.fact_types.specs.Functions.{HasSignature};
ghost use Rattle.fact_types.specs.Shapes.{Shape, layout_of, IsWithin};
ghost use Rattle.fact_types.specs.Sound.{IsSoundLayout, TakesBytes};
ghost use Rattle.fact_types.specs.Tables.{abi_at, IsLive, HasShape, IsSound};
ghost use Rattle.fact_types.specs.Valid.{IsValid, nesting};
ghost use Rattle.fact_types.specs.Handles.{has_borrow, any_handle};
ghost use Rattle.fact_types.specs.PointerPairs.{has_pointer_pair};

use crate::builder::ComponentTypesBuilder;
use fact_types::{
    CanonicalAbiInfo, FlatTypes, InterfaceType, TypeErrorContextTable, TypeFunc, TypeFuncIndex,
    TypeFuture, TypeFutureTable, TypeStream, TypeStreamTable,
};
use fact_wasm::FuncType;

impl ComponentTypesBuilder {
    /// Does nothing: it says what holds of the builder at all times. Types that stand for one shape are one. No
    /// two function types are equal, nor two futures, streams, tables of these or of error contexts, or core function types.
    pub fn reveal(&self)
        ensures sound { IsSound self.now.tables }
        ensures one_index { (a b : InterfaceType) (s : Shape) → HasShape self.now.tables a s → HasShape self.now.tables b s → a ≡ b }
        ensures functions { IsDistinct ⟦<TypeFunc as PartialEq>⟧.eq self.now.tables.functions }
        ensures futures { IsDistinct ⟦<TypeFuture as PartialEq>⟧.eq self.now.tables.futures }
        ensures future_tables { IsDistinct ⟦<TypeFutureTable as PartialEq>⟧.eq self.now.tables.future_tables }
        ensures streams { IsDistinct ⟦<TypeStream as PartialEq>⟧.eq self.now.tables.streams }
        ensures stream_tables { IsDistinct ⟦<TypeStreamTable as PartialEq>⟧.eq self.now.tables.stream_tables }
        ensures error_context_tables { IsDistinct ⟦<TypeErrorContextTable as PartialEq>⟧.eq self.now.tables.error_context_tables }
        ensures module_types { IsDistinct ⟦<FuncType as PartialEq>⟧.eq self.now.module_types }
    {
        self.types.tables().reveal();
        let _records = self.records.len();
        let _variants = self.variants.len();
        let _tuples = self.tuples.len();
        let _flags = self.flags.len();
        let _enums = self.enums.len();
        let _options = self.options.len();
        let _results = self.results.len();
        let _lists = self.lists.len();
        let _maps = self.maps.len();
        let _fixed_length_lists = self.fixed_length_lists.len();
        let _functions = self.functions.len();
        let _futures = self.futures.len();
        let _future_tables = self.future_tables.len();
        let _streams = self.streams.len();
        let _stream_tables = self.stream_tables.len();
        let _error_context_tables = self.error_context_tables.len();
        let _module_types = self.module_types.len();
    }

    /// How values of a live type are laid out. Values of a valid type take at least one byte, and the count of flat types
    /// is their number in either width, none above 16.
    pub fn canonical_abi(&self, ty: &InterfaceType) -> &CanonicalAbiInfo
        requires { IsLive self.now.tables ty.now }
        ensures stands { result.now ≡ abi_at self.now.tables ty.now }
        ensures laid { (s : Shape) → HasShape self.now.tables ty.now s → result.now ≡ layout_of s }
        ensures sound { IsSoundLayout result.now }
        ensures takes_bytes { (s : Shape) → HasShape self.now.tables ty.now s → IsValid s → TakesBytes result.now }
        ensures counts { (s : Shape) (w : MemoryWidth) → HasShape self.now.tables ty.now s → IsValid s → result.now.flat_count ≡ flat_within (length (flat w s)) }
        ensures within { IsWithin result.now }
    {
        self.component_types().canonical_abi(ty)
    }

    /// The flat types of a live type, or `None` where there are more than 16 (canonical ABI, "Flattening").
    pub fn flat_types(&self, ty: &InterfaceType) -> Option<FlatTypes<'_>>
        requires { IsLive self.now.tables ty.now }
        ensures memory32 { (s : Shape) → HasShape self.now.tables ty.now s → option_map (λ f. f.memory32.now) result ≡ flat_types_of Memory32 s }
        ensures memory64 { (s : Shape) → HasShape self.now.tables ty.now s → option_map (λ f. f.memory64.now) result ≡ flat_types_of Memory64 s }
    {
        self.types.flat_types(ty)
    }

    /// Whether a live type holds a borrow. The payloads of futures and streams are not looked into.
    pub fn ty_contains_borrow_resource(&self, ty: &InterfaceType) -> bool
        requires { IsLive self.now.tables ty.now }
        ensures { (s : Shape) → HasShape self.now.tables ty.now s → result ≡ has_borrow s }
    {
        self.types.has_borrow(ty)
    }

    /// Whether a live type is a string, a list or a map, or holds one. The payloads of futures and streams are not looked
    /// into.
    pub fn ty_contains_pointer_pair(&self, ty: &InterfaceType) -> bool
        requires { IsLive self.now.tables ty.now }
        ensures { (s : Shape) → HasShape self.now.tables ty.now s → result ≡ has_pointer_pair s }
    {
        self.types.has_pointer_pair(ty)
    }

    /// How deep a live type nests: a type without members 1, another one 1 more than its deepest member. The payloads of
    /// futures and streams count. Where it is more than 101 it is told as 101.
    pub fn nesting(&self, ty: &InterfaceType) -> u32
        requires { IsLive self.now.tables ty.now }
        ensures { (s : Shape) → HasShape self.now.tables ty.now s → result ≡ min (nesting s) 101 }
    {
        self.types.nesting(ty)
    }

    /// Whether a parameter or result of a live function type holds a handle: an own, a borrow, a future, a stream or an
    /// error context. The payloads of futures and streams are not looked into.
    pub fn func_contains_any_handle(&self, ty: TypeFuncIndex) -> bool
        requires { ty.number < length self.now.tables.functions }
        ensures { (params results : List Shape) → HasSignature self.now.tables ty params results → result ≡ (any_handle params || any_handle results) }
    {
        let func = &self.types.tables()[ty];
        self.types.tables().reveal();
        self.types.has_handle(&InterfaceType::Tuple(func.params))
            || self.types.has_handle(&InterfaceType::Tuple(func.results))
    }
}
