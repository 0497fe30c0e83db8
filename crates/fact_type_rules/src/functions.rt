//! The rules for functions.

ghost use Rattle.std.specs.Prelude.{◌≡◌, ◌↔◌, ◌⊎◌, ◌<◌, List, All, Any, IfOk, IsTrue, length};
ghost use Rattle.fact_types.specs.Functions.{HasSignature, HaveShapes};
ghost use Rattle.fact_types.specs.Shapes.{Shape};
ghost use Rattle.fact_types.specs.Tables.{IsLive};
ghost use Rattle.fact_types.specs.Handles.{has_borrow};
ghost use Rattle.fact_plan_types.specs.TypeRules.{IsPast, IsRepeated, most_entries, tuple_layout};
ghost use Rattle.fact_type_rules.specs.TypeFaults.{AnyIn, HasManyTypes, IsBadFunction, IsLargeFunction, IsLongFunction};
ghost use Rattle.fact_type_rules.specs.Walk.{BreaksRules, IsClean};

use crate::rules::Rules;
use crate::walk::is_any_faulty;
use fact_builder::ComponentTypesBuilder;
use fact_plan_types::{MOST_ENTRIES, are_repeated};
use fact_types::{InterfaceType, TypeFuncIndex};
use fact_wasm::OutOfMemory;
use indexmap::IndexSet;
use std::alloc::Global;
use std::marker::Model;

/// Judges the function types of a builder. Contracts see it as the builder. A type that was found to break no rule, with all
/// types in it, is not looked at again.
#[derive(Drop)]
pub struct FunctionTypes<'a> {
    builder: &'a ComponentTypesBuilder,
    // Types that break no rule of a kind, nor does a type in them.
    of_kind: IndexSet<InterfaceType>,
    of_size: IndexSet<InterfaceType>,
}

impl<'a> Model for FunctionTypes<'a> {
    ghost use Rattle.std.specs.Prelude.{All};
    ghost use Rattle.fact_builder.specs.Builder.{Builder};
    ghost use Rattle.fact_type_rules.specs.declared.rules.Rules.TheVariants.{OfKind, OfSize};
    ghost use Rattle.fact_type_rules.specs.Walk.{IsClean};

    ghost Value = { Builder };

    ghost view = { λ f. f.builder.now };

    ghost invariant = { λ f. All (IsClean f.builder.now.tables OfKind) f.of_kind.keys × All (IsClean f.builder.now.tables OfSize) f.of_size.keys };
}

impl<'a> FunctionTypes<'a> {
    /// Nothing is known of any type. It takes no memory.
    pub fn new(alloc: Global, builder: &'a ComponentTypesBuilder) -> FunctionTypes<'a>
        ensures { result ≡ builder.now }
    {
        FunctionTypes {
            builder,
            of_kind: IndexSet::new(alloc),
            of_size: IndexSet::new(alloc),
        }
    }

    /// Whether a live function type is none, or a type in it: a parameter's name is repeated, a result holds a borrow, or a type
    /// is empty, repeats a name or has more than 32 flags.
    pub fn is_bad(&mut self, ty: TypeFuncIndex) -> Result<bool, OutOfMemory>
        requires { ty.number < length self.old.tables.functions }
        ensures same { self.new ≡ self.old }
        ensures exact { IfOk result (λ found. (params results : List Shape) (s : HasSignature self.old.tables ty params results) → (IsTrue found ↔ IsBadFunction s.func.param_names params results)) }
    {
        let builder = self.builder;
        if has_repeated_names(*self.of_kind.allocator(), builder, ty)? {
            return Ok(true);
        }
        if is_any_borrow(builder, builder.results_of(ty)) {
            return Ok(true);
        }
        has_faulty_types(builder, Rules::OfKind, &mut self.of_kind, ty)
    }

    /// Whether a live function type is too large, or a type in it: by the number of parameters, of their names or of results, by
    /// the bytes that they take, or by a type's table, members, bytes or nesting.
    pub fn is_large(&mut self, ty: TypeFuncIndex) -> Result<bool, OutOfMemory>
        requires { ty.number < length self.old.tables.functions }
        ensures same { self.new ≡ self.old }
        ensures exact { IfOk result (λ found. (params results : List Shape) (s : HasSignature self.old.tables ty params results) → (IsTrue found ↔ IsLargeFunction s.func.param_names params results)) }
    {
        let builder = self.builder;
        reveal_tuples(builder, ty);
        if is_long(builder, ty) {
            return Ok(true);
        }
        has_faulty_types(builder, Rules::OfSize, &mut self.of_size, ty)
    }
}

/// Whether the type of a parameter or of a result of a live function, or a type in one, breaks one of the rules.
fn has_faulty_types(
    builder: &ComponentTypesBuilder,
    rules: Rules,
    clean: &mut IndexSet<InterfaceType>,
    ty: TypeFuncIndex,
) -> Result<bool, OutOfMemory>
    requires live { ty.number < length builder.now.tables.functions }
    requires clean { All (IsClean builder.now.tables rules) clean.old.keys }
    ensures clean { All (IsClean builder.now.tables rules) clean.new.keys }
    ensures exact { IfOk result (λ found. (params results : List Shape) → HasSignature builder.now.tables ty params results → (IsTrue found ↔ (Any (AnyIn (BreaksRules rules)) params ⊎ Any (AnyIn (BreaksRules rules)) results))) }
{
    if is_any_faulty(builder, rules, clean, builder.params_of(ty))? {
        return Ok(true);
    }
    is_any_faulty(builder, rules, clean, builder.results_of(ty))
}

/// Whether two parameters of a live function have one name.
fn has_repeated_names(
    alloc: Global,
    builder: &ComponentTypesBuilder,
    ty: TypeFuncIndex,
) -> Result<bool, OutOfMemory>
    requires { ty.number < length builder.now.tables.functions }
    ensures { IfOk result (λ found. (params results : List Shape) (s : HasSignature builder.now.tables ty params results) → (IsTrue found ↔ IsRepeated s.func.param_names)) }
{
    are_repeated(alloc, builder[ty].param_names.as_slice())
}

/// Whether one of some live types holds a borrow.
fn is_any_borrow(builder: &ComponentTypesBuilder, types: &[InterfaceType]) -> bool
    requires { All (IsLive builder.now.tables) types.now }
    ensures { (ss : List Shape) → HaveShapes builder.now.tables types.now ss → (IsTrue result ↔ Any (λ s. IsTrue (has_borrow s)) ss) }
{
    for ty in types {
        if builder.ty_contains_borrow_resource(ty) {
            return true;
        }
    }
    false
}

/// Whether a live function has too many names of parameters.
fn has_many_names(builder: &ComponentTypesBuilder, ty: TypeFuncIndex) -> bool
    requires { ty.number < length builder.now.tables.functions }
    ensures { (params results : List Shape) (s : HasSignature builder.now.tables ty params results) → (IsTrue result ↔ (most_entries < length s.func.param_names)) }
{
    builder[ty].param_names.len() > MOST_ENTRIES
}

/// Whether a live function has too many names of parameters, parameters or results.
fn is_long(builder: &ComponentTypesBuilder, ty: TypeFuncIndex) -> bool
    requires { ty.number < length builder.now.tables.functions }
    ensures { (params results : List Shape) (s : HasSignature builder.now.tables ty params results) → (IsTrue result ↔ IsLongFunction s.func.param_names params results) }
{
    has_many_names(builder, ty) || has_many_types(builder, ty)
}

/// Whether a live function has too many parameters or results.
fn has_many_types(builder: &ComponentTypesBuilder, ty: TypeFuncIndex) -> bool
    requires { ty.number < length builder.now.tables.functions }
    ensures { (params results : List Shape) → HasSignature builder.now.tables ty params results → (IsTrue result ↔ HasManyTypes params results) }
{
    builder.params_of(ty).len() > MOST_ENTRIES || builder.results_of(ty).len() > MOST_ENTRIES
}

/// Does nothing: it says that the parameters of a live function, as a tuple, take no more bytes than there can be, and so do its
/// results.
fn reveal_tuples(builder: &ComponentTypesBuilder, ty: TypeFuncIndex)
    requires { ty.number < length builder.now.tables.functions }
    ensures params { (params results : List Shape) → HasSignature builder.now.tables ty params results → IsPast (tuple_layout params) → ⊥ }
    ensures results { (params results : List Shape) → HasSignature builder.now.tables ty params results → IsPast (tuple_layout results) → ⊥ }
{
    builder.reveal();
    let func = &builder[ty];
    let _params = builder.canonical_abi(&InterfaceType::Tuple(func.params));
    let _results = builder.canonical_abi(&InterfaceType::Tuple(func.results));
}
