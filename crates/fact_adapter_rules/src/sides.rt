//! Adapters that are to be checked ([`Candidate`]), and what is asked of their sides.

ghost use Rattle.std.specs.Prelude.{◌≡◌, ◌<◌, List, length};
ghost use Rattle.fact_types.specs.Functions.{HasSignature};
ghost use Rattle.fact_types.specs.Shapes.{Shape};
ghost use Rattle.fact_types.specs.Tables.{HasShape, IsLive};
ghost use Rattle.fact_types.specs.Adapters.{LinkedAdapter, is_async as is_async_adapter, is_crossing as is_crossing_adapter, is_wide as is_wide_memory};
ghost use Rattle.fact_adapter_rules.specs.Linked.{HasSides, NamesTypesOf, sig_of};
ghost use Rattle.fact_types.specs.Tuples.{tuple_of};

use crate::adapter::{Adapter, AdapterOptionsDfg};
use fact_builder::ComponentTypesBuilder;
use fact_types::{InterfaceType, SideSig, TypeFuncIndex};

/// An adapter that is to be checked, with its name and its mark of transparency.
#[derive(Clone, Copy)]
pub struct Candidate<'a> {
    pub name: &'a str,
    pub transparent: bool,
    pub adapter: &'a Adapter,
}

/// The tuple of the parameters of a live function.
pub(crate) fn params_tuple(builder: &ComponentTypesBuilder, ty: TypeFuncIndex) -> InterfaceType
    requires { ty.number < length builder.now.tables.functions }
    ensures live { IsLive builder.now.tables result }
    ensures shaped { (params results : List Shape) → HasSignature builder.now.tables ty params results → HasShape builder.now.tables result (tuple_of params) }
{
    builder.reveal();
    builder.component_types().reveal();
    InterfaceType::Tuple(builder[ty].params)
}

/// The tuple of the results of a live function.
pub(crate) fn results_tuple(builder: &ComponentTypesBuilder, ty: TypeFuncIndex) -> InterfaceType
    requires { ty.number < length builder.now.tables.functions }
    ensures live { IsLive builder.now.tables result }
    ensures shaped { (params results : List Shape) → HasSignature builder.now.tables ty params results → HasShape builder.now.tables result (tuple_of results) }
{
    builder.reveal();
    builder.component_types().reveal();
    InterfaceType::Tuple(builder[ty].results)
}

/// Whether the addresses of a side's memory have 64 bits.
pub(crate) fn is_wide(options: &AdapterOptionsDfg) -> bool
    ensures { result ≡ is_wide_memory options.now.memory }
{
    match &options.memory {
        Some(memory) => memory.memory64,
        None => false,
    }
}

/// What the core signature of a side hangs on.
pub(crate) fn side_sig(ty: TypeFuncIndex, options: &AdapterOptionsDfg) -> SideSig
    ensures { result ≡ sig_of ty options.now }
{
    SideSig {
        ty,
        async_: options.async_,
        callback: options.callback.is_some(),
        memory64: is_wide(options),
    }
}

/// Whether an adapter is async: a side is, or a function type is marked so.
pub(crate) fn is_async(builder: &ComponentTypesBuilder, adapter: &Adapter) -> bool
    requires { NamesTypesOf builder.now adapter.now }
    ensures { (linked : LinkedAdapter) → HasSides builder.now adapter.now linked → result ≡ is_async_adapter linked }
{
    adapter.lift_options.async_
        || adapter.lower_options.async_
        || builder[adapter.lift_ty].async_
        || builder[adapter.lower_ty].async_
}

/// Whether the sides of an adapter belong to two instances.
pub(crate) fn is_crossing(builder: &ComponentTypesBuilder, adapter: &Adapter) -> bool
    ensures { (linked : LinkedAdapter) → HasSides builder.now adapter.now linked → result ≡ is_crossing_adapter linked }
{
    adapter.lift_options.instance != adapter.lower_options.instance
}
