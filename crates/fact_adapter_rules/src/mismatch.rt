//! Function types that do not agree.

ghost use Rattle.std.specs.Prelude.{◌≡◌, ◌↔◌, ◌<◌, List, IfOk, IsTrue, length};
ghost use Rattle.fact_types.specs.Functions.{HasSignature};
ghost use Rattle.fact_types.specs.Shapes.{Shape};
ghost use Rattle.fact_agreement.specs.Lists.{AgreeAll};
ghost use Rattle.fact_adapter_rules.specs.declared.adapter.AdapterOptionsDfg.{AdapterOptionsDfg as Options};
ghost use Rattle.fact_adapter_rules.specs.AdapterRules.{HasTypeMismatch, any_borrow};
ghost use Rattle.fact_types.specs.Adapters.{LinkedAdapter, Side};
ghost use Rattle.fact_adapter_rules.specs.Linked.{HasSides, IsSideOf, NamesTypesOf};

use crate::adapter::Adapter;
use crate::sides::{params_tuple, results_tuple};
use fact_agreement::Agreement;
use fact_builder::ComponentTypesBuilder;
use fact_types::TypeFuncIndex;
use fact_wasm::OutOfMemory;

/// Whether a live function type is marked async.
fn is_async_type(builder: &ComponentTypesBuilder, ty: TypeFuncIndex) -> bool
    requires { ty.number < length builder.now.tables.functions }
    ensures { (o : Options) (s : Side) → IsSideOf builder.now ty o s → result ≡ s.async_type }
{
    builder[ty].async_
}

/// Whether a parameter of a live function holds a borrow.
fn takes_borrow(builder: &ComponentTypesBuilder, ty: TypeFuncIndex) -> bool
    requires { ty.number < length builder.now.tables.functions }
    ensures { (params results : List Shape) → HasSignature builder.now.tables ty params results → result ≡ any_borrow params }
{
    builder.ty_contains_borrow_resource(&params_tuple(builder, ty))
}

/// Whether the parameters of a live function agree with those of another.
fn params_agree(
    builder: &ComponentTypesBuilder,
    agreement: &mut Agreement<'_>,
    from: TypeFuncIndex,
    to: TypeFuncIndex,
) -> Result<bool, OutOfMemory>
    requires from_live { from.number < length builder.now.tables.functions }
    requires to_live { to.number < length builder.now.tables.functions }
    requires tables { agreement.old ≡ builder.now.tables }
    ensures same { agreement.new ≡ agreement.old }
    ensures exact { IfOk result (λ agree. (ps rs qs us : List Shape) → HasSignature builder.now.tables from ps rs → HasSignature builder.now.tables to qs us → (IsTrue agree ↔ AgreeAll ps qs)) }
{
    agreement.agrees(&params_tuple(builder, from), &params_tuple(builder, to))
}

/// Whether the results of a live function agree with those of another.
fn results_agree(
    builder: &ComponentTypesBuilder,
    agreement: &mut Agreement<'_>,
    from: TypeFuncIndex,
    to: TypeFuncIndex,
) -> Result<bool, OutOfMemory>
    requires from_live { from.number < length builder.now.tables.functions }
    requires to_live { to.number < length builder.now.tables.functions }
    requires tables { agreement.old ≡ builder.now.tables }
    ensures same { agreement.new ≡ agreement.old }
    ensures exact { IfOk result (λ agree. (ps rs qs us : List Shape) → HasSignature builder.now.tables from ps rs → HasSignature builder.now.tables to qs us → (IsTrue agree ↔ AgreeAll rs us)) }
{
    agreement.agrees(&results_tuple(builder, from), &results_tuple(builder, to))
}

/// Whether parameters or results of the two function types do not agree, the marks of the types differ, or the parameters of
/// one alone hold a borrow.
pub(crate) fn has_type_mismatch(
    builder: &ComponentTypesBuilder,
    agreement: &mut Agreement<'_>,
    adapter: &Adapter,
) -> Result<bool, OutOfMemory>
    requires typed { NamesTypesOf builder.now adapter.now }
    requires tables { agreement.old ≡ builder.now.tables }
    ensures same { agreement.new ≡ agreement.old }
    ensures exact { IfOk result (λ found. (linked : LinkedAdapter) → HasSides builder.now adapter.now linked → (IsTrue found ↔ HasTypeMismatch linked)) }
{
    if is_async_type(builder, adapter.lift_ty) != is_async_type(builder, adapter.lower_ty) {
        return Ok(true);
    }
    if !params_agree(builder, agreement, adapter.lower_ty, adapter.lift_ty)? {
        return Ok(true);
    }
    if !results_agree(builder, agreement, adapter.lift_ty, adapter.lower_ty)? {
        return Ok(true);
    }
    Ok(takes_borrow(builder, adapter.lower_ty) != takes_borrow(builder, adapter.lift_ty))
}
