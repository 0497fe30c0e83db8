//! Core types that are not the canonical signatures of their sides.

ghost use Rattle.std.specs.Prelude.{◌≡◌, ◌↔◌, ◌<◌, IfOk, IsTrue, length};
ghost use Rattle.fact_wasm.specs.CoreTypes.{signature as signature_type};
ghost use Rattle.fact_adapter_rules.specs.AdapterRules.{Differs, HasBadSignature, lift_side_signature, lower_side_signature};
ghost use Rattle.fact_types.specs.Adapters.{LinkedAdapter, Side};
ghost use Rattle.fact_adapter_rules.specs.Linked.{HasSides, IsSideOf, NamesTypesOf};

use crate::adapter::{Adapter, AdapterOptionsDfg};
use crate::sides::side_sig;
use fact_builder::ComponentTypesBuilder;
use fact_types::{Signature, TypeFuncIndex};
use fact_wasm::{FuncType, OutOfMemory};

/// Whether a core type has the parameters and results of a signature.
fn has_signature(ty: &FuncType, signature: &Signature) -> bool
    ensures { IsTrue result ↔ (ty.now ≡ signature_type signature.now.params signature.now.results) }
{
    ty.params.as_slice() == signature.params.as_slice()
        && ty.results.as_slice() == signature.results.as_slice()
}

/// Whether the core type of the side that lifts is not its canonical signature.
fn lift_differs(
    builder: &ComponentTypesBuilder,
    ty: TypeFuncIndex,
    options: &AdapterOptionsDfg,
) -> Result<bool, OutOfMemory>
    requires typed { ty.number < length builder.now.tables.functions }
    requires core { options.now.core_type.number < length builder.now.module_types }
    ensures { IfOk result (λ found. (s : Side) → IsSideOf builder.now ty options.now s → (IsTrue found ↔ Differs s.core_type (lift_side_signature s))) }
{
    let signature = builder.lift_signature(&side_sig(ty, options))?;
    Ok(!has_signature(&builder[options.core_type], &signature))
}

/// Whether the core type of the side that lowers is not its canonical signature.
fn lower_differs(
    builder: &ComponentTypesBuilder,
    ty: TypeFuncIndex,
    options: &AdapterOptionsDfg,
) -> Result<bool, OutOfMemory>
    requires typed { ty.number < length builder.now.tables.functions }
    requires core { options.now.core_type.number < length builder.now.module_types }
    ensures { IfOk result (λ found. (s : Side) → IsSideOf builder.now ty options.now s → (IsTrue found ↔ Differs s.core_type (lower_side_signature s))) }
{
    let signature = builder.lower_signature(&side_sig(ty, options))?;
    Ok(!has_signature(&builder[options.core_type], &signature))
}

/// Whether the core type of a side is not its canonical signature.
pub(crate) fn has_bad_signature(
    builder: &ComponentTypesBuilder,
    adapter: &Adapter,
) -> Result<bool, OutOfMemory>
    requires { NamesTypesOf builder.now adapter.now }
    ensures { IfOk result (λ found. (linked : LinkedAdapter) → HasSides builder.now adapter.now linked → (IsTrue found ↔ HasBadSignature linked)) }
{
    if lift_differs(builder, adapter.lift_ty, &adapter.lift_options)? {
        return Ok(true);
    }
    lower_differs(builder, adapter.lower_ty, &adapter.lower_options)
}
