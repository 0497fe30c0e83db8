//! What a side of an adapter passes, and what it needs (canonical ABI, "Canonical ABI options", "Flattening").

ghost use Rattle.std.specs.Prelude.{◌≡◌, ◌<◌, ◌||◌, All, IfOk, List, codes, length, string_bytes};
ghost use Rattle.fact_types.specs.Functions.{HasSignature, HaveShapes};
ghost use Rattle.fact_types.specs.Shapes.{Shape};
ghost use Rattle.fact_types.specs.Tables.{HasShape, IsLive};
ghost use Rattle.fact_types.specs.Tuples.{tuple_of};
ghost use Rattle.fact_explain.specs.CoreTypes.{signature_text};
ghost use Rattle.fact_explain.specs.Needs.{is_past, is_wide_memory, lower_results_by_pointer, option_text, options_line, passed_line};
ghost use Rattle.fact_explain.specs.Roles.{HasNeeds, HasPassing, key_text, needs_by, params_by_pointer, realloc_by, results_by_pointer, signature_by, text_by};
ghost use Rattle.fact_explain.specs.Sides.{side_head};

use crate::core_types::core_text;
use crate::layouts::layout_text;
use crate::shown::shown_text;
use fact_builder::ComponentTypesBuilder;
use fact_plan::PlanSide;
use fact_types::{
    InterfaceType, MAX_FLAT_PARAMS, MAX_FLAT_RESULTS, SideSig, Signature, TypeFuncIndex,
    lift_results_limit, lower_limit,
};
use fact_wasm::OutOfMemory;
use std::alloc::Global;

/// Which side of an adapter it is.
#[derive(Clone, Copy, Drop)]
pub(crate) enum Role {
    Lift,
    Lower,
}

impl Role {
    /// Its key in a plan.
    pub(crate) fn key(self) -> &'static str
        ensures { result.now ≡ key_text self }
    {
        match self {
            Role::Lift => "lift",
            Role::Lower => "lower",
        }
    }
}

/// Whether the addresses of a side's memory have 64 bits.
pub(crate) fn is_wide(side: &PlanSide) -> bool
    ensures { result ≡ is_wide_memory side.now.memory }
{
    match side.memory {
        Some(memory) => memory.memory64,
        None => false,
    }
}

/// What the canonical ABI gives a side of a live function (`flatten_functype`).
fn signature_of(
    builder: &ComponentTypesBuilder,
    ty: TypeFuncIndex,
    role: Role,
    side: &PlanSide,
) -> Result<Signature, OutOfMemory>
    requires { ty.number < length builder.now.tables.functions }
    ensures { (params results : List Shape) → HasSignature builder.now.tables ty params results → IfOk result (λ s. s ≡ signature_by role side.now params results) }
{
    let signed = SideSig {
        ty,
        async_: side.async_,
        callback: side.callback.is_some(),
        memory64: is_wide(side),
    };
    match role {
        Role::Lift => builder.lift_signature(&signed),
        Role::Lower => builder.lower_signature(&signed),
    }
}

/// The core type that the canonical ABI gives a side of a live function, as it is printed.
pub(crate) fn core_type_text(
    alloc: Global,
    builder: &ComponentTypesBuilder,
    ty: TypeFuncIndex,
    role: Role,
    side: &PlanSide,
) -> Result<String, OutOfMemory>
    requires { ty.number < length builder.now.tables.functions }
    ensures { IfOk result (λ t. (params results : List Shape) → HasSignature builder.now.tables ty params results
        → string_bytes t ≡ signature_text (signature_by role side.now params results)) }
{
    let signature = signature_of(builder, ty, role, side)?;
    core_text(
        alloc,
        signature.params.as_slice(),
        signature.results.as_slice(),
    )
}

// ---- which values go through a pointer

/// Whether values of live types have more flat types than a limit.
fn is_past(
    builder: &ComponentTypesBuilder,
    wide: bool,
    limit: usize,
    types: &[InterfaceType],
) -> Result<bool, OutOfMemory>
    requires { All (IsLive builder.now.tables) types.now }
    ensures { IfOk result (λ found. (ss : List Shape) → HaveShapes builder.now.tables types.now ss → found ≡ is_past wide limit ss) }
{
    let flat = builder.flatten_types(wide, limit, types)?;
    Ok(flat.is_none())
}

/// Whether a side of a live function has the parameters behind a pointer.
fn params_by_pointer(
    builder: &ComponentTypesBuilder,
    ty: TypeFuncIndex,
    role: Role,
    side: &PlanSide,
) -> Result<bool, OutOfMemory>
    requires { ty.number < length builder.now.tables.functions }
    ensures { IfOk result (λ found. (params results : List Shape) → HasSignature builder.now.tables ty params results → found ≡ params_by_pointer role side.now params) }
{
    let wide = is_wide(side);
    let types = builder.params_of(ty);
    match role {
        Role::Lift => is_past(builder, wide, MAX_FLAT_PARAMS, types),
        Role::Lower => is_past(builder, wide, lower_limit(side.async_), types),
    }
}

/// Whether a side that lowers a live function has the results behind a pointer.
fn lower_results_by_pointer(
    builder: &ComponentTypesBuilder,
    ty: TypeFuncIndex,
    side: &PlanSide,
) -> Result<bool, OutOfMemory>
    requires { ty.number < length builder.now.tables.functions }
    ensures { IfOk result (λ found. (params results : List Shape) → HasSignature builder.now.tables ty params results → found ≡ lower_results_by_pointer side.now results) }
{
    let types = builder.results_of(ty);
    if side.async_ {
        Ok(!types.is_empty())
    } else {
        is_past(builder, is_wide(side), MAX_FLAT_RESULTS, types)
    }
}

/// Whether a side of a live function has the results behind a pointer.
fn results_by_pointer(
    builder: &ComponentTypesBuilder,
    ty: TypeFuncIndex,
    role: Role,
    side: &PlanSide,
) -> Result<bool, OutOfMemory>
    requires { ty.number < length builder.now.tables.functions }
    ensures { IfOk result (λ found. (params results : List Shape) → HasSignature builder.now.tables ty params results → found ≡ results_by_pointer role side.now results) }
{
    match role {
        Role::Lift => is_past(
            builder,
            is_wide(side),
            lift_results_limit(side.async_),
            builder.results_of(ty),
        ),
        Role::Lower => lower_results_by_pointer(builder, ty, side),
    }
}

// ---- the lines of values

/// The tuple of the parameters of a live function.
fn params_tuple(builder: &ComponentTypesBuilder, ty: TypeFuncIndex) -> InterfaceType
    requires { ty.number < length builder.now.tables.functions }
    ensures live { IsLive builder.now.tables result }
    ensures shaped { (params results : List Shape) → HasSignature builder.now.tables ty params results → HasShape builder.now.tables result (tuple_of params) }
{
    builder.reveal();
    builder.component_types().reveal();
    InterfaceType::Tuple(builder[ty].params)
}

/// The tuple of the results of a live function.
fn results_tuple(builder: &ComponentTypesBuilder, ty: TypeFuncIndex) -> InterfaceType
    requires { ty.number < length builder.now.tables.functions }
    ensures live { IsLive builder.now.tables result }
    ensures shaped { (params results : List Shape) → HasSignature builder.now.tables ty params results → HasShape builder.now.tables result (tuple_of results) }
{
    builder.reveal();
    builder.component_types().reveal();
    InterfaceType::Tuple(builder[ty].results)
}

/// The line of values of live types, given their tuple, by whether they go through a pointer.
fn passed_line(
    alloc: Global,
    builder: &ComponentTypesBuilder,
    what: &str,
    wide: bool,
    by_pointer: bool,
    types: &[InterfaceType],
    tuple: &InterfaceType,
) -> Result<String, OutOfMemory>
    requires { IsLive builder.now.tables tuple.now }
    ensures { IfOk result (λ t. (ss : List Shape) → HaveShapes builder.now.tables types.now ss → HasShape builder.now.tables tuple.now (tuple_of ss)
        → string_bytes t ≡ passed_line what.now wide by_pointer ss) }
{
    if by_pointer {
        let room = layout_text(alloc, wide, builder.canonical_abi(tuple))?;
        format!(in alloc; "    {what} through a pointer to {room}\n")
    } else if types.is_empty() {
        format!(in alloc; "    no {what}\n")
    } else {
        format!(in alloc; "    {what} as core values\n")
    }
}

/// The line of the parameters of a live function.
fn params_line(
    alloc: Global,
    builder: &ComponentTypesBuilder,
    ty: TypeFuncIndex,
    wide: bool,
    by_pointer: bool,
) -> Result<String, OutOfMemory>
    requires { ty.number < length builder.now.tables.functions }
    ensures { IfOk result (λ t. (params results : List Shape) → HasSignature builder.now.tables ty params results
        → string_bytes t ≡ passed_line (codes "parameters") wide by_pointer params) }
{
    let types = builder.params_of(ty);
    let tuple = params_tuple(builder, ty);
    passed_line(
        alloc,
        builder,
        "parameters",
        wide,
        by_pointer,
        types,
        &tuple,
    )
}

/// The line of the results of a live function.
fn results_line(
    alloc: Global,
    builder: &ComponentTypesBuilder,
    ty: TypeFuncIndex,
    wide: bool,
    by_pointer: bool,
) -> Result<String, OutOfMemory>
    requires { ty.number < length builder.now.tables.functions }
    ensures { IfOk result (λ t. (params results : List Shape) → HasSignature builder.now.tables ty params results
        → string_bytes t ≡ passed_line (codes "results") wide by_pointer results) }
{
    let types = builder.results_of(ty);
    let tuple = results_tuple(builder, ty);
    passed_line(alloc, builder, "results", wide, by_pointer, types, &tuple)
}

// ---- what is needed

/// How the parameters or the results of a function are passed: whether through a pointer, and whether one of them is or holds a string, a list or a map.
#[derive(Clone, Copy, Drop)]
struct Passed {
    by_pointer: bool,
    holds_pointer: bool,
}

/// How a side passes the parameters of a live function.
fn params_passed(
    builder: &ComponentTypesBuilder,
    ty: TypeFuncIndex,
    role: Role,
    side: &PlanSide,
) -> Result<Passed, OutOfMemory>
    requires { ty.number < length builder.now.tables.functions }
    ensures { IfOk result (λ p. (params results : List Shape) → HasSignature builder.now.tables ty params results → HasPassing (params_by_pointer role side.now params) params p) }
{
    let by_pointer = params_by_pointer(builder, ty, role, side)?;
    let tuple = params_tuple(builder, ty);
    let holds_pointer = builder.ty_contains_pointer_pair(&tuple);
    Ok(Passed {
        by_pointer,
        holds_pointer,
    })
}

/// How a side passes the results of a live function.
fn results_passed(
    builder: &ComponentTypesBuilder,
    ty: TypeFuncIndex,
    role: Role,
    side: &PlanSide,
) -> Result<Passed, OutOfMemory>
    requires { ty.number < length builder.now.tables.functions }
    ensures { IfOk result (λ p. (params results : List Shape) → HasSignature builder.now.tables ty params results → HasPassing (results_by_pointer role side.now results) results p) }
{
    let by_pointer = results_by_pointer(builder, ty, role, side)?;
    let tuple = results_tuple(builder, ty);
    let holds_pointer = builder.ty_contains_pointer_pair(&tuple);
    Ok(Passed {
        by_pointer,
        holds_pointer,
    })
}

/// Whether values stand in a memory.
fn needs_memory(params: Passed, results: Passed) -> bool
    ensures { result ≡ ((params.by_pointer || results.by_pointer) || (params.holds_pointer || results.holds_pointer)) }
{
    (params.by_pointer || results.by_pointer) || (params.holds_pointer || results.holds_pointer)
}

/// Whether a side calls realloc: it is the destination of parameters where it lifts, and of results where it lowers.
fn needs_realloc(role: Role, params: Passed, results: Passed) -> bool
    ensures { result ≡ realloc_by role params.by_pointer params.holds_pointer results.holds_pointer }
{
    match role {
        Role::Lift => params.by_pointer || params.holds_pointer,
        Role::Lower => results.holds_pointer,
    }
}

/// What a side passes through a pointer, and what it needs.
#[derive(Clone, Copy, Drop)]
pub(crate) struct Needs {
    pub params_by_pointer: bool,
    pub results_by_pointer: bool,
    pub memory: bool,
    pub realloc: bool,
}

/// What a side of a live function passes through a pointer, and what it needs: a memory for values behind a pointer and for strings, lists and maps, and
/// a realloc where it is the destination of such.
pub(crate) fn needs_of(
    builder: &ComponentTypesBuilder,
    ty: TypeFuncIndex,
    role: Role,
    side: &PlanSide,
) -> Result<Needs, OutOfMemory>
    requires { ty.number < length builder.now.tables.functions }
    ensures { IfOk result (λ n. (params results : List Shape) → HasSignature builder.now.tables ty params results → HasNeeds role side.now params results n) }
{
    let params = params_passed(builder, ty, role, side)?;
    let results = results_passed(builder, ty, role, side)?;
    Ok(Needs {
        params_by_pointer: params.by_pointer,
        results_by_pointer: results.by_pointer,
        memory: needs_memory(params, results),
        realloc: needs_realloc(role, params, results),
    })
}

/// What is told of an option.
fn option_text(is_needed: bool, is_there: bool) -> &'static str
    ensures { result.now ≡ option_text is_needed is_there }
{
    match (is_needed, is_there) {
        (true, _) => "needed",
        (false, true) => "there, and not needed",
        (false, false) => "not needed",
    }
}

/// The line of a side's options.
fn options_line(
    alloc: Global,
    side: &PlanSide,
    needs_memory: bool,
    needs_realloc: bool,
) -> Result<String, OutOfMemory>
    ensures { IfOk result (λ t. string_bytes t ≡ options_line side.now needs_memory needs_realloc) }
{
    let memory = option_text(needs_memory, side.memory.is_some());
    let realloc = option_text(needs_realloc, side.realloc.is_some());
    format!(in alloc; "    memory {memory}; realloc {realloc}\n")
}

/// What a side of a live function passes, and what it needs.
fn needs_text(
    alloc: Global,
    builder: &ComponentTypesBuilder,
    ty: TypeFuncIndex,
    role: Role,
    side: &PlanSide,
) -> Result<String, OutOfMemory>
    requires { ty.number < length builder.now.tables.functions }
    ensures { IfOk result (λ t. (params results : List Shape) → HasSignature builder.now.tables ty params results → string_bytes t ≡ needs_by role side.now params results) }
{
    let wide = is_wide(side);
    let needs = needs_of(builder, ty, role, side)?;
    let params = params_line(alloc, builder, ty, wide, needs.params_by_pointer)?;
    let results = results_line(alloc, builder, ty, wide, needs.results_by_pointer)?;
    let options = options_line(alloc, side, needs.memory, needs.realloc)?;
    format!(in alloc; "{params}{results}{options}")
}

// ---- the lines of a side

/// The first line of a side: its key in the plan, its instance and the notation of its function.
fn side_head(
    alloc: Global,
    k: usize,
    role: Role,
    side: &PlanSide,
    function: &str,
) -> Result<String, OutOfMemory>
    ensures { IfOk result (λ t. string_bytes t ≡ side_head (key_text role) k side.now function.now) }
{
    let key = role.key();
    let instance = side.instance;
    let function = shown_text(alloc, function)?;
    format!(in alloc; "  plan.adapters.{k}.{key}, of instance {instance}: {function}\n")
}

/// The lines of a side of the adapter at a place, whose function is live and has this notation.
pub(crate) fn side_text(
    alloc: Global,
    builder: &ComponentTypesBuilder,
    ty: TypeFuncIndex,
    k: usize,
    role: Role,
    side: &PlanSide,
    function: &str,
) -> Result<String, OutOfMemory>
    requires { ty.number < length builder.now.tables.functions }
    ensures { IfOk result (λ t. (params results : List Shape) → HasSignature builder.now.tables ty params results → string_bytes t ≡ text_by role k side.now params results function.now) }
{
    let head = side_head(alloc, k, role, side, function)?;
    let core_type = core_type_text(alloc, builder, ty, role, side)?;
    let needs = needs_text(alloc, builder, ty, role, side)?;
    format!(in alloc; "{head}    core_type {core_type}\n{needs}")
}
