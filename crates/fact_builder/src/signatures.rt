//! The types of functions, and the core signatures of the sides of an adapter (canonical ABI, `flatten_functype`).

ghost use Rattle.std.specs.Prelude.{◌≡◌, ◌<◌, List, [], ◌∷◌, ◌++◌, length, map, option_map, slice_get, Some, All, IfOk, OnOk};
ghost use Rattle.fact_types.specs.Flat.{value_type};
ghost use Rattle.fact_types.specs.Functions.{HaveShapes, HasSignature};
ghost use Rattle.fact_types.specs.Shapes.{Shape};
ghost use Rattle.fact_types.specs.Signatures.{width, address as address_of, flat_values, flat_params as flat_params_of, lower_signature as lower_signature_of, lift_signature as lift_signature_of, async_lower, async_start_signature as async_start_signature_of, async_return_signature as async_return_signature_of};
ghost use Rattle.fact_types.specs.FlatShapes.{flat_types as flat_types_of};
ghost use Rattle.fact_types.specs.Tables.{IsLive, HasShape};
ghost use Rattle.fact_builder.specs.Pointers.{pointer_where_any, with_results};

use crate::builder::ComponentTypesBuilder;
use fact_types::{
    FlatType, InterfaceType, MAX_FLAT_ASYNC_PARAMS, MAX_FLAT_PARAMS, MAX_FLAT_RESULTS, OutOfMemory,
    SideSig, Signature, TypeFuncIndex, lift_results_limit, lower_limit,
};
use fact_wasm::{Seq, ValType};

/// The type of an address of a memory.
fn address(memory64: bool) -> ValType
    ensures { result ≡ address_of memory64 }
{
    if memory64 { ValType::I64 } else { ValType::I32 }
}

/// Appends the value types of flat types.
fn push_flat(values: &mut Seq<ValType>, types: &[FlatType]) -> Result<(), OutOfMemory>
    ensures { OnOk result (values.new ≡ values.old ++ map value_type types.now) }
{
    for ty in types {
        values.push(ValType::from(*ty))?;
    }
    Ok(())
}

/// Parameters, and one more for a pointer where there are results.
fn with_pointer(
    params: Seq<ValType>,
    memory64: bool,
    given: &[InterfaceType],
) -> Result<Seq<ValType>, OutOfMemory>
    ensures { IfOk result (λ values. values ≡ params ++ pointer_where_any memory64 given.now) }
{
    let mut params = params;
    if given.is_empty() {
        return Ok(params);
    }
    params.push(address(memory64))?;
    Ok(params)
}

impl ComponentTypesBuilder {
    /// The core types that stand for values of live types one after another, or `None` where there are more than `max`
    /// or one type has more than 16.
    pub fn flatten_types(
        &self,
        memory64: bool,
        max: usize,
        tys: &[InterfaceType],
    ) -> Result<Option<Seq<ValType>>, OutOfMemory>
        requires { All (IsLive self.now.tables) tys.now }
        ensures { (ss : List Shape) → HaveShapes self.now.tables tys.now ss → IfOk result (λ flat. flat ≡ flat_values memory64 max ss) }
    {
        let mut values = self.no_values();
        for ty in tys {
            let Some(types) = self.flat_types_in(memory64, ty) else {
                return Ok(None);
            };
            push_flat(&mut values, types)?;
            if values.len() > max {
                return Ok(None);
            }
        }
        Ok(Some(values))
    }

    /// The flat types of a live type in one width of memory.
    fn flat_types_in(&self, memory64: bool, ty: &InterfaceType) -> Option<&[FlatType]>
        requires { IsLive self.now.tables ty.now }
        ensures { (s : Shape) → HasShape self.now.tables ty.now s → option_map (λ f. f.now) result ≡ flat_types_of (width memory64) s }
    {
        match self.flat_types(ty) {
            Some(flat) if memory64 => Some(flat.memory64),
            Some(flat) => Some(flat.memory32),
            None => None,
        }
    }

    /// The core signature of a side that lowers a live function.
    pub fn lower_signature(&self, side: &SideSig) -> Result<Signature, OutOfMemory>
        requires { side.now.ty.number < length self.now.tables.functions }
        ensures { (params results : List Shape) → HasSignature self.now.tables side.now.ty params results → IfOk result (λ s. s ≡ lower_signature_of side.now params results) }
    {
        let (taken, given) = self.types_of(side.ty);
        if side.async_ {
            return self.async_lower_signature(side.memory64, taken, given);
        }
        let params = self.flat_params(side.memory64, MAX_FLAT_PARAMS, taken)?;
        self.sync_results(params, side.memory64, given)
    }

    /// The core signature of these core parameters and of results of live types that a sync side lowers: they are flat, or written
    /// behind one more pointer.
    fn sync_results(
        &self,
        params: Seq<ValType>,
        memory64: bool,
        given: &[InterfaceType],
    ) -> Result<Signature, OutOfMemory>
        requires { All (IsLive self.now.tables) given.now }
        ensures { (results : List Shape) → HaveShapes self.now.tables given.now results → IfOk result (λ s. s ≡ with_results params memory64 results) }
    {
        let mut params = params;
        match self.flatten_types(memory64, MAX_FLAT_RESULTS, given)? {
            Some(results) => Ok(Signature { params, results }),
            None => {
                params.push(address(memory64))?;
                let results = self.no_values();
                Ok(Signature { params, results })
            }
        }
    }

    /// The core signature of an async side that lowers a function of these live types.
    fn async_lower_signature(
        &self,
        memory64: bool,
        taken: &[InterfaceType],
        given: &[InterfaceType],
    ) -> Result<Signature, OutOfMemory>
        requires { All (IsLive self.now.tables) taken.now }
        ensures { (params results : List Shape) → HaveShapes self.now.tables taken.now params → HaveShapes self.now.tables given.now results → IfOk result (λ s. s ≡ async_lower memory64 params results) }
    {
        let params = self.flat_params(memory64, MAX_FLAT_ASYNC_PARAMS, taken)?;
        let params = with_pointer(params, memory64, given)?;
        let results = self.one_value(ValType::I32)?;
        Ok(Signature { params, results })
    }

    /// The core signature of a side that lifts a live function.
    pub fn lift_signature(&self, side: &SideSig) -> Result<Signature, OutOfMemory>
        requires { side.now.ty.number < length self.now.tables.functions }
        ensures { (params results : List Shape) → HasSignature self.now.tables side.now.ty params results → IfOk result (λ s. s ≡ lift_signature_of side.now params results) }
    {
        let (taken, given) = self.types_of(side.ty);
        let params = self.flat_params(side.memory64, MAX_FLAT_PARAMS, taken)?;
        if !side.async_ {
            let results = self.flat_params(side.memory64, MAX_FLAT_RESULTS, given)?;
            return Ok(Signature { params, results });
        }
        if side.callback {
            let results = self.one_value(ValType::I32)?;
            return Ok(Signature { params, results });
        }
        let results = self.no_values();
        Ok(Signature { params, results })
    }

    /// The core signature of the function of an async adapter that the runtime calls when the callee is to start: it takes the
    /// parameters of the side that lowers, without its return pointer, and gives those of the side that lifts.
    pub fn async_start_signature(
        &self,
        lower: &SideSig,
        lift: &SideSig,
    ) -> Result<Signature, OutOfMemory>
        requires lower_live { lower.now.ty.number < length self.now.tables.functions }
        requires lift_live { lift.now.ty.number < length self.now.tables.functions }
        ensures { (ps rs qs ss : List Shape) → HasSignature self.now.tables lower.now.ty ps rs → HasSignature self.now.tables lift.now.ty qs ss → IfOk result (λ s. s ≡ async_start_signature_of lower.now lift.now ps qs) }
    {
        let (taken, _) = self.types_of(lower.ty);
        let (wanted, _) = self.types_of(lift.ty);
        let params = self.flat_params(lower.memory64, lower_limit(lower.async_), taken)?;
        let results = self.flat_params(lift.memory64, MAX_FLAT_PARAMS, wanted)?;
        Ok(Signature { params, results })
    }

    /// The core signature of the function of an async adapter that the runtime calls with the callee's results: it takes those of the
    /// side that lifts, and behind them the return pointer of the side that lowers, where it has one; it gives the flat results of a
    /// sync side that lowers. The return pointer is an address of the memory of the side that lowers.
    pub fn async_return_signature(
        &self,
        lower: &SideSig,
        lift: &SideSig,
    ) -> Result<Signature, OutOfMemory>
        requires lower_live { lower.now.ty.number < length self.now.tables.functions }
        requires lift_live { lift.now.ty.number < length self.now.tables.functions }
        ensures { (ps rs qs ss : List Shape) → HasSignature self.now.tables lower.now.ty ps rs → HasSignature self.now.tables lift.now.ty qs ss → IfOk result (λ s. s ≡ async_return_signature_of lower.now lift.now rs ss) }
    {
        let (_, given) = self.types_of(lift.ty);
        let (_, wanted) = self.types_of(lower.ty);
        let params = self.flat_params(lift.memory64, lift_results_limit(lift.async_), given)?;
        if lower.async_ {
            let params = with_pointer(params, lower.memory64, wanted)?;
            let results = self.no_values();
            return Ok(Signature { params, results });
        }
        self.sync_results(params, lower.memory64, wanted)
    }

    /// The types of the parameters and of the results of a live function.
    fn types_of(&self, ty: TypeFuncIndex) -> (&[InterfaceType], &[InterfaceType])
        requires { ty.number < length self.now.tables.functions }
        ensures taken_live { All (IsLive self.now.tables) result.0.now }
        ensures given_live { All (IsLive self.now.tables) result.1.now }
        ensures taken { (params results : List Shape) → HasSignature self.now.tables ty params results → HaveShapes self.now.tables result.0.now params }
        ensures given { (params results : List Shape) → HasSignature self.now.tables ty params results → HaveShapes self.now.tables result.1.now results }
    {
        let types = self.component_types();
        types.reveal();
        let func = &types[ty];
        (
            types[func.params].types.as_slice(),
            types[func.results].types.as_slice(),
        )
    }

    /// The types of the parameters of a live function.
    pub fn params_of(&self, ty: TypeFuncIndex) -> &[InterfaceType]
        requires { ty.number < length self.now.tables.functions }
        ensures live { All (IsLive self.now.tables) result.now }
        ensures shaped { (params results : List Shape) → HasSignature self.now.tables ty params results → HaveShapes self.now.tables result.now params }
    {
        let (params, _) = self.types_of(ty);
        params
    }

    /// The types of the results of a live function.
    pub fn results_of(&self, ty: TypeFuncIndex) -> &[InterfaceType]
        requires { ty.number < length self.now.tables.functions }
        ensures live { All (IsLive self.now.tables) result.now }
        ensures shaped { (params results : List Shape) → HasSignature self.now.tables ty params results → HaveShapes self.now.tables result.now results }
    {
        let (_, results) = self.types_of(ty);
        results
    }

    /// The core types of values of live types, or of a pointer to them where there are more than `max`.
    fn flat_params(
        &self,
        memory64: bool,
        max: usize,
        tys: &[InterfaceType],
    ) -> Result<Seq<ValType>, OutOfMemory>
        requires { All (IsLive self.now.tables) tys.now }
        ensures { (ss : List Shape) → HaveShapes self.now.tables tys.now ss → IfOk result (λ values. values ≡ flat_params_of memory64 max ss) }
    {
        match self.flatten_types(memory64, max, tys)? {
            Some(values) => Ok(values),
            None => {
                let values = self.one_value(address(memory64))?;
                Ok(values)
            }
        }
    }

    /// A list of no types.
    fn no_values(&self) -> Seq<ValType>
        ensures { result ≡ [] }
    {
        Seq::new(self.types.allocator())
    }

    /// A list of one type.
    fn one_value(&self, ty: ValType) -> Result<Seq<ValType>, OutOfMemory>
        ensures { IfOk result (λ values. values ≡ ty ∷ []) }
    {
        let mut values = self.no_values();
        values.push(ty)?;
        Ok(values)
    }
}
