//! The data that an adapter's code is written by: [`AdapterData`], whose core items are places of imports.

ghost use Rattle.std.specs.Prelude.{◌≡◌};
ghost use Rattle.fact_compound.specs.Passed.{params_sides as sides_of_params, results_sides as sides_of_results};
ghost use Rattle.fact_compound.specs.Described.{linear_of as linear_of_side, side_sig as sig_of_side};

pub use fact_emit::{LinearMemoryOptions, Options};
use fact_emit::{LinearMemory, Sides};
use fact_entity::{FuncIndex, GlobalIndex, RuntimeComponentInstanceIndex, TypeFuncIndex};
use fact_types::SideSig;
use fact_wasm::Text;

/// One side of an adapter: its instance, its function type, the place of the instance's flags among the imported globals, and its
/// options.
#[derive(Clone, Copy)]
pub struct AdapterOptions {
    pub instance: RuntimeComponentInstanceIndex,
    pub ty: TypeFuncIndex,
    pub flags: GlobalIndex,
    pub post_return: Option<FuncIndex>,
    pub options: Options,
}

/// An adapter: the name that it is exported by, the side that lifts the callee, the side that lowers it, and the callee's place
/// among the imported functions.
#[derive(Drop)]
pub struct AdapterData {
    pub name: Text,
    pub lift: AdapterOptions,
    pub lower: AdapterOptions,
    pub callee: FuncIndex,
    pub transparent: bool,
}

impl AdapterOptions {
    /// What the core signature of the side hangs on.
    pub fn side_sig(&self) -> SideSig
        ensures { result ≡ sig_of_side self.now }
    {
        SideSig {
            ty: self.ty,
            async_: self.options.async_,
            callback: self.options.callback.is_some(),
            memory64: self.options.linear.memory64,
        }
    }

    /// The side's memory as code uses it.
    pub fn linear(&self) -> LinearMemory
        ensures { result ≡ linear_of_side self.now }
    {
        self.options.linear()
    }
}

impl AdapterData {
    /// The sides of parameters: from the lower side to the lift side.
    pub fn params_sides(&self, debug: bool, concurrency: bool) -> Sides
        ensures { result ≡ sides_of_params self.now debug concurrency }
    {
        Sides {
            from: self.lower.linear(),
            to: self.lift.linear(),
            debug,
            concurrency,
        }
    }

    /// The sides of results: from the lift side to the lower side.
    pub fn results_sides(&self, debug: bool, concurrency: bool) -> Sides
        ensures { result ≡ sides_of_results self.now debug concurrency }
    {
        Sides {
            from: self.lift.linear(),
            to: self.lower.linear(),
            debug,
            concurrency,
        }
    }
}
