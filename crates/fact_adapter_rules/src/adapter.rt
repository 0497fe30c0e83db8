//! Adapters over the types of a builder.

use fact_entity::{ModuleInternedTypeIndex, RuntimeComponentInstanceIndex, TypeFuncIndex};
use fact_types::{CoreDef, MemoryOption, StringEncoding};

/// The options of one side of an adapter (canonical ABI, "Canonical ABI options"), its component instance, and the core
/// type of its function.
pub struct AdapterOptionsDfg {
    pub instance: RuntimeComponentInstanceIndex,
    pub string_encoding: StringEncoding,
    pub memory: Option<MemoryOption>,
    pub realloc: Option<CoreDef>,
    pub callback: Option<CoreDef>,
    pub post_return: Option<CoreDef>,
    pub async_: bool,
    pub core_type: ModuleInternedTypeIndex,
}

/// An adapter: the core definition `func`, lifted with the type `lift_ty` and lowered with the type `lower_ty`.
pub struct Adapter {
    pub lift_ty: TypeFuncIndex,
    pub lift_options: AdapterOptionsDfg,
    pub lower_ty: TypeFuncIndex,
    pub lower_options: AdapterOptionsDfg,
    pub func: CoreDef,
}

// Options, and adapters, end by functions of their own, so that crates that end some prove nothing of their parts.
impl Drop for AdapterOptionsDfg {
    fn drop(self) {
        let AdapterOptionsDfg {
            instance: _,
            string_encoding: _,
            memory,
            realloc,
            callback,
            post_return,
            async_: _,
            core_type: _,
        } = self;
        drop(memory);
        drop(realloc);
        drop(callback);
        drop(post_return);
    }
}

impl Drop for Adapter {
    fn drop(self) {
        let Adapter {
            lift_ty: _,
            lift_options,
            lower_ty: _,
            lower_options,
            func,
        } = self;
        drop(lift_options);
        drop(lower_options);
        drop(func);
    }
}
