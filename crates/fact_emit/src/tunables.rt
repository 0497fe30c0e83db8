//! What a module is made with: tunables and features.

/// What the adapters of a module may use of concurrency, whether they check what the canonical ABI says of them, and the
/// fuel of a function: how much translation it may hold before parts of it become helpers. The fuel is at least 1.
#[derive(Clone, Copy)]
pub struct Tunables {
    pub concurrency_support: bool,
    pub debug_adapter_modules: bool,
    pub fuel: u32,
}

/// What the engine has of WebAssembly's further features.
#[derive(Clone, Copy)]
pub struct WasmFeatures {
    pub exceptions: bool,
}
