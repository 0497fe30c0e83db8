//! A module that can be called, and its call.

ghost use Rattle.std.specs.Prelude.{◌≡◌, ◌∷◌, [], IfOk};
ghost use Rattle.host_tests.specs.Samples.{calling_function, calling_module, callee_import, no_numbers, plain_call, plain_side, returning_function};

use fact_abi::SideAbi;
use fact_host::{HostCall, HostSide};
use fact_types::StringEncoding;
use fact_wasm::{
    FuncName, FuncType, ImportType, Instr, OutOfMemory, Seq, Text, WasmFunc, WasmImport, WasmModule,
};
use std::alloc::Global;

/// A side without a memory, whose function takes and gives nothing.
fn plain_side(alloc: Global, flags: u32) -> HostSide
    ensures { result ≡ plain_side flags }
{
    HostSide {
        abi: SideAbi {
            memory64: false,
            encoding: StringEncoding::Utf8,
        },
        memory: None,
        realloc: None,
        flags,
        params: Seq::new(alloc),
        results: Seq::new(alloc),
    }
}

/// A call of a function of a module by its number, whose callee is the first one that it imports.
pub fn plain_call(alloc: Global, func: u32) -> HostCall
    ensures { result ≡ plain_call func }
{
    HostCall {
        lower: plain_side(alloc, 0),
        lift: plain_side(alloc, 1),
        callee: 0,
        post_return: None,
        func,
    }
}

/// The type of functions that take and give nothing.
fn function_types(alloc: Global) -> Result<Seq<FuncType>, OutOfMemory>
    ensures { IfOk result (λ types. types ≡ no_numbers ∷ []) }
{
    let mut types = Seq::new(alloc);
    types.push(FuncType {
        params: Seq::new(alloc),
        results: Seq::new(alloc),
    })?;
    Ok(types)
}

/// The import of a callee.
fn callee_imports(alloc: Global) -> Result<Seq<WasmImport>, OutOfMemory>
    ensures { IfOk result (λ imports. imports ≡ callee_import ∷ []) }
{
    let mut imports = Seq::new(alloc);
    imports.push(WasmImport {
        module: Text::from_str(alloc, "callee")?,
        name: Text::from_str(alloc, "f")?,
        ty: ImportType::Func(0),
    })?;
    Ok(imports)
}

/// The code that calls the first imported function.
fn calling_code(alloc: Global) -> Result<Seq<Instr>, OutOfMemory>
    ensures { IfOk result (λ code. code ≡ calling_function.body) }
{
    let mut code = Seq::new(alloc);
    code.push(Instr::Call(FuncName::Import(0)))?;
    Ok(code)
}

/// A function that calls the first imported one, and one that returns at once.
fn functions(alloc: Global) -> Result<Seq<WasmFunc>, OutOfMemory>
    ensures { IfOk result (λ funcs. funcs ≡ calling_function ∷ returning_function ∷ []) }
{
    let mut funcs = Seq::new(alloc);
    funcs.push(WasmFunc {
        ty: 0,
        locals: Seq::new(alloc),
        body: calling_code(alloc)?,
    })?;
    funcs.push(WasmFunc {
        ty: 0,
        locals: Seq::new(alloc),
        body: Seq::new(alloc),
    })?;
    Ok(funcs)
}

/// A module whose first function calls the one that it imports, and whose second one returns at once.
pub fn calling_module(alloc: Global) -> Result<WasmModule, OutOfMemory>
    ensures { IfOk result (λ m. m ≡ calling_module) }
{
    Ok(WasmModule {
        types: function_types(alloc)?,
        imports: callee_imports(alloc)?,
        funcs: functions(alloc)?,
        exports: Seq::new(alloc),
    })
}
