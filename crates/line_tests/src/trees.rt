//! How modules are told. Types are `[PARAMETERS] -> [RESULTS]`, imports their two names and what they are, functions their type and runs of
//! locals, exports their name and function, each behind ` ; `. Instructions have the names of the text format (core specification, "Text
//! Format", "Instructions"), with its bodies between `(` and `)`. A place in memory is its offset, its alignment and its memory.

use crate::words::{number_of, word_of};
use fact_wasm::{
    BlockType, FuncName, FuncType, ImportType, Instr, MemArg, ValType, WasmExport, WasmFunc,
    WasmImport, WasmModule,
};
use std::alloc::AllocError;

fn word_of_type(ty: ValType) -> &'static str {
    match ty {
        ValType::I32 => "i32",
        ValType::I64 => "i64",
        ValType::F32 => "f32",
        ValType::F64 => "f64",
        ValType::FuncRef => "funcref",
    }
}

pub fn add_types(page: &mut String, types: &[ValType]) -> Result<(), AllocError> {
    page.push('[')?;
    for (place, ty) in types.iter().enumerate() {
        page.push_str(if place == 0 { "" } else { " " })?;
        page.push_str(word_of_type(*ty))?;
    }
    page.push(']')
}

fn add_signatures(page: &mut String, types: &[FuncType]) -> Result<(), AllocError> {
    for ty in types {
        page.push_str("; ")?;
        add_types(page, ty.params.as_slice())?;
        page.push_str(" -> ")?;
        add_types(page, ty.results.as_slice())?;
        page.push(' ')?;
    }
    Ok(())
}

fn add_func(page: &mut String, func: FuncName) -> Result<(), AllocError> {
    match func {
        FuncName::Import(number) => write!(page, "import:{number}"),
        FuncName::Defined(number) => write!(page, "func:{number}"),
    }
}

fn add_memory(
    page: &mut String,
    minimum: u64,
    memory64: bool,
    page_size_log2: Option<u32>,
) -> Result<(), AllocError> {
    write!(page, "memory {minimum} {}", if memory64 { 64 } else { 32 })?;
    match page_size_log2 {
        Some(log2) => write!(page, " pages {log2}"),
        None => Ok(()),
    }
}

fn add_import_type(page: &mut String, ty: &ImportType) -> Result<(), AllocError> {
    match ty {
        ImportType::Func(ty) => write!(page, "func {ty}"),
        ImportType::Memory {
            minimum,
            memory64,
            page_size_log2,
        } => add_memory(page, *minimum, *memory64, *page_size_log2),
        ImportType::Global { ty, mutable } => {
            page.push_str(if *mutable { "global mut " } else { "global " })?;
            page.push_str(word_of_type(*ty))
        }
    }
}

fn add_imports(page: &mut String, imports: &[WasmImport]) -> Result<(), AllocError> {
    for import in imports {
        let (module, name) = (import.module.as_str(), import.name.as_str());
        write!(page, "; \"{module}\" \"{name}\" ")?;
        add_import_type(page, &import.ty)?;
        page.push(' ')?;
    }
    Ok(())
}

fn add_locals(page: &mut String, runs: &[(u32, ValType)]) -> Result<(), AllocError> {
    for (count, ty) in runs {
        write!(page, " {count} {}", word_of_type(*ty))?;
    }
    Ok(())
}

fn add_functions(page: &mut String, funcs: &[WasmFunc]) -> Result<(), AllocError> {
    for func in funcs {
        write!(page, "; {}", func.ty)?;
        add_locals(page, func.locals.as_slice())?;
        page.push(' ')?;
    }
    Ok(())
}

fn add_exports(page: &mut String, exports: &[WasmExport]) -> Result<(), AllocError> {
    for export in exports {
        write!(page, "; \"{}\" ", export.name.as_str())?;
        add_func(page, export.func)?;
        page.push(' ')?;
    }
    Ok(())
}

fn add_labels(page: &mut String, labels: &[u32]) -> Result<(), AllocError> {
    for label in labels {
        write!(page, " {label}")?;
    }
    Ok(())
}

/// The name of an instruction.
fn word_of_instr(instr: &Instr) -> &'static str {
    match instr {
        Instr::Block(_, _) => "block",
        Instr::Loop(_, _) => "loop",
        Instr::If(_, _, _) => "if",
        Instr::TryTable(_, _, _) => "try_table",
        Instr::Unreachable => "unreachable",
        Instr::Br(_) => "br",
        Instr::BrIf(_) => "br_if",
        Instr::BrTable(_, _) => "br_table",
        Instr::Call(_) => "call",
        Instr::Drop => "drop",
        Instr::Select => "select",
        Instr::LocalGet(_) => "local.get",
        Instr::LocalSet(_) => "local.set",
        Instr::LocalTee(_) => "local.tee",
        Instr::GlobalGet(_) => "global.get",
        Instr::GlobalSet(_) => "global.set",
        Instr::I32Load(_) => "i32.load",
        Instr::I64Load(_) => "i64.load",
        Instr::F32Load(_) => "f32.load",
        Instr::F64Load(_) => "f64.load",
        Instr::I32Load8S(_) => "i32.load8_s",
        Instr::I32Load8U(_) => "i32.load8_u",
        Instr::I32Load16S(_) => "i32.load16_s",
        Instr::I32Load16U(_) => "i32.load16_u",
        Instr::I32Store(_) => "i32.store",
        Instr::I64Store(_) => "i64.store",
        Instr::F32Store(_) => "f32.store",
        Instr::F64Store(_) => "f64.store",
        Instr::I32Store8(_) => "i32.store8",
        Instr::I32Store16(_) => "i32.store16",
        Instr::MemorySize(_) => "memory.size",
        Instr::I32Const(_) => "i32.const",
        Instr::I64Const(_) => "i64.const",
        Instr::F32Const(_) => "f32.const",
        Instr::F64Const(_) => "f64.const",
        Instr::I32Eqz => "i32.eqz",
        Instr::I32Eq => "i32.eq",
        Instr::I32Ne => "i32.ne",
        Instr::I32LtU => "i32.lt_u",
        Instr::I32GtU => "i32.gt_u",
        Instr::I32GeU => "i32.ge_u",
        Instr::I64Eqz => "i64.eqz",
        Instr::I64Eq => "i64.eq",
        Instr::I64Ne => "i64.ne",
        Instr::I64LtU => "i64.lt_u",
        Instr::I64GtU => "i64.gt_u",
        Instr::I64GeU => "i64.ge_u",
        Instr::I32Add => "i32.add",
        Instr::I32Sub => "i32.sub",
        Instr::I32Mul => "i32.mul",
        Instr::I32And => "i32.and",
        Instr::I32Or => "i32.or",
        Instr::I32Xor => "i32.xor",
        Instr::I32Shl => "i32.shl",
        Instr::I32ShrU => "i32.shr_u",
        Instr::I64Add => "i64.add",
        Instr::I64Sub => "i64.sub",
        Instr::I64Mul => "i64.mul",
        Instr::I64And => "i64.and",
        Instr::I64Or => "i64.or",
        Instr::I64Xor => "i64.xor",
        Instr::I64Shl => "i64.shl",
        Instr::I64ShrU => "i64.shr_u",
        Instr::I32WrapI64 => "i32.wrap_i64",
        Instr::I64ExtendI32U => "i64.extend_i32_u",
        Instr::I32ReinterpretF32 => "i32.reinterpret_f32",
        Instr::I64ReinterpretF64 => "i64.reinterpret_f64",
        Instr::F32ReinterpretI32 => "f32.reinterpret_i32",
        Instr::F64ReinterpretI64 => "f64.reinterpret_i64",
        Instr::I32Extend8S => "i32.extend8_s",
        Instr::I32Extend16S => "i32.extend16_s",
        Instr::RefFunc(_) => "ref.func",
    }
}

/// Adds what a block takes and gives.
fn add_block_type(page: &mut String, ty: BlockType) -> Result<(), AllocError> {
    match ty {
        BlockType::Empty => Ok(()),
        BlockType::Result(ty) => write!(page, " {}", word_of_type(ty)),
        BlockType::FunctionType(number) => write!(page, " {number}"),
    }
}

fn add_place(page: &mut String, place: &MemArg) -> Result<(), AllocError> {
    let (offset, align, memory) = (place.offset, place.align, place.memory_index);
    write!(page, " {offset} {align} {memory}")
}

/// Adds what stands behind the name of an instruction, but for its bodies.
fn add_immediates(page: &mut String, instr: &Instr) -> Result<(), AllocError> {
    match instr {
        Instr::Block(ty, _) | Instr::Loop(ty, _) | Instr::If(ty, _, _) => add_block_type(page, *ty),
        Instr::TryTable(ty, labels, _) => {
            add_block_type(page, *ty)?;
            page.push_str(" catch_all")?;
            add_labels(page, labels.as_slice())
        }
        Instr::BrTable(labels, last) => {
            add_labels(page, labels.as_slice())?;
            write!(page, " {last}")
        }
        Instr::Call(func) | Instr::RefFunc(func) => {
            page.push(' ')?;
            add_func(page, *func)
        }
        Instr::Br(number)
        | Instr::BrIf(number)
        | Instr::LocalGet(number)
        | Instr::LocalSet(number)
        | Instr::LocalTee(number)
        | Instr::GlobalGet(number)
        | Instr::GlobalSet(number)
        | Instr::MemorySize(number)
        | Instr::I32Const(number)
        | Instr::F32Const(number) => write!(page, " {number}"),
        Instr::I64Const(number) | Instr::F64Const(number) => write!(page, " {number}"),
        Instr::I32Load(place)
        | Instr::I64Load(place)
        | Instr::F32Load(place)
        | Instr::F64Load(place)
        | Instr::I32Load8S(place)
        | Instr::I32Load8U(place)
        | Instr::I32Load16S(place)
        | Instr::I32Load16U(place)
        | Instr::I32Store(place)
        | Instr::I64Store(place)
        | Instr::F32Store(place)
        | Instr::F64Store(place)
        | Instr::I32Store8(place)
        | Instr::I32Store16(place) => add_place(page, place),
        _ => Ok(()),
    }
}

/// Adds the bodies of an instruction, each between `(` and `)`.
#[cycle(bodies)]
fn add_bodies(page: &mut String, instr: &Instr) -> Result<(), AllocError> {
    match instr {
        Instr::Block(_, body) | Instr::Loop(_, body) | Instr::TryTable(_, _, body) => {
            add_body(page, body.as_slice())
        }
        Instr::If(_, then, None) => add_body(page, then.as_slice()),
        Instr::If(_, then, Some(other)) => {
            add_body(page, then.as_slice())?;
            page.push_str(" else")?;
            add_body(page, other.as_slice())
        }
        _ => Ok(()),
    }
}

#[cycle(bodies)]
fn add_body(page: &mut String, body: &[Instr]) -> Result<(), AllocError> {
    page.push_str(" (")?;
    for instr in body {
        page.push(' ')?;
        page.push_str(word_of_instr(instr))?;
        add_immediates(page, instr)?;
        add_bodies(page, instr)?;
    }
    page.push_str(" )")
}

/// Adds a part of a module: `types`, `imports`, `functions`, `exports`, or `body` and the number of a function.
pub fn add_tree(page: &mut String, module: &WasmModule, part: &str) -> Result<(), AllocError> {
    match word_of(part) {
        ("types", _) => add_signatures(page, module.types.as_slice()),
        ("imports", _) => add_imports(page, module.imports.as_slice()),
        ("functions", _) => add_functions(page, module.funcs.as_slice()),
        ("exports", _) => add_exports(page, module.exports.as_slice()),
        (_, number) => match module.funcs.get(number_of(number) as usize) {
            Some(func) => add_body(page, func.body.as_slice()),
            None => page.push_str("no such function"),
        },
    }
}
