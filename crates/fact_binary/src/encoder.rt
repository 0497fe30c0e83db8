//! The bytes of modules (core specification, "Binary format", "Modules").

ghost use Rattle.std.specs.Prelude.{◌≡◌, ℕ, ◌<◌, ◌^◌, ◌++◌, ◌∷◌, [], OnOk, IfOk, length, count_by, IsUtf8};
ghost use Rattle.fact_binary.specs.Numbers.{unsigned};
ghost use Rattle.fact_binary.specs.Grammar.{list, IsList, val_type, AreNodes, body_nodes};
ghost use Rattle.fact_binary.specs.Encode.{ArePlaced};
ghost use Rattle.fact_wasm.specs.Ranges.{InRange, is_function, imported_functions};
ghost use Rattle.fact_binary.specs.Spelling.{value_types, func_type, name, import_type, import_item, locals_run, func_body, sized, section, export_item, type_section, import_section, function_section, export_section, code_section, Spells, IsValueType, IsFuncType, IsName, code_item, IsCode, IsImport, IsImportType, IsExport, IsRun, IsBody, HasTypeIndex};

use crate::code::{push_body, push_function, value_type_byte};
use crate::list::{Item, push_list};
use crate::number::push_unsigned;
use fact_wasm::{
    FuncType, ImportType, OutOfMemory, Text, ValType, WasmExport, WasmFunc, WasmImport, WasmModule,
    count_functions,
};
use std::alloc::{AllocError, Global};

/// Value types of a list.
struct ValueTypes;

impl Item<ValType> for ValueTypes {
    ghost code = { λ n t. val_type t ∷ [] };

    ghost fits = { λ n t. IsValueType t };

    fn push(
        _alloc: Global,
        out: &mut Vec<u8>,
        _imports: u32,
        ty: &ValType,
    ) -> Result<(), OutOfMemory> {
        out.push(value_type_byte(*ty))?;
        Ok(())
    }
}

/// Items of the type section.
struct Types;

impl Item<FuncType> for Types {
    ghost code = { λ n t. func_type t };

    ghost fits = { λ n t. IsFuncType t };

    fn push(
        alloc: Global,
        out: &mut Vec<u8>,
        imports: u32,
        ty: &FuncType,
    ) -> Result<(), OutOfMemory> {
        out.push(0x60)?;
        push_list::<ValueTypes, ValType>(alloc, out, imports, ty.params.as_slice())?;
        push_list::<ValueTypes, ValType>(alloc, out, imports, ty.results.as_slice())?;
        Ok(())
    }
}

/// Writes bytes behind their number. More of them than a u32 counts are a want of memory.
fn push_sized(out: &mut Vec<u8>, content: &[u8]) -> Result<(), OutOfMemory>
    ensures size { OnOk result (length content.now < 2 ^ 32) }
    ensures bytes { OnOk result (out.new.items ≡ out.old.items ++ sized content.now) }
{
    if content.len() > u32::MAX as usize {
        return Err(AllocError);
    }
    push_unsigned(out, content.len() as u64)?;
    out.extend_from_slice(content)?;
    Ok(())
}

fn push_name(out: &mut Vec<u8>, text: &Text) -> Result<(), OutOfMemory>
    ensures { OnOk result (IsName text.now × (out.new.items ≡ out.old.items ++ name text.now)) }
{
    push_sized(out, text.as_str().as_bytes())
}

fn push_import_type(out: &mut Vec<u8>, ty: &ImportType) -> Result<(), OutOfMemory>
    ensures { OnOk result (IsImportType ty.now × (out.new.items ≡ out.old.items ++ import_type ty.now)) }
{
    match ty {
        ImportType::Func(index) => {
            out.push(0x00)?;
            push_unsigned(out, *index as u64)
        }
        ImportType::Memory {
            minimum,
            memory64,
            page_size_log2: None,
        } => {
            out.extend_from_slice(&[0x02, if *memory64 { 4 } else { 0 }])?;
            push_unsigned(out, *minimum)
        }
        ImportType::Memory {
            minimum,
            memory64,
            page_size_log2: Some(log2),
        } => {
            out.extend_from_slice(&[0x02, if *memory64 { 12 } else { 8 }])?;
            push_unsigned(out, *minimum)?;
            push_unsigned(out, *log2 as u64)
        }
        ImportType::Global { ty, mutable } => {
            out.extend_from_slice(&[0x03, value_type_byte(*ty), if *mutable { 1 } else { 0 }])
        }
    }
}

/// Items of the import section.
struct Imports;

impl Item<WasmImport> for Imports {
    ghost code = { λ n i. import_item i };

    ghost fits = { λ n i. IsImport i };

    fn push(
        _alloc: Global,
        out: &mut Vec<u8>,
        _imports: u32,
        import: &WasmImport,
    ) -> Result<(), OutOfMemory> {
        push_name(out, &import.module)?;
        push_name(out, &import.name)?;
        push_import_type(out, &import.ty)
    }
}

/// Items of the function section.
struct Functions;

impl Item<WasmFunc> for Functions {
    ghost code = { λ n f. unsigned f.ty };

    ghost fits = { λ n f. HasTypeIndex f };

    fn push(
        _alloc: Global,
        out: &mut Vec<u8>,
        _imports: u32,
        func: &WasmFunc,
    ) -> Result<(), OutOfMemory> {
        push_unsigned(out, func.ty as u64)
    }
}

/// Items of the export section.
struct Exports;

impl Item<WasmExport> for Exports {
    ghost code = { export_item };

    ghost fits = { IsExport };

    fn push(
        _alloc: Global,
        out: &mut Vec<u8>,
        imports: u32,
        export: &WasmExport,
    ) -> Result<(), OutOfMemory> {
        push_name(out, &export.name)?;
        out.push(0x00)?;
        push_function(out, imports, export.func)
    }
}

/// Runs of locals of one type.
struct Locals;

impl Item<(u32, ValType)> for Locals {
    ghost code = { λ n r. locals_run r };

    ghost fits = { λ n r. IsRun r };

    fn push(
        _alloc: Global,
        out: &mut Vec<u8>,
        _imports: u32,
        run: &(u32, ValType),
    ) -> Result<(), OutOfMemory> {
        push_unsigned(out, run.0 as u64)?;
        out.push(value_type_byte(run.1))?;
        Ok(())
    }
}

fn body_bytes(alloc: Global, imports: u32, func: &WasmFunc) -> Result<Vec<u8>, OutOfMemory>
    ensures bytes { IfOk result (λ v. v.items ≡ func_body imports func.now.locals func.now.body) }
    ensures runs { OnOk result (IsList IsRun func.now.locals) }
    ensures nodes { OnOk result (ArePlaced func.now.body → AreNodes (body_nodes imports func.now.body)) }
{
    let mut content = Vec::new(alloc);
    push_list::<Locals, (u32, ValType)>(alloc, &mut content, imports, func.locals.as_slice())?;
    push_body(alloc, &mut content, imports, func.body.as_slice())?;
    content.push(0x0B)?;
    Ok(content)
}

/// Items of the code section.
struct Bodies;

impl Item<WasmFunc> for Bodies {
    ghost code = { code_item };

    ghost fits = { λ n f. ArePlaced f.body → IsCode n f };

    fn push(
        alloc: Global,
        out: &mut Vec<u8>,
        imports: u32,
        func: &WasmFunc,
    ) -> Result<(), OutOfMemory> {
        let content = body_bytes(alloc, imports, func)?;
        push_sized(out, content.as_slice())?;
        Ok(())
    }
}

/// Writes a section, a list. Its content of 2^32 bytes or more is a want of memory.
fn push_section<I: Item<T>, T>(
    alloc: Global,
    out: &mut Vec<u8>,
    id: u8,
    imports: u32,
    items: &[T],
) -> Result<(), OutOfMemory>
    ensures size { OnOk result (length (list (I.code imports) items.now) < 2 ^ 32) }
    ensures items { OnOk result (IsList (I.fits imports) items.now) }
    ensures bytes { OnOk result (out.new.items ≡ out.old.items ++ section id (list (I.code imports) items.now)) }
{
    let mut content = Vec::new(alloc);
    push_list::<I, T>(alloc, &mut content, imports, items)?;
    out.push(id)?;
    push_sized(out, content.as_slice())?;
    Ok(())
}

/// The bytes that spell the module, by the binary format. A list or a section of 2^32 or more items or bytes, which the format
/// cannot hold, is a want of memory.
pub fn encode(alloc: Global, module: &WasmModule) -> Result<Vec<u8>, OutOfMemory>
    requires { InRange «module».now }
    ensures { IfOk result (λ bytes. Spells bytes.items «module».now) }
{
    let imports = count_functions(module.imports.as_slice()) as u32;
    let mut out = Vec::from_slice(alloc, &[0x00, 0x61, 0x73, 0x6D, 0x01, 0x00, 0x00, 0x00])?;
    push_section::<Types, FuncType>(alloc, &mut out, 0x01, imports, module.types.as_slice())?;
    push_section::<Imports, WasmImport>(alloc, &mut out, 0x02, imports, module.imports.as_slice())?;
    push_section::<Functions, WasmFunc>(alloc, &mut out, 0x03, imports, module.funcs.as_slice())?;
    push_section::<Exports, WasmExport>(alloc, &mut out, 0x07, imports, module.exports.as_slice())?;
    push_section::<Bodies, WasmFunc>(alloc, &mut out, 0x0A, imports, module.funcs.as_slice())?;
    Ok(out)
}
