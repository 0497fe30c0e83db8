//! The module that bytes spell (core specification, "Binary format", "Modules").

ghost use Rattle.std.specs.Prelude.{◌≡◌, ℕ, Bool, Option, ◌<◌, ◌^◌, ◌++◌, ◌∷◌, [], List, map, length, IfOk, IsErrOf, IsUtf8, count_by};
ghost use Rattle.fact_wasm.specs.declared.module.ImportType.{ImportType};
ghost use Rattle.fact_wasm.specs.declared.types.FuncType.{FuncType};
ghost use Rattle.fact_binary.specs.declared.decoder.CodeBody.{CodeBody};
ghost use Rattle.fact_wasm.specs.declared.module.WasmImport.{WasmImport};
ghost use Rattle.fact_wasm.specs.declared.module.WasmExport.{WasmExport};
ghost use Rattle.fact_wasm.specs.declared.module.WasmFunc.{WasmFunc};
ghost use Rattle.fact_wasm.specs.declared.module.WasmModule.{WasmModule};
ghost use Rattle.fact_binary.specs.Answers.{IfRead};
ghost use Rattle.fact_binary.specs.Numbers.{unsigned};
ghost use Rattle.fact_binary.specs.Grammar.{val_type, IsIndex, list, IsList};
ghost use Rattle.fact_binary.specs.Spelling.{IsValueType, func_type, IsFuncType, name, IsName, mutability, memory_type, IsMemoryType, import_type, IsImportType, import_item, IsImport, locals_run, IsRun, export_item, header, Spells};
ghost use Rattle.fact_binary.specs.Owned.{IsModuleFront, IsBack, IsOwnExport, IsOwnCode, IsOwn, code_of, type_index, body_of};
ghost use Rattle.fact_wasm.specs.Ranges.{InRange};
ghost use Rattle.fact_binary.specs.declared.error.DecodeError.TheVariants as DecodeError;

use crate::error::DecodeError;
use crate::forms::function_of;
use crate::read_code::{body_at, value_type};
use crate::read_list::{ReadItem, list_at, section_at};
use crate::reading::{byte_at, sized_at, u32_at, u64_at};
use fact_wasm::{
    FuncType, ImportType, Instr, Seq, Text, ValType, WasmExport, WasmFunc, WasmImport, WasmModule,
    count_functions,
};
use std::alloc::Global;

/// How many bodies [`decode`] takes within one another: that of a function, and those of blocks, loops, ifs and `try_table`s in it.
/// No adapter has more: at most 12,905 come together where types nest as deep as they may.
pub const MAX_NESTING: u32 = 13_000;

/// The value type at the front.
pub fn value_type_at(bytes: &[u8]) -> Result<(ValType, &[u8]), DecodeError>
    ensures found { IfOk result (λ x. bytes.now ≡ val_type x.0 ∷ x.1.now) }
    ensures only { (t : _) (rest : List ℕ) → bytes.now ≡ val_type t ∷ rest → IfRead result (λ x. (x.0 ≡ t) × (x.1.now ≡ rest)) }
{
    let (byte, rest) = byte_at(bytes)?;
    match value_type(byte) {
        Some(ty) => Ok((ty, rest)),
        None => Err(DecodeError::NotInGrammar),
    }
}

/// Value types of a list.
struct ValueTypes;

impl ReadItem<ValType> for ValueTypes {
    ghost code = { λ n t. val_type t ∷ [] };

    ghost fits = { λ n t. IsValueType t };

    fn read(_alloc: Global, _imports: u32, bytes: &[u8]) -> Result<(ValType, &[u8]), DecodeError> {
        value_type_at(bytes)
    }
}

/// Items of the type section.
struct Types;

impl ReadItem<FuncType> for Types {
    ghost code = { λ n t. func_type t };

    ghost fits = { λ n t. IsFuncType t };

    fn read(alloc: Global, imports: u32, bytes: &[u8]) -> Result<(FuncType, &[u8]), DecodeError> {
        let (form, rest) = byte_at(bytes)?;
        if form != 0x60 {
            return Err(DecodeError::NotInGrammar);
        }
        let (params, rest) = list_at::<ValueTypes, ValType>(alloc, imports, rest)?;
        let (results, rest) = list_at::<ValueTypes, ValType>(alloc, imports, rest)?;
        Ok((FuncType { params, results }, rest))
    }
}

/// The name at the front.
fn name_at(alloc: Global, bytes: &[u8]) -> Result<(Text, &[u8]), DecodeError>
    ensures found { IfOk result (λ x. IsName x.0 × (bytes.now ≡ name x.0 ++ x.1.now)) }
    ensures only { (text rest : List ℕ) → IsName text → bytes.now ≡ name text ++ rest → IfRead result (λ x. (x.0 ≡ text) × (x.1.now ≡ rest)) }
{
    let (content, rest) = sized_at(bytes)?;
    let text = std::str::from_utf8(content)
        .ok()
        .ok_or(DecodeError::NotInGrammar)?;
    Ok((Text::from_str(alloc, text)?, rest))
}

/// Whether a global is mutable.
fn mutability_at(bytes: &[u8]) -> Result<(bool, &[u8]), DecodeError>
    ensures found { IfOk result (λ x. bytes.now ≡ mutability x.0 ∷ x.1.now) }
    ensures only { (b : Bool) (rest : List ℕ) → bytes.now ≡ mutability b ∷ rest → IfRead result (λ x. (x.0 ≡ b) × (x.1.now ≡ rest)) }
{
    let (byte, rest) = byte_at(bytes)?;
    match byte {
        0 => Ok((false, rest)),
        1 => Ok((true, rest)),
        _ => Err(DecodeError::NotInGrammar),
    }
}

/// The least number of pages of a memory, whether it has addresses of 64 bits, and its page size.
fn memory_at(bytes: &[u8]) -> Result<(u64, bool, Option<u32>, &[u8]), DecodeError>
    ensures found { IfOk result (λ x. IsMemoryType x.0 x.2 × (bytes.now ≡ memory_type x.0 x.1 x.2 ++ x.3.now)) }
    ensures only { (least : ℕ) (wide : Bool) (page : Option ℕ) (rest : List ℕ) → IsMemoryType least page → bytes.now ≡ memory_type least wide page ++ rest
        → IfRead result (λ x. (x.0 ≡ least) × (x.1 ≡ wide) × (x.2 ≡ page) × (x.3.now ≡ rest)) }
{
    let (flags, rest) = byte_at(bytes)?;
    if flags > 12 || flags % 4 != 0 {
        return Err(DecodeError::NotInGrammar);
    }
    let (minimum, rest) = u64_at(rest)?;
    let memory64 = flags % 8 == 4;
    if flags < 8 {
        return Ok((minimum, memory64, None, rest));
    }
    let (log2, rest) = u32_at(rest)?;
    Ok((minimum, memory64, Some(log2), rest))
}

/// What an import is.
fn import_type_at(bytes: &[u8]) -> Result<(ImportType, &[u8]), DecodeError>
    ensures found { IfOk result (λ x. IsImportType x.0 × (bytes.now ≡ import_type x.0 ++ x.1.now)) }
    ensures only { (t : ImportType) (rest : List ℕ) → IsImportType t → bytes.now ≡ import_type t ++ rest → IfRead result (λ x. (x.0 ≡ t) × (x.1.now ≡ rest)) }
{
    let (form, rest) = byte_at(bytes)?;
    match form {
        0x00 => {
            let (index, rest) = u32_at(rest)?;
            Ok((ImportType::Func(index), rest))
        }
        0x02 => {
            let (minimum, memory64, page_size_log2, rest) = memory_at(rest)?;
            Ok((
                ImportType::Memory {
                    minimum,
                    memory64,
                    page_size_log2,
                },
                rest,
            ))
        }
        0x03 => {
            let (ty, rest) = value_type_at(rest)?;
            let (mutable, rest) = mutability_at(rest)?;
            Ok((ImportType::Global { ty, mutable }, rest))
        }
        _ => Err(DecodeError::NotInGrammar),
    }
}

/// Items of the import section.
struct Imports;

impl ReadItem<WasmImport> for Imports {
    ghost code = { λ n i. import_item i };

    ghost fits = { λ n i. IsImport i };

    fn read(
        alloc: Global,
        _imports: u32,
        bytes: &[u8],
    ) -> Result<(WasmImport, &[u8]), DecodeError> {
        let (module, rest) = name_at(alloc, bytes)?;
        let (name, rest) = name_at(alloc, rest)?;
        let (ty, rest) = import_type_at(rest)?;
        Ok((WasmImport { module, name, ty }, rest))
    }
}

/// Items of the function section.
struct Functions;

impl ReadItem<u32> for Functions {
    ghost code = { λ n ty. unsigned ty };

    ghost fits = { λ n ty. IsIndex ty };

    fn read(_alloc: Global, _imports: u32, bytes: &[u8]) -> Result<(u32, &[u8]), DecodeError> {
        u32_at(bytes)
    }
}

/// Items of the export section.
struct Exports;

impl ReadItem<WasmExport> for Exports {
    ghost code = { export_item };

    ghost fits = { IsOwnExport };

    fn read(alloc: Global, imports: u32, bytes: &[u8]) -> Result<(WasmExport, &[u8]), DecodeError> {
        let (name, rest) = name_at(alloc, bytes)?;
        let (kind, rest) = byte_at(rest)?;
        if kind != 0x00 {
            return Err(DecodeError::NotInGrammar);
        }
        let (index, rest) = u32_at(rest)?;
        let func = function_of(imports, index);
        Ok((WasmExport { name, func }, rest))
    }
}

/// Runs of locals of one type.
struct Locals;

impl ReadItem<(u32, ValType)> for Locals {
    ghost code = { λ n r. locals_run r };

    ghost fits = { λ n r. IsRun r };

    fn read(
        _alloc: Global,
        _imports: u32,
        bytes: &[u8],
    ) -> Result<((u32, ValType), &[u8]), DecodeError> {
        let (count, rest) = u32_at(bytes)?;
        let (ty, rest) = value_type_at(rest)?;
        Ok(((count, ty), rest))
    }
}

/// The locals and the code of a function, as the code section has them.
#[derive(Drop)]
pub struct CodeBody {
    pub locals: Seq<(u32, ValType)>,
    pub body: Seq<Instr>,
}

/// Items of the code section.
struct Codes;

impl ReadItem<CodeBody> for Codes {
    ghost code = { code_of };

    ghost fits = { IsOwnCode };

    fn read(alloc: Global, imports: u32, bytes: &[u8]) -> Result<(CodeBody, &[u8]), DecodeError> {
        let (content, rest) = sized_at(bytes)?;
        let (locals, body) = list_at::<Locals, (u32, ValType)>(alloc, imports, content)?;
        let (body, end, after) = body_at(alloc, imports, MAX_NESTING, body)?;
        if end != 0x0B {
            return Err(DecodeError::NotInGrammar);
        }
        if !after.is_empty() {
            return Err(DecodeError::NotInGrammar);
        }
        Ok((CodeBody { locals, body }, rest))
    }
}

/// The functions of types and bodies, one by one. Of each there are as many as of the other.
fn funcs_of(
    alloc: Global,
    types: &[u32],
    bodies: Seq<CodeBody>,
) -> Result<Seq<WasmFunc>, DecodeError>
    ensures found { IfOk result (λ fs. (map type_index fs ≡ types.now) × (map body_of fs ≡ bodies)) }
    ensures only { (fs : List WasmFunc) → map type_index fs ≡ types.now → map body_of fs ≡ bodies → IfRead result (λ x. x ≡ fs) }
{
    let mut funcs = Seq::new(alloc);
    let mut left = types;
    for code in bodies.into_vec() {
        let [ty, rest @ ..] = left else {
            return Err(DecodeError::NotInGrammar);
        };
        let CodeBody { locals, body } = code;
        funcs.push(WasmFunc {
            ty: *ty,
            locals,
            body,
        })?;
        left = rest;
    }
    if !left.is_empty() {
        return Err(DecodeError::NotInGrammar);
    }
    Ok(funcs)
}

/// What follows the magic number and the version.
fn header_at(bytes: &[u8]) -> Result<&[u8], DecodeError>
    ensures found { IfOk result (λ rest. bytes.now ≡ header ++ rest.now) }
    ensures only { (rest : List ℕ) → bytes.now ≡ header ++ rest → IfRead result (λ x. x.now ≡ rest) }
{
    match bytes {
        [0x00, 0x61, 0x73, 0x6D, 0x01, 0x00, 0x00, 0x00, rest @ ..] => Ok(rest),
        _ => Err(DecodeError::NotInGrammar),
    }
}

/// The types and the imports, with what follows them.
fn front_at(
    alloc: Global,
    bytes: &[u8],
) -> Result<(Seq<FuncType>, Seq<WasmImport>, &[u8]), DecodeError>
    ensures found { IfOk result (λ x. IsModuleFront bytes.now x.0 x.1 x.2.now) }
    ensures only { (ts : List FuncType) (is : List WasmImport) (rest : List ℕ) → IsModuleFront bytes.now ts is rest
        → IfRead result (λ x. (x.0 ≡ ts) × (x.1 ≡ is) × (x.2.now ≡ rest)) }
{
    let rest = header_at(bytes)?;
    let (types, rest) = section_at::<Types, FuncType>(alloc, 0, 0x01, rest)?;
    let (imports, rest) = section_at::<Imports, WasmImport>(alloc, 0, 0x02, rest)?;
    Ok((types, imports, rest))
}

/// The type indices of functions, the exports and the bodies of functions, in a module that imports so many functions.
fn back_of(
    alloc: Global,
    imports: u32,
    bytes: &[u8],
) -> Result<(Seq<u32>, Seq<WasmExport>, Seq<CodeBody>), DecodeError>
    ensures found { IfOk result (λ x. IsBack imports bytes.now x.0 x.1 x.2) }
    ensures only { (tys : List ℕ) (es : List WasmExport) (bs : List CodeBody) → IsBack imports bytes.now tys es bs
        → IfRead result (λ x. (x.0 ≡ tys) × (x.1 ≡ es) × (x.2 ≡ bs)) }
{
    let (types, rest) = section_at::<Functions, u32>(alloc, imports, 0x03, bytes)?;
    let (exports, rest) = section_at::<Exports, WasmExport>(alloc, imports, 0x07, rest)?;
    let (bodies, rest) = section_at::<Codes, CodeBody>(alloc, imports, 0x0A, rest)?;
    if !rest.is_empty() {
        return Err(DecodeError::NotInGrammar);
    }
    Ok((types, exports, bodies))
}

/// The module that the bytes spell, its functions named by the form that their index has. Whether the functions are there
/// is not looked at.
fn module_of(alloc: Global, bytes: &[u8]) -> Result<WasmModule, DecodeError>
    ensures found { IfOk result (λ m. IsOwn m × Spells bytes.now m) }
    ensures only { (m : WasmModule) → IsOwn m → Spells bytes.now m → IfRead result (λ x. x ≡ m) }
{
    let (types, imports, rest) = front_at(alloc, bytes)?;
    let count = count_functions(imports.as_slice()) as u32;
    let (type_indices, exports, bodies) = back_of(alloc, count, rest)?;
    let funcs = funcs_of(alloc, type_indices.as_slice(), bodies)?;
    Ok(WasmModule {
        types,
        imports,
        funcs,
        exports,
    })
}

/// The one module in range that the bytes spell, by the binary format, or `NotInGrammar` where there is none. The format is
/// the profile of the adapters: each of the five sections is there once, in order, and numbers are in their shortest form.
/// More than [`MAX_NESTING`] bodies within one another are a want of memory, since the stack that walks of them take may not be there.
pub fn decode(alloc: Global, bytes: &[u8]) -> Result<WasmModule, DecodeError>
    ensures found { IfOk result (λ m. InRange m × Spells bytes.now m) }
    ensures only { (m : WasmModule) → InRange m → Spells bytes.now m → IfRead result (λ x. x ≡ m) }
    ensures not_in_grammar { IsErrOf result DecodeError.NotInGrammar → (m : WasmModule) → InRange m → Spells bytes.now m → ⊥ }
{
    let module = module_of(alloc, bytes)?;
    if !module.in_range() {
        return Err(DecodeError::NotInGrammar);
    }
    Ok(module)
}

/// At most one module in range is spelled by given bytes. This function carries the law and does nothing.
pub fn bytes_spell_one_module()
    ensures { (bytes : List ℕ) (m n : WasmModule) → InRange m → InRange n → Spells bytes m → Spells bytes n → m ≡ n }
{}
