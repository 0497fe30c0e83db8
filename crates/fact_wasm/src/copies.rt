//! Equal copies of modules and of what they are made of, which fail where there is no memory for them.

ghost use Rattle.std.specs.Prelude.{◌≡◌, true, Some, IfOk};
ghost use Rattle.fact_wasm.specs.declared.instr.Instr.{out-Instr};
ghost use Rattle.fact_wasm.specs.declared.instr.Instr.TheVariants.{If, TryTable};
ghost use Rattle.fact_wasm.specs.Copies.{is_flat};

use crate::OutOfMemory;
use crate::instr::{BlockType, Instr};
use crate::module::{ImportType, WasmExport, WasmFunc, WasmImport, WasmModule};
use crate::seq::Seq;
use crate::types::FuncType;

/// What a list can be copied of.
trait Copied: Drop {
    fn copied(&self) -> Result<Self, OutOfMemory>
        ensures { IfOk result (λ copy. copy ≡ self.now) };
}

pub(crate) fn copy_list<T: Copied>(items: &Seq<T>) -> Result<Seq<T>, OutOfMemory>
    ensures { IfOk result (λ copy. copy ≡ items.now) }
{
    let mut copies = items.empty_like();
    for item in items.as_slice() {
        copies.push(item.copied()?)?;
    }
    Ok(copies)
}

/// An equal list, of items that are copied bit by bit.
pub fn copy_items<T: Copy>(items: &Seq<T>) -> Result<Seq<T>, OutOfMemory>
    ensures { IfOk result (λ copy. copy ≡ items.now) }
{
    let mut copy = items.empty_like().into_vec();
    copy.extend_from_slice(items.as_slice())?;
    Ok(Seq::from_vec(copy))
}

impl FuncType {
    /// An equal function type.
    pub fn try_clone(&self) -> Result<FuncType, OutOfMemory>
        ensures { IfOk result (λ copy. copy ≡ self.now) }
    {
        let params = copy_items(&self.params)?;
        let results = copy_items(&self.results)?;
        Ok(FuncType { params, results })
    }
}

impl Copied for FuncType {
    fn copied(&self) -> Result<FuncType, OutOfMemory> {
        self.try_clone()
    }
}

fn copy_import_type(ty: &ImportType) -> ImportType
    ensures { result ≡ ty.now }
{
    match ty {
        ImportType::Func(index) => ImportType::Func(*index),
        ImportType::Memory {
            minimum,
            memory64,
            page_size_log2,
        } => ImportType::Memory {
            minimum: *minimum,
            memory64: *memory64,
            page_size_log2: *page_size_log2,
        },
        ImportType::Global { ty, mutable } => ImportType::Global {
            ty: *ty,
            mutable: *mutable,
        },
    }
}

impl Copied for WasmImport {
    fn copied(&self) -> Result<WasmImport, OutOfMemory> {
        let module = self.module.try_clone()?;
        let name = self.name.try_clone()?;
        let ty = copy_import_type(&self.ty);
        Ok(WasmImport { module, name, ty })
    }
}

impl Copied for WasmExport {
    fn copied(&self) -> Result<WasmExport, OutOfMemory> {
        let name = self.name.try_clone()?;
        Ok(WasmExport {
            name,
            func: self.func,
        })
    }
}

impl Copied for WasmFunc {
    fn copied(&self) -> Result<WasmFunc, OutOfMemory> {
        let locals = copy_items(&self.locals)?;
        let body = copy_body(&self.body)?;
        Ok(WasmFunc {
            ty: self.ty,
            locals,
            body,
        })
    }
}

/// Copies an instruction without lists.
fn copy_flat(instr: &Instr) -> Instr
    requires { is_flat (out-Instr instr.now) ≡ true }
    ensures { result ≡ instr.now }
{
    match instr {
        Instr::Unreachable => Instr::Unreachable,
        Instr::Br(label) => Instr::Br(*label),
        Instr::BrIf(label) => Instr::BrIf(*label),
        Instr::Call(func) => Instr::Call(*func),
        Instr::Drop => Instr::Drop,
        Instr::Select => Instr::Select,
        Instr::LocalGet(index) => Instr::LocalGet(*index),
        Instr::LocalSet(index) => Instr::LocalSet(*index),
        Instr::LocalTee(index) => Instr::LocalTee(*index),
        Instr::GlobalGet(index) => Instr::GlobalGet(*index),
        Instr::GlobalSet(index) => Instr::GlobalSet(*index),
        Instr::I32Load(place) => Instr::I32Load(*place),
        Instr::I64Load(place) => Instr::I64Load(*place),
        Instr::F32Load(place) => Instr::F32Load(*place),
        Instr::F64Load(place) => Instr::F64Load(*place),
        Instr::I32Load8S(place) => Instr::I32Load8S(*place),
        Instr::I32Load8U(place) => Instr::I32Load8U(*place),
        Instr::I32Load16S(place) => Instr::I32Load16S(*place),
        Instr::I32Load16U(place) => Instr::I32Load16U(*place),
        Instr::I32Store(place) => Instr::I32Store(*place),
        Instr::I64Store(place) => Instr::I64Store(*place),
        Instr::F32Store(place) => Instr::F32Store(*place),
        Instr::F64Store(place) => Instr::F64Store(*place),
        Instr::I32Store8(place) => Instr::I32Store8(*place),
        Instr::I32Store16(place) => Instr::I32Store16(*place),
        Instr::MemorySize(index) => Instr::MemorySize(*index),
        Instr::I32Const(bits) => Instr::I32Const(*bits),
        Instr::I64Const(bits) => Instr::I64Const(*bits),
        Instr::F32Const(bits) => Instr::F32Const(*bits),
        Instr::F64Const(bits) => Instr::F64Const(*bits),
        Instr::I32Eqz => Instr::I32Eqz,
        Instr::I32Eq => Instr::I32Eq,
        Instr::I32Ne => Instr::I32Ne,
        Instr::I32LtU => Instr::I32LtU,
        Instr::I32GtU => Instr::I32GtU,
        Instr::I32GeU => Instr::I32GeU,
        Instr::I64Eqz => Instr::I64Eqz,
        Instr::I64Eq => Instr::I64Eq,
        Instr::I64Ne => Instr::I64Ne,
        Instr::I64LtU => Instr::I64LtU,
        Instr::I64GtU => Instr::I64GtU,
        Instr::I64GeU => Instr::I64GeU,
        Instr::I32Add => Instr::I32Add,
        Instr::I32Sub => Instr::I32Sub,
        Instr::I32Mul => Instr::I32Mul,
        Instr::I32And => Instr::I32And,
        Instr::I32Or => Instr::I32Or,
        Instr::I32Xor => Instr::I32Xor,
        Instr::I32Shl => Instr::I32Shl,
        Instr::I32ShrU => Instr::I32ShrU,
        Instr::I64Add => Instr::I64Add,
        Instr::I64Sub => Instr::I64Sub,
        Instr::I64Mul => Instr::I64Mul,
        Instr::I64And => Instr::I64And,
        Instr::I64Or => Instr::I64Or,
        Instr::I64Xor => Instr::I64Xor,
        Instr::I64Shl => Instr::I64Shl,
        Instr::I64ShrU => Instr::I64ShrU,
        Instr::I32WrapI64 => Instr::I32WrapI64,
        Instr::I64ExtendI32U => Instr::I64ExtendI32U,
        Instr::I32ReinterpretF32 => Instr::I32ReinterpretF32,
        Instr::I64ReinterpretF64 => Instr::I64ReinterpretF64,
        Instr::F32ReinterpretI32 => Instr::F32ReinterpretI32,
        Instr::F64ReinterpretI64 => Instr::F64ReinterpretI64,
        Instr::I32Extend8S => Instr::I32Extend8S,
        Instr::I32Extend16S => Instr::I32Extend16S,
        Instr::RefFunc(func) => Instr::RefFunc(*func),
        Instr::Block(_, _)
        | Instr::Loop(_, _)
        | Instr::If(_, _, _)
        | Instr::BrTable(_, _)
        | Instr::TryTable(_, _, _) => unreachable!(),
    }
}

/// A `try_table` of this body with a copy of these labels.
fn try_table(ty: BlockType, catches: &Seq<u32>, body: Seq<Instr>) -> Result<Instr, OutOfMemory>
    ensures { IfOk result (λ copy. copy ≡ TryTable ty catches.now body) }
{
    match copy_items(catches) {
        Ok(catches) => Ok(Instr::TryTable(ty, catches, body)),
        Err(error) => {
            drop(body);
            Err(error)
        }
    }
}

#[cycle(copied)]
fn copy_body(body: &Seq<Instr>) -> Result<Seq<Instr>, OutOfMemory>
    ensures { IfOk result (λ copy. copy ≡ body.now) }
{
    let mut copies = body.empty_like();
    for instr in body.as_slice() {
        copies.push(copy_instr(instr)?)?;
    }
    Ok(copies)
}

#[cycle(copied)]
fn copy_instr(instr: &Instr) -> Result<Instr, OutOfMemory>
    ensures { IfOk result (λ copy. copy ≡ instr.now) }
{
    match instr {
        Instr::Block(ty, body) => Ok(Instr::Block(*ty, copy_body(body)?)),
        Instr::Loop(ty, body) => Ok(Instr::Loop(*ty, copy_body(body)?)),
        Instr::If(ty, body, other) => match other {
            None => Ok(Instr::If(*ty, copy_body(body)?, None)),
            Some(other) => if_else(*ty, body, copy_body(other)?),
        },
        Instr::BrTable(labels, default) => Ok(Instr::BrTable(copy_items(labels)?, *default)),
        Instr::TryTable(ty, catches, body) => try_table(*ty, catches, copy_body(body)?),
        _ => Ok(copy_flat(instr)),
    }
}

/// An `if` of this else body with a copy of this body.
#[cycle(copied)]
fn if_else(ty: BlockType, body: &Seq<Instr>, other: Seq<Instr>) -> Result<Instr, OutOfMemory>
    ensures { IfOk result (λ copy. copy ≡ If ty body.now (Some other)) }
{
    match copy_body(body) {
        Ok(body) => Ok(Instr::If(ty, body, Some(other))),
        Err(error) => {
            drop(other);
            Err(error)
        }
    }
}

impl WasmModule {
    /// An equal module.
    pub fn try_clone(&self) -> Result<WasmModule, OutOfMemory>
        ensures { IfOk result (λ copy. copy ≡ self.now) }
    {
        let types = copy_list(&self.types)?;
        let imports = copy_list(&self.imports)?;
        let funcs = copy_list(&self.funcs)?;
        let exports = copy_list(&self.exports)?;
        Ok(WasmModule {
            types,
            imports,
            funcs,
            exports,
        })
    }
}
