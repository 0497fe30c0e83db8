//! The kinds of types that have members, and the tables of handles: the entries of the tables of
//! [`ComponentTypes`](crate::ComponentTypes) whose members stand in lists. The layout `abi` is that of the canonical ABI
//! ("Alignment", "Element Size").

ghost use Rattle.std.specs.Prelude.{◌≡◌, IfOk};

use crate::OutOfMemory;
use crate::abi::CanonicalAbiInfo;
use crate::interface::InterfaceType;
use crate::variants::VariantInfo;
use fact_entity::{
    AbstractResourceIndex, ResourceIndex, RuntimeComponentInstanceIndex, TypeFutureIndex,
    TypeStreamIndex, TypeTupleIndex,
};
use fact_wasm::{Seq, Text};

/// A function: the names of its parameters, and the tuples of its parameters and of its results.
#[derive(Drop, PartialEq, Eq, Hash)]
pub struct TypeFunc {
    pub async_: bool,
    pub param_names: Seq<Text>,
    pub params: TypeTupleIndex,
    pub results: TypeTupleIndex,
}

/// A field of a record.
#[derive(Drop, PartialEq, Eq, Hash)]
pub struct RecordField {
    pub name: Text,
    pub ty: InterfaceType,
}

/// A record: its fields, in the order in which they stand in memory.
#[derive(Drop, PartialEq, Eq, Hash)]
pub struct TypeRecord {
    pub fields: Seq<RecordField>,
    pub abi: CanonicalAbiInfo,
}

/// A tuple: its members, in the order in which they stand in memory.
#[derive(Drop, PartialEq, Eq, Hash)]
pub struct TypeTuple {
    pub types: Seq<InterfaceType>,
    pub abi: CanonicalAbiInfo,
}

/// An option, a variant of the cases `none` and `some` (canonical ABI, "Despecialization").
#[derive(Clone, Copy, PartialEq, Eq, Hash)]
pub struct TypeOption {
    pub ty: InterfaceType,
    pub abi: CanonicalAbiInfo,
    pub info: VariantInfo,
}

/// A result, a variant of the cases `ok` and `error` (canonical ABI, "Despecialization").
#[derive(Clone, Copy, PartialEq, Eq, Hash)]
pub struct TypeResult {
    pub ok: Option<InterfaceType>,
    pub err: Option<InterfaceType>,
    pub abi: CanonicalAbiInfo,
    pub info: VariantInfo,
}

/// A list of any length: a pointer and a length.
#[derive(Clone, Copy, PartialEq, Eq, Hash)]
pub struct TypeList {
    pub element: InterfaceType,
}

/// A map: a list of entries, each a tuple of key and value. The offsets are those of the value in an entry, in bytes.
#[derive(Clone, Copy, PartialEq, Eq, Hash)]
pub struct TypeMap {
    pub key: InterfaceType,
    pub value: InterfaceType,
    pub entry_abi: CanonicalAbiInfo,
    pub value_offset32: u32,
    pub value_offset64: u32,
}

/// A list of `size` elements, one after another.
#[derive(Clone, Copy, PartialEq, Eq, Hash)]
pub struct TypeFixedLengthList {
    pub element: InterfaceType,
    pub size: u32,
    pub abi: CanonicalAbiInfo,
}

/// A future.
#[derive(Clone, Copy, PartialEq, Eq, Hash)]
pub struct TypeFuture {
    pub payload: Option<InterfaceType>,
}

/// A table of the futures of one type in one instance.
#[derive(Clone, Copy, PartialEq, Eq, Hash)]
pub struct TypeFutureTable {
    pub ty: TypeFutureIndex,
    pub instance: RuntimeComponentInstanceIndex,
}

/// A stream.
#[derive(Clone, Copy, PartialEq, Eq, Hash)]
pub struct TypeStream {
    pub payload: Option<InterfaceType>,
}

/// A table of the streams of one type in one instance.
#[derive(Clone, Copy, PartialEq, Eq, Hash)]
pub struct TypeStreamTable {
    pub ty: TypeStreamIndex,
    pub instance: RuntimeComponentInstanceIndex,
}

/// A table of the error contexts of one instance.
#[derive(Clone, Copy, PartialEq, Eq, Hash)]
pub struct TypeErrorContextTable {
    pub instance: RuntimeComponentInstanceIndex,
}

impl TypeFunc {
    /// An equal type.
    pub fn try_clone(&self) -> Result<TypeFunc, OutOfMemory>
        ensures { IfOk result (λ copy. copy ≡ self.now) }
    {
        Ok(TypeFunc {
            async_: self.async_,
            param_names: self.param_names.clone()?,
            params: self.params,
            results: self.results,
        })
    }
}

impl RecordField {
    /// An equal field.
    pub fn try_clone(&self) -> Result<RecordField, OutOfMemory>
        ensures { IfOk result (λ copy. copy ≡ self.now) }
    {
        Ok(RecordField {
            name: self.name.try_clone()?,
            ty: self.ty,
        })
    }
}

impl Clone for RecordField {
    ghost is_clone = { λ field copy. copy ≡ field };

    fn clone(&self) -> Result<RecordField, OutOfMemory> {
        self.try_clone()
    }
}

impl TypeRecord {
    /// An equal type.
    pub fn try_clone(&self) -> Result<TypeRecord, OutOfMemory>
        ensures { IfOk result (λ copy. copy ≡ self.now) }
    {
        Ok(TypeRecord {
            fields: self.fields.clone()?,
            abi: self.abi,
        })
    }
}

impl TypeTuple {
    /// An equal type.
    pub fn try_clone(&self) -> Result<TypeTuple, OutOfMemory>
        ensures { IfOk result (λ copy. copy ≡ self.now) }
    {
        Ok(TypeTuple {
            types: self.types.clone()?,
            abi: self.abi,
        })
    }
}

/// A table of the handles of one resource type. A concrete one belongs to an instance.
#[derive(Clone, Copy, PartialEq, Eq, Hash)]
pub enum TypeResourceTable {
    Concrete {
        ty: ResourceIndex,
        instance: RuntimeComponentInstanceIndex,
    },
    Abstract(AbstractResourceIndex),
}

impl TypeResourceTable {
    ghost use Rattle.std.specs.Prelude.{IsSome, IfSome};
    ghost use Rattle.fact_types.specs.Described.{concrete_parts};

    /// The resource type of a concrete table.
    pub fn unwrap_concrete_ty(&self) -> ResourceIndex
        requires { IsSome (concrete_parts self.now) }
        ensures { IfSome (concrete_parts self.now) (λ p. result ≡ p.0) }
    {
        match self {
            TypeResourceTable::Concrete { ty, .. } => *ty,
            TypeResourceTable::Abstract(_) => unreachable!(),
        }
    }

    /// The instance of a concrete table.
    pub fn unwrap_concrete_instance(&self) -> RuntimeComponentInstanceIndex
        requires { IsSome (concrete_parts self.now) }
        ensures { IfSome (concrete_parts self.now) (λ p. result ≡ p.1) }
    {
        match self {
            TypeResourceTable::Concrete { instance, .. } => *instance,
            TypeResourceTable::Abstract(_) => unreachable!(),
        }
    }

    /// The resource type and the instance of a concrete table, and `None` for an abstract one.
    pub fn concrete(&self) -> Option<(ResourceIndex, RuntimeComponentInstanceIndex)>
        ensures { result ≡ concrete_parts self.now }
    {
        match self {
            TypeResourceTable::Concrete { ty, instance } => Some((*ty, *instance)),
            TypeResourceTable::Abstract(_) => None,
        }
    }
}
