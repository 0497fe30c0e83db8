//! The types of values that cross a component's boundary, and what else a component imports or exports.

ghost use Rattle.std.specs.Prelude.{◌≡◌};

use fact_entity::{
    ComponentAnyTypeId, ComponentFuncIndex, ComponentIndex, ComponentInstanceIndex, ModuleIndex,
    ModuleInternedTypeIndex, TypeComponentIndex, TypeComponentInstanceIndex,
    TypeComponentLocalErrorContextTableIndex, TypeEnumIndex, TypeFixedLengthListIndex,
    TypeFlagsIndex, TypeFuncIndex, TypeFutureTableIndex, TypeListIndex, TypeMapIndex,
    TypeModuleIndex, TypeOptionIndex, TypeRecordIndex, TypeResourceTableIndex, TypeResultIndex,
    TypeStreamTableIndex, TypeTupleIndex, TypeVariantIndex,
};

/// A type of values (Component Model, "Type Definitions", `valtype`). A kind with members names its entry in the tables
/// of [`ComponentTypes`](crate::ComponentTypes).
#[derive(Clone, Copy, PartialEq, Eq, Hash)]
pub enum InterfaceType {
    Bool,
    S8,
    U8,
    S16,
    U16,
    S32,
    U32,
    S64,
    U64,
    Float32,
    Float64,
    Char,
    String,
    Record(TypeRecordIndex),
    Variant(TypeVariantIndex),
    List(TypeListIndex),
    Tuple(TypeTupleIndex),
    Map(TypeMapIndex),
    Flags(TypeFlagsIndex),
    Enum(TypeEnumIndex),
    Option(TypeOptionIndex),
    Result(TypeResultIndex),
    Own(TypeResourceTableIndex),
    Borrow(TypeResourceTableIndex),
    Future(TypeFutureTableIndex),
    Stream(TypeStreamTableIndex),
    ErrorContext(TypeComponentLocalErrorContextTableIndex),
    FixedLengthList(TypeFixedLengthListIndex),
}

/// An item of a component, by its place in its index space (Component Model, "Index Spaces"); a type by its id in the
/// source.
#[derive(Clone, Copy)]
pub enum ComponentItem {
    Func(ComponentFuncIndex),
    Module(ModuleIndex),
    Component(ComponentIndex),
    ComponentInstance(ComponentInstanceIndex),
    AnyType(ComponentAnyTypeId),
}

/// The type of an import or export (Component Model, "Type Definitions", `externdesc`).
#[derive(Clone, Copy)]
pub enum TypeDef {
    Component(TypeComponentIndex),
    ComponentInstance(TypeComponentInstanceIndex),
    ComponentFunc(TypeFuncIndex),
    Interface(InterfaceType),
    Module(TypeModuleIndex),
    CoreFunc(ModuleInternedTypeIndex),
    Resource(TypeResourceTableIndex),
}

impl TypeDef {
    ghost use Rattle.fact_types.specs.Described.{described};

    /// What the import or export is, in words.
    pub fn desc(&self) -> &str
        ensures { result.now ≡ described self.now }
    {
        match self {
            TypeDef::Component(_) => "component",
            TypeDef::ComponentInstance(_) => "instance",
            TypeDef::ComponentFunc(_) => "function",
            TypeDef::Interface(_) => "type",
            TypeDef::Module(_) => "core module",
            TypeDef::CoreFunc(_) => "core function",
            TypeDef::Resource(_) => "resource",
        }
    }
}
