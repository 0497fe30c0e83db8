//! Equality, hashes and copies of plain types. Of the types of members, cases and handles, which a builder looks up and copies, they are
//! seen where programs add such types.

use fact_entity::{
    ComponentAnyTypeId, ComponentFuncTypeId, EntityRef, FuncIndex, Interner, OutOfMemory,
    ResourceIndex, RuntimeComponentInstanceIndex, RuntimeInstanceIndex, TrampolineIndex,
    TypeRecordIndex,
};
use fact_types::{
    CanonicalAbiInfo, CoreDef, DiscriminantSize, EngineOrModuleTypeIndex, FixedEncoding, FlagsSize,
    FlatType, InterfaceType, RecordField, StringEncoding, Transcode, Trap, TypeResourceTable,
    UnsafeIntrinsic, VariantInfo,
};
use fact_wasm::{FuncType, Seq, Text, ValType};
use std::alloc::Global;
use std::hash::Hash;

const INFO: VariantInfo = VariantInfo {
    size: DiscriminantSize::Size1,
    payload_offset32: 1,
    payload_offset64: 1,
};

/// Whether a table gives a value the key of a number.
fn has_key<T: Eq + Hash + Drop>(
    table: &mut Interner<TypeRecordIndex, T>,
    value: T,
    number: u32,
) -> bool {
    matches!(table.add(value), Ok(key) if key.as_u32() == number)
}

/// Whether a value is equal to one value and not to another, and a table of distinct values gives it the key of the one
/// and the other the next key.
fn are_told_apart<T: Eq + Hash + Drop>(alloc: Global, value: T, equal: T, other: T) -> bool {
    let compares = value == equal && value != other;
    let mut table = Interner::new(alloc);
    let first = has_key(&mut table, value, 0);
    let second = has_key(&mut table, equal, 0);
    let third = has_key(&mut table, other, 1);
    drop(table);
    compares & first & second & third
}

/// As `are_told_apart`, where memory was there for the values.
fn are_made_apart<T: Eq + Hash + Drop>(
    alloc: Global,
    value: T,
    equal: Result<T, OutOfMemory>,
    other: Result<T, OutOfMemory>,
) -> bool {
    match (equal, other) {
        (Ok(equal), Ok(other)) => are_told_apart(alloc, value, equal, other),
        _ => false,
    }
}

/// Whether a value and a copy of it are equal, and told apart from another one.
fn is_copied<T: Copy + Eq + Hash>(alloc: Global, value: T, other: T) -> bool {
    let copy = value;
    are_told_apart(alloc, value, copy, other)
}

/// As `is_copied`, by a clone.
fn is_cloned<T: Clone + Eq + Hash + Drop>(alloc: Global, value: T, other: T) -> bool {
    let copy: Result<T, _> = value.clone();
    are_made_apart(alloc, value, copy, Ok(other))
}

/// Whether keys are copied.
fn are_keys_copied(alloc: Global) -> bool {
    let ids = is_copied(
        alloc,
        ComponentFuncTypeId::from_u32(0),
        ComponentFuncTypeId::from_u32(1),
    );
    let any = is_copied(
        alloc,
        ComponentAnyTypeId::Resource(EntityRef::from_u32(0)),
        ComponentAnyTypeId::Func(EntityRef::from_u32(0)),
    );
    let functions = is_copied(
        alloc,
        EngineOrModuleTypeIndex::Engine(0),
        EngineOrModuleTypeIndex::Module(EntityRef::from_u32(0)),
    );
    let places = is_copied(alloc, FuncIndex::from_u32(0), FuncIndex::from_u32(1));
    ids & any & functions & places
}

/// Whether words for types are copied.
fn are_types_copied(alloc: Global) -> bool {
    let types = is_copied(
        alloc,
        InterfaceType::Own(EntityRef::from_u32(0)),
        InterfaceType::Borrow(EntityRef::from_u32(0)),
    );
    let flat = is_copied(alloc, FlatType::I32, FlatType::F32);
    let core = is_copied(alloc, ValType::I32, ValType::FuncRef);
    let cases = is_copied(alloc, DiscriminantSize::Size1, DiscriminantSize::Size4);
    let flags = is_copied(alloc, FlagsSize::Size4Plus(1), FlagsSize::Size4Plus(2));
    types & flat & core & cases & flags
}

/// Whether words for texts and for functions of the runtime are copied.
fn are_words_copied(alloc: Global) -> bool {
    let texts = is_copied(alloc, StringEncoding::Utf8, StringEncoding::CompactUtf16);
    let bytes = is_copied(alloc, FixedEncoding::Utf8, FixedEncoding::Latin1);
    let transcodes = is_copied(
        alloc,
        Transcode::Copy(FixedEncoding::Utf8),
        Transcode::Latin1ToUtf8,
    );
    let traps = is_copied(alloc, Trap::InvalidChar, Trap::InvalidDiscriminant);
    let intrinsics = is_copied(
        alloc,
        UnsafeIntrinsic::ContextGetI32_0,
        UnsafeIntrinsic::ContextGetI32_1,
    );
    texts & bytes & transcodes & traps & intrinsics
}

/// Whether layouts are cloned.
fn are_layouts_cloned(alloc: Global) -> bool {
    let moved = VariantInfo {
        payload_offset64: 8,
        ..INFO
    };
    is_cloned(alloc, CanonicalAbiInfo::ZERO, CanonicalAbiInfo::SCALAR1)
        && is_cloned(alloc, INFO, moved)
}

/// Whether tables of resources are cloned.
fn are_tables_cloned(alloc: Global) -> bool {
    let concrete = TypeResourceTable::Concrete {
        ty: ResourceIndex::from_u32(0),
        instance: RuntimeComponentInstanceIndex::from_u32(0),
    };
    let general = TypeResourceTable::Abstract(EntityRef::from_u32(0));
    is_cloned(alloc, concrete, general)
}

/// Whether plain values are copied, and told apart.
pub fn plain_values_are_copied(alloc: Global) -> bool {
    are_keys_copied(alloc)
        & are_types_copied(alloc)
        & are_words_copied(alloc)
        & are_layouts_cloned(alloc)
        & are_tables_cloned(alloc)
}

/// A field of a record.
fn field(alloc: Global, name: &str, ty: InterfaceType) -> Result<RecordField, OutOfMemory> {
    Ok(RecordField {
        name: Text::from_str(alloc, name)?,
        ty,
    })
}

/// An export of the first core instance.
fn export(alloc: Global, name: &str) -> Result<CoreDef, OutOfMemory> {
    Ok(CoreDef::Export {
        instance: RuntimeInstanceIndex::from_u32(0),
        name: Text::from_str(alloc, name)?,
    })
}

/// The type of core functions of these parameters, without results.
pub fn signature(alloc: Global, params: &[ValType]) -> Result<FuncType, OutOfMemory> {
    Ok(FuncType {
        params: Seq::from_vec(params.to_vec(alloc)?),
        results: Seq::new(alloc),
    })
}

/// Whether fields are cloned in both ways, and told apart by their types.
fn fields_are_cloned(alloc: Global) -> Result<bool, OutOfMemory> {
    let first = field(alloc, "x", InterfaceType::U8)?.try_clone()?;
    let copy: Result<_, _> = first.clone();
    let other = field(alloc, "x", InterfaceType::S8);
    Ok(are_made_apart(alloc, first, copy, other))
}

/// Whether exports of core instances are cloned, and told apart by their names.
fn exports_are_cloned(alloc: Global) -> Result<bool, OutOfMemory> {
    let first = export(alloc, "run")?;
    let copy = first.try_clone();
    Ok(are_made_apart(alloc, first, copy, export(alloc, "stop")))
}

/// Whether core items that are no exports are cloned, and told apart.
fn core_items_are_cloned(alloc: Global) -> bool {
    let flags = CoreDef::InstanceFlags(RuntimeComponentInstanceIndex::from_u32(4));
    let trampoline = CoreDef::Trampoline(TrampolineIndex::from_u32(4));
    let copy = flags.try_clone();
    let other = trampoline.try_clone();
    drop(trampoline);
    are_made_apart(alloc, flags, copy, other)
}

/// Whether what has names is cloned, and told apart.
pub fn what_has_names_is_cloned(alloc: Global) -> bool {
    matches!(fields_are_cloned(alloc), Ok(true))
        && matches!(exports_are_cloned(alloc), Ok(true))
        && core_items_are_cloned(alloc)
}
