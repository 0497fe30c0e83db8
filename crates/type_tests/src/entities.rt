//! Tables and their keys.

use fact_entity::{
    ComponentAnyTypeId, ComponentDefinedTypeId, EntityRef, Id, Interner, PrimaryMap, PushError,
    ResourceId, TypeRecordIndex, TypeVariantIndex,
};
use fact_index::{OptionsIndex, TableIndex};
use std::alloc::{AllocError, Global};

/// Whether a key that was made of a number and copied has that number.
fn has_number<K: EntityRef>(number: u32) -> bool {
    let key = K::from_u32(number);
    let copy = key;
    copy.as_u32() == number
}

/// Whether a key and its clone have a number, and the key comes before another one just where that is said.
fn is_placed<Table>(key: Id<Table>, number: u32, other: Id<Table>, before: bool) -> bool {
    match key.try_clone() {
        Ok(clone) => {
            key.as_u32() == number && clone.as_u32() == number && (key < other) == before
        }
        Err(_) => false,
    }
}

/// Whether a table has two entries, in order.
fn has_two(table: &PrimaryMap<TypeRecordIndex, u64>) -> bool {
    let mut pairs = table.iter();
    table.len() == 2
        && matches!(pairs.next(), Some((key, entry)) if key.as_u32() == 0 && *entry == 40)
        && matches!(pairs.next(), Some((key, entry)) if key.as_u32() == 1 && *entry == 50)
        && pairs.next().is_none()
}

/// Whether two entries stand where they are put, with nothing behind them.
fn puts_two(table: &mut PrimaryMap<TypeRecordIndex, u64>) -> Result<bool, PushError> {
    let first = table.push(40)?;
    let second = table.push(50)?;
    let next = table.next_key();
    Ok(
        (first.as_u32() == 0)
            & (second.as_u32() == 1)
            & (next.as_u32() == 2)
            & (table[first] == 40)
            & (table.get(second) == Some(&50))
            & table.get(next).is_none(),
    )
}

/// Whether a table has two entries where they were put.
pub fn tables_answer_places(alloc: Global) -> bool {
    let mut table = PrimaryMap::new(alloc);
    let put = matches!(puts_two(&mut table), Ok(true));
    let read = has_two(&table);
    drop(table);
    put && read
}

type Ids = Interner<TypeVariantIndex, ComponentAnyTypeId>;

/// Whether a value gets the key of a number.
fn is_added(table: &mut Ids, value: ComponentAnyTypeId, number: u32) -> bool {
    matches!(table.add(value), Ok(key) if key.as_u32() == number)
}

/// Whether a value stands under the key of a number.
fn is_found(table: &Ids, value: ComponentAnyTypeId, number: u32) -> bool {
    match table.find(&value) {
        Some(key) => {
            key.as_u32() == number && table[key] == value && table.get(key) == Some(&value)
        }
        None => false,
    }
}

/// Whether the last value of a table is this one, and then stands nowhere and is put anew, as the second.
fn is_last(table: &mut Ids, value: ComponentAnyTypeId) -> bool {
    if table.pop() != Some(value) {
        return false;
    }
    match table.find(&value) {
        Some(_) => false,
        None => matches!(table.add_new(value), Ok(key) if key.as_u32() == 1),
    }
}

/// Whether a table of two values gives each one key.
fn have_one_key(table: &mut Ids) -> bool {
    let resource = ComponentAnyTypeId::Resource(ResourceId::from_u32(0));
    let defined = ComponentAnyTypeId::Defined(ComponentDefinedTypeId::from_u32(0));
    is_added(table, resource, 0)
        & is_added(table, defined, 1)
        & is_added(table, resource, 0)
        & is_found(table, resource, 0)
        & is_found(table, defined, 1)
        & (table.len() == 2)
        & is_last(table, defined)
}

/// Whether equal values have one key.
pub fn equal_values_have_one_key(alloc: Global) -> bool {
    let mut table = Ids::new(alloc);
    let held = have_one_key(&mut table);
    drop(table);
    held
}

/// Whether an error is shown in these words.
fn is_shown(alloc: Global, error: PushError, words: &str) -> bool {
    matches!(format!(in alloc; "{error}"), Ok(shown) if shown.as_str() == words)
}

/// Whether a key is shown as a number.
fn is_key_shown(alloc: Global) -> bool {
    let key = TypeRecordIndex::from_u32(7);
    matches!(format!(in alloc; "{key:?}"), Ok(shown) if shown.as_str() == "Id { number: 7, .. }")
}

/// Whether keys are numbers, and errors are shown.
pub fn keys_are_numbers(alloc: Global) -> bool {
    let (key, other) = (TypeRecordIndex::from_u32(7), TypeRecordIndex::from_u32(8));
    is_placed(key, 7, other, true)
        & is_placed(TableIndex::from_u32(3), 3, TableIndex::from_u32(3), false)
        & has_number::<TypeVariantIndex>(0)
        & has_number::<OptionsIndex>(u32::MAX)
        & has_number::<ResourceId>(9)
        & is_key_shown(alloc)
        & is_shown(alloc, PushError::from(AllocError), "out of memory")
        & is_shown(alloc, PushError::TooLarge, "table too large")
}
