//! The calls of lists, texts and types that allocate.

use fact_wasm::{CoreTypes, Seq, Text, ValType};
use std::alloc::{AllocError, Global};

/// Pushes two items.
fn push_two(list: &mut Seq<u32>) -> Result<(), AllocError> {
    list.push(7)?;
    list.push(9)
}

/// Whether a list of two items is equal to a list of the same items.
fn is_equal(alloc: Global, list: &Seq<u32>) -> bool {
    let items = [7, 9];
    match Vec::from_slice(alloc, &items) {
        Ok(other) => (*list == Seq::from_vec(other)) & (list.as_slice() == items.as_slice()),
        Err(_) => false,
    }
}

/// Whether a list of two items has a copy of the same items.
fn has_copy(list: &Seq<u32>) -> bool {
    let copy: Result<Seq<u32>, _> = list.clone();
    matches!(copy, Ok(copy) if copy.as_slice() == [7, 9].as_slice())
}

/// Whether a list holds what is pushed, and is equal to a list of the same items and to its copy.
pub fn lists_hold_what_is_pushed(alloc: Global) -> bool {
    let mut list = Seq::new(alloc);
    let pushed = push_two(&mut list);
    pushed.is_ok() & is_equal(alloc, &list) & has_copy(&list)
}

/// Whether a text is equal to its copy, and both copies have its characters.
fn is_copied(text: &Text) -> Result<bool, AllocError> {
    let copy = text.try_clone()?;
    let clone = text.clone()?;
    Ok((copy == *text) & (copy.as_str() == "é\0") & (clone.as_str() == "é\0"))
}

/// Whether texts are copied.
pub fn texts_are_copied(alloc: Global) -> bool {
    match Text::from_str(alloc, "é\0") {
        Ok(text) => matches!(is_copied(&text), Ok(true)),
        Err(_) => false,
    }
}

/// Whether a signature has a place.
fn has_place(types: &mut CoreTypes, params: &[ValType], results: &[ValType], place: u32) -> bool {
    matches!(types.function(params, results), Ok(found) if found == place)
}

/// Whether each of six signatures has the place of its first equal one, among three.
fn have_places(types: &mut CoreTypes) -> bool {
    let number = [ValType::I32];
    has_place(types, &number, &[], 0)
        & has_place(types, &number, &[], 0)
        & has_place(types, &[], &[], 1)
        & has_place(types, &[], &number, 2)
        & has_place(types, &[], &[], 1)
        & has_place(types, &number, &[], 0)
        & (types.types().len() == 3)
}

/// Whether each of 300 signatures has the place of its number: of up to 19 parameters, and of up to 14 results.
fn have_many_places(types: &mut CoreTypes) -> bool {
    let (params, results) = ([ValType::I32; 20], [ValType::I64; 15]);
    for number in 0..300usize {
        let (takes, gives) = (&params[..number % 20], &results[..number / 20]);
        if !has_place(types, takes, gives, number as u32) {
            return false;
        }
    }
    true
}

/// Whether core types hold each signature once.
pub fn core_types_hold_each_signature_once(alloc: Global) -> bool {
    let mut few = CoreTypes::new(alloc);
    let have = have_places(&mut few);
    drop(few);
    let mut types = CoreTypes::new(alloc);
    let once = have_many_places(&mut types);
    let again = have_many_places(&mut types) && types.types().len() == 300;
    drop(types);
    have && once && again
}
