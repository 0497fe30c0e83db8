//! The tests by their names.

use crate::entities::{equal_values_have_one_key, keys_are_numbers, tables_answer_places};
use crate::externs::imports_and_exports_are_told;
use crate::lists::{
    core_types_hold_each_signature_once, lists_hold_what_is_pushed, texts_are_copied,
};
use crate::sizes::parts_are_told;
use crate::tables::{module_types_stand_once, tables_hold_what_is_pushed};
use crate::traces::traces_visit_in_order;
use crate::traits::{plain_values_are_copied, what_has_names_is_cloned};
use std::alloc::Global;

/// Whether a test of keys, tables and sizes, or of lists, finds all as it should be.
fn holds_below(alloc: Global, name: &str) -> bool {
    match name {
        "keys" => keys_are_numbers(alloc),
        "tables" => tables_answer_places(alloc),
        "distinct values" => equal_values_have_one_key(alloc),
        "sizes" => parts_are_told(),
        "lists" => lists_hold_what_is_pushed(alloc),
        "texts" => texts_are_copied(alloc),
        "signatures" => core_types_hold_each_signature_once(alloc),
        _ => false,
    }
}

/// Whether the test of a name finds all as it should be. There is none of another name.
pub fn holds(alloc: Global, name: &str) -> bool {
    match name {
        "exports and imports" => imports_and_exports_are_told(alloc),
        "type tables" => tables_hold_what_is_pushed(alloc),
        "module types" => module_types_stand_once(alloc),
        "traces" => traces_visit_in_order(alloc),
        "plain values" => plain_values_are_copied(alloc),
        "named values" => what_has_names_is_cloned(alloc),
        _ => holds_below(alloc, name),
    }
}
