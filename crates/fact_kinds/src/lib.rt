//! The code of each kind of type, its members aside: scalars, strings, flags and enums as a whole; of types with members what stands around
//! their members and pairs them, with the fuel that code takes and the calls of helpers.
//!
//! - Values without members: `leaves`, by `strings` and `flags` (enums too), and by scalars of `fact_emit`.
//! - Around members: records and tuples (`members`), variants, options and results (`sums`), lists (`lists`), maps (`maps`), lists of fixed length (`fixed`).
//! - What all of them use: `layouts`, the debug checks of `places`, `fuel`, and the calls of `helpers`, whose functions `fact_compound` writes.
#![tactic(auto)]

mod fixed;
mod flags;
mod fuel;
mod helpers;
mod layouts;
mod leaves;
mod lists;
mod maps;
mod members;
mod places;
mod strings;
mod sums;

pub use fixed::{
    FixedElements, close_fixed, free_fixed_locals, nth_source, nth_target, open_fixed,
    take_fixed_locals,
};
pub use flags::discriminant_number;
pub use fuel::{Fuel, cost};
pub use helpers::{call_helper, flat_types, helper_params};
pub use layouts::{alignment, byte_count, byte_place, flat_length, next_place};
pub use leaves::move_leaf;
pub use lists::{
    Elements, address_type, close_list, free_list_locals, open_list, take_list_locals,
};
pub use maps::{entries, value_place};
pub use members::{MemberPair, pair_fields, pair_members};
pub use places::check_places;
pub use sums::{
    PairedCase, Sum, option_sum, payload_place, put_discriminant, put_left_over, result_sum,
    variant_sum,
};
