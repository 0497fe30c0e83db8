//! Values lowered into memories and core values (canonical ABI, "Storing" and "Flat Lowering"), so that `fact_abi::load` and `fact_abi::lift`
//! give back what was stored; and how much room values take on their way.
//!
//! - Whole lists of parameters and results: `tuples` (lowered) and `lifted`.
//! - A value: in core values (`lowering`, over `flats`), in memory (`storing`, into a `store`, at `places`); its parts: `numbers`, `flags`, texts
//!   (`spelling`).
//! - `room`: whether values fit the memories of a host.
#![tactic(auto)]

mod flags;
mod flats;
mod lifted;
mod lowering;
mod numbers;
mod places;
mod room;
mod spelling;
mod store;
mod storing;
mod tuples;

pub use fact_wasm::OutOfMemory;
pub use flats::{flat_all, flat_types, pointer_type};
pub use lifted::{lift_behind, lift_results, lift_tuple};
pub use lowering::{lower_value, pointer_of};
pub use numbers::{address_value, core_value, number_of_core};
pub use places::Lowering;
pub use room::fits;
pub use spelling::{push_utf16, spelled, stored_encoding, unit_bytes, units_of_char};
pub use store::Store;
pub use storing::store_value;
pub use tuples::{lower_tuple, set_aside};
