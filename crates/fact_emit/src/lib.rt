//! The parts of adapter code as it is written: what a module imports, the locals of a function, and the code pieces that read,
//! check, convert and write values at places. What each function ensures is what the code does that it has written.
//!
//! - The module around the code: its sections (`sections`), what it imports (`imported`, `core_imports`, `runtime`, `transcoders`, `task_calls`), its helpers
//!   (`helpers`), and what it is made with (`tunables`, `options`).
//! - The code of a function: `writer`, over `places` and locals (`freed_locals`), in memories of both widths (`width`).
//! - Pieces: tests that trap (`checks`); numbers (`numbers`, `bits`, `scalars`); pointers, regions and their requests (`pointers`, `pairs`, `requests`);
//!   choices, loops and barriers (`choices`, `loops`, `barriers`); calls of the runtime (`calls`, `handles`, `context`).
//! - Strings: `strings`, by the steps of `paths`, whose code is in `string_code` and `passes`, over `string_locals`.
#![tactic(auto)]

mod barriers;
mod bits;
mod calls;
mod checks;
mod choices;
mod context;
mod core_imports;
mod freed_locals;
mod handles;
mod helpers;
mod imported;
mod loops;
mod numbers;
mod options;
mod pairs;
mod passes;
mod paths;
mod places;
mod pointers;
mod requests;
mod runtime;
mod scalars;
mod sections;
mod string_code;
mod string_locals;
mod strings;
mod task_calls;
mod transcoders;
mod tunables;
mod width;
mod writer;

pub use barriers::put_barrier;
pub use bits::move_bits;
pub use calls::call_runtime;
pub use checks::{check_source, check_target, put_guard};
pub use choices::put_cases;
pub use context::{ContextLocals, read_context, restore_context};
pub use fact_types::Import;
pub use freed_locals::free_locals;
pub use handles::{handle_transfer, move_handle};
pub use helpers::{Helper, HelperLocation, HelperType};
pub use imported::RuntimeFunction;
pub use loops::{put_countdown, put_counted};
pub use numbers::{NumberSize, open, read_number, write_number};
pub use options::{LinearMemoryOptions, Options};
pub use pairs::{read_pair, write_pair};
pub use places::{Address, LinearMemory, Sides, SourcePlace, TargetPlace, TypedLocal};
pub use pointers::{check_area, check_region};
pub use requests::{NewRegion, ask_area, put_address, put_bytes, put_const, reallocate};
pub use runtime::{slot_name, trap_number};
pub use scalars::{Canonical, NumberTest, move_number, move_scalar, move_tested};
pub use sections::ModuleSections;
pub use string_locals::{free_string_locals, take_string_locals};
pub use strings::move_string_by;
pub use task_calls::{PREPARE_CALL_FIXED_PARAMS, StartCall};
pub use transcoders::{Transcoder, transcode_name};
pub use tunables::{Tunables, WasmFeatures};
pub use width::{W32, W64, Width};
pub use writer::{Local, Writer};
