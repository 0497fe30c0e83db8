//! Options of an adapter that do not go together.

ghost use Rattle.std.specs.Prelude.{◌≡◌, ◌↔◌, ◌||◌, IsTrue};
ghost use Rattle.fact_adapter_rules.specs.AdapterRules.{HasBadOptions, holds_handle as holds_handle_in};
ghost use Rattle.fact_types.specs.Adapters.{LinkedAdapter};
ghost use Rattle.fact_adapter_rules.specs.Linked.{HasSides, IsLinked, NamesTypesOf};

use crate::adapter::Adapter;
use crate::sides::{Candidate, is_async, is_crossing};
use fact_builder::ComponentTypesBuilder;

/// Whether a parameter or a result of one of the two functions holds a handle.
fn holds_handle(builder: &ComponentTypesBuilder, adapter: &Adapter) -> bool
    requires { NamesTypesOf builder.now adapter.now }
    ensures { (linked : LinkedAdapter) → HasSides builder.now adapter.now linked → result ≡ (holds_handle_in linked.lift || holds_handle_in linked.lower) }
{
    builder.func_contains_any_handle(adapter.lift_ty)
        || builder.func_contains_any_handle(adapter.lower_ty)
}

/// Whether the side that lowers has a post-return, an async adapter between two instances comes without concurrency, or a
/// transparent adapter has a function that holds a handle.
pub(crate) fn has_bad_options(
    builder: &ComponentTypesBuilder,
    concurrency: bool,
    candidate: &Candidate<'_>,
) -> bool
    requires { NamesTypesOf builder.now candidate.now.adapter.now }
    ensures { (linked : LinkedAdapter) → IsLinked builder.now candidate.now linked → (IsTrue result ↔ HasBadOptions concurrency linked) }
{
    let adapter = candidate.adapter;
    if adapter.lower_options.post_return.is_some() {
        return true;
    }
    if is_async(builder, adapter) && is_crossing(builder, adapter) && !concurrency {
        return true;
    }
    candidate.transparent && holds_handle(builder, adapter)
}
