//! The types of locals.

ghost use Rattle.std.specs.Prelude.{◌≡◌, ◌++◌, IfOk, slice_get};
ghost use Rattle.fact_machine.specs.Typing.{local_types};
ghost use Rattle.fact_check.specs.Sections.{ends_from};

use crate::OutOfMemory;
use fact_wasm::{Seq, ValType};
use std::alloc::Global;

/// How many locals there are up to the end of each run.
pub fn ends_of(alloc: Global, locals: &[(u32, ValType)]) -> Result<Seq<u64>, OutOfMemory>
    ensures { IfOk result (λ ends. ends ≡ ends_from 0 locals.now) }
{
    let mut ends = Seq::new(alloc);
    let mut end = 0u64;
    for (count, _) in locals {
        end = end.saturating_add(*count as u64);
        ends.push(end)?;
    }
    Ok(ends)
}

/// The type of the nth local, the parameters first. The declared ones stand in runs of one type, which end there.
pub fn local_type(
    params: &[ValType],
    locals: &[(u32, ValType)],
    ends: &Seq<u64>,
    n: u32,
) -> Option<ValType>
    requires { ends.now ≡ ends_from 0 locals.now }
    ensures { result ≡ slice_get (params.now ++ local_types locals.now) n }
{
    let place = n as usize;
    if place < params.len() {
        return Some(params[place]);
    }
    let place = (place - params.len()) as u64;
    let run = ends.as_slice().partition_point(|end| *end <= place);
    match locals.get(run) {
        Some((_, ty)) => Some(*ty),
        None => None,
    }
}
