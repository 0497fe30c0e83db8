//! Regions of the memory that values go to, as realloc gives them.

ghost use Rattle.std.specs.Prelude.{◌≡◌, ◌≤◌, ◌∷◌, take as first, drop, IfOk, IfSome, IsNone};
ghost use Rattle.fact_host.specs.Allocator.{alone, asked_by, GivesRegion};
ghost use Rattle.fact_host.specs.Rules.{live_without, is_live, is_old_live, stays as region_stays, MustRefuse};
ghost use Rattle.std.specs.Prelude.{true};

use fact_lowering::Store;
use fact_wasm::{OutOfMemory, Seq};
use std::alloc::Global;

/// A part of a memory, in bytes, that is in use.
#[derive(Clone, Copy, PartialEq, Eq)]
pub struct Region {
    pub at: u64,
    pub size: u64,
}

/// Regions, the newest first, with a new one in the place of one that is given up, where that is among them.
pub fn replaced(
    alloc: Global,
    regions: &Seq<Region>,
    old: Region,
    new: Region,
) -> Result<Seq<Region>, OutOfMemory>
    ensures { IfOk result (λ all. all ≡ new ∷ live_without old regions.now) }
{
    let mut all = Seq::new(alloc);
    all.push(new)?;
    let mut is_replaced = false;
    for region in regions.as_slice() {
        if !is_replaced && *region == old {
            is_replaced = true;
        } else {
            all.push(*region)?;
        }
    }
    Ok(all)
}

/// What a call of realloc asks for: the region that is given up, the alignment, and the bytes of the new one.
#[derive(Clone, Copy)]
pub struct Request {
    pub old: Region,
    pub align: u64,
    pub size: u64,
}

/// Whether a region is among others.
fn is_among(regions: &Seq<Region>, region: Region) -> bool
    ensures { result ≡ is_live region regions.now }
{
    for other in regions.as_slice() {
        if other.at == region.at && other.size == region.size {
            return true;
        }
    }
    false
}

/// Whether the region that is given up is none, or among the live ones.
fn gives_up_live(live: &Seq<Region>, request: &Request) -> bool
    ensures { result ≡ is_old_live (alone 0 live.now) (asked_by request.now) }
{
    (request.old.at == 0 && request.old.size == 0) || is_among(live, request.old)
}

/// Whether a request's region stays where it is.
fn stays(request: &Request) -> bool
    requires { 1 ≤ request.now.align }
    ensures { result ≡ region_stays (asked_by request.now) }
{
    request.size <= request.old.size && request.old.at % request.align == 0
}

/// So many bytes from an address on, as far as they are there.
fn bytes_there(bytes: &[u8], at: u64, size: u64) -> &[u8]
    ensures { result.now ≡ first size (drop at bytes.now) }
{
    let length = bytes.len() as u64;
    if length <= at {
        return &[];
    }
    let behind = &bytes[at as usize..];
    if length - at <= size {
        behind
    } else {
        &behind[..size as usize]
    }
}

/// Gives the region of a request of a side that values go to, or `None` where it is refused: where the region begins. The bytes of the
/// one that is given up are copied as far as there is room.
pub fn reallocate(
    alloc: Global,
    store: &mut Store,
    live: &Seq<Region>,
    request: &Request,
) -> Result<Option<u64>, OutOfMemory>
    ensures refused { IfOk result (λ o. IsNone o → MustRefuse (alone store.old.cursor live.now) 0 true store.old.bytes.items (asked_by request.now)) }
    ensures gives { IfOk result (λ o. IfSome o (λ at. GivesRegion store.old.cursor live.now store.old.bytes.items (asked_by request.now) at store.new.cursor store.new.bytes.items)) }
{
    if request.align == 0 || !gives_up_live(live, request) {
        return Ok(None);
    }
    if stays(request) {
        return Ok(Some(request.old.at));
    }
    let Some(at) = store.take(request.align, request.size) else {
        return Ok(None);
    };
    let size = request.old.size.min(request.size);
    let kept = bytes_there(store.bytes.as_slice(), request.old.at, size);
    let kept: Vec<u8> = Vec::from_slice(alloc, kept)?;
    store.put(at, kept.as_slice());
    Ok(Some(at))
}
