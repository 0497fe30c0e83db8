//! What a call hands over, into buffers of its caller's own.

ghost use Rattle.std.specs.Prelude.{◌≡◌, ◌≤◌, length};
ghost use Rattle.fact_library.specs.Giving.{IsFuel, IsGiven, IsHandedOver, LeadsTo, gift_of_error, gift_of_module, no_gift, over};

use crate::compiling::{Compiled, compile};
use crate::errors::CompileError;
use fact_records::ImportRecord;
use std::alloc::Global;

/// The most fuel that a caller may ask for; 1 is the least.
const MOST_FUEL: u32 = 1_000_000;
/// The status of a fuel that is none.
const NO_FUEL: u32 = 2;
/// The status of buffers that are too small.
const NO_ROOM: u32 = 10;

/// How much there is to hand over.
#[repr(C)]
#[derive(Clone, Copy)]
pub struct Sizes {
    /// The bytes of the module.
    pub bytes: usize,
    /// The records of its imports.
    pub records: usize,
    /// The bytes of the text: the one that the records point into, or the line that tells why there is no module.
    pub text: usize,
}

/// Puts bytes at the front of a buffer.
fn put_bytes(given: &[u8], buffer: &mut [u8])
    requires { length given.now ≤ length buffer.old }
    ensures { buffer.new ≡ over given.now buffer.old }
{
    buffer[..given.len()].copy_from_slice(given);
}

/// Puts records at the front of a buffer.
fn put_records(given: &[ImportRecord], buffer: &mut [ImportRecord])
    requires { length given.now ≤ length buffer.old }
    ensures { buffer.new ≡ over given.now buffer.old }
{
    buffer[..given.len()].copy_from_slice(given);
}

/// Hands over the number of a status, the bytes of a module, the records of its imports and a text, where there is room for all of it.
fn hand_over(
    status: u32,
    given_bytes: &[u8],
    given_records: &[ImportRecord],
    given_text: &[u8],
    bytes: &mut [u8],
    records: &mut [ImportRecord],
    text: &mut [u8],
    sizes: &mut Sizes,
) -> u32
    ensures { IsHandedOver (record { status = status; bytes = given_bytes.now; records = given_records.now; text = given_text.now }) sizes.new bytes.old bytes.new records.old records.new text.old text.new result }
{
    *sizes = Sizes {
        bytes: given_bytes.len(),
        records: given_records.len(),
        text: given_text.len(),
    };
    if bytes.len() < given_bytes.len() {
        return NO_ROOM;
    }
    if records.len() < given_records.len() {
        return NO_ROOM;
    }
    if text.len() < given_text.len() {
        return NO_ROOM;
    }
    put_bytes(given_bytes, bytes);
    put_records(given_records, records);
    put_bytes(given_text, text);
    status
}

/// Hands over a module.
fn hand_over_module(
    compiled: &Compiled,
    bytes: &mut [u8],
    records: &mut [ImportRecord],
    text: &mut [u8],
    sizes: &mut Sizes,
) -> u32
    ensures { IsHandedOver (gift_of_module compiled.now) sizes.new bytes.old bytes.new records.old records.new text.old text.new result }
{
    hand_over(
        0,
        compiled.fused.bytes.as_slice(),
        compiled.records.as_slice(),
        compiled.text.as_bytes(),
        bytes,
        records,
        text,
        sizes,
    )
}

/// Hands over the line that tells why there is no module.
fn hand_over_line(
    error: &CompileError,
    bytes: &mut [u8],
    records: &mut [ImportRecord],
    text: &mut [u8],
    sizes: &mut Sizes,
) -> u32
    ensures { IsHandedOver (gift_of_error error.now) sizes.new bytes.old bytes.new records.old records.new text.old text.new result }
{
    let number = u32::from(error.status().number());
    let line = error.line().as_bytes();
    hand_over(number, &[], &[], line, bytes, records, text, sizes)
}

/// Hands over nothing, where the fuel is none.
fn hand_over_nothing(
    bytes: &mut [u8],
    records: &mut [ImportRecord],
    text: &mut [u8],
    sizes: &mut Sizes,
) -> u32
    ensures { IsHandedOver no_gift sizes.new bytes.old bytes.new records.old records.new text.old text.new result }
{
    hand_over(NO_FUEL, &[], &[], &[], bytes, records, text, sizes)
}

/// Compiles the bytes of a plan, as [`compile`] does, and hands over what comes of it. `sizes` is set to how much that is. Where there is room
/// for all of it, the bytes of the module go to the front of `bytes`, the records of its imports to that of `records`, and the text that they point
/// into to that of `text`, and the answer is 0; without a module the line that tells why goes to the front of `text`, and the answer is the status of
/// `factc`: 5, 6, 7, 8 or 9. Where there is no room for all of it, nothing is written, and the answer is 10. A fuel that is none of 1 to
/// 1,000,000 is answered by 2, and nothing is told.
#[tactic(auto, using(crate::proofs::Comes::given_module, crate::proofs::Comes::given_nothing, crate::proofs::Comes::leads_given))]
pub fn compile_into(
    alloc: Global,
    plan: &[u8],
    debug: bool,
    fuel: u32,
    bytes: &mut [u8],
    records: &mut [ImportRecord],
    text: &mut [u8],
    sizes: &mut Sizes,
) -> u32
    ensures given { IsGiven debug fuel plan.now sizes.new bytes.old bytes.new records.old records.new text.old text.new result }
    ensures exactly { IsFuel fuel → LeadsTo plan.now result }
{
    if fuel < 1 {
        return hand_over_nothing(bytes, records, text, sizes);
    }
    if MOST_FUEL < fuel {
        return hand_over_nothing(bytes, records, text, sizes);
    }
    match compile(alloc, plan, debug, fuel) {
        Ok(compiled) => {
            let status = hand_over_module(&compiled, bytes, records, text, sizes);
            drop(compiled);
            status
        }
        Err(error) => {
            let status = hand_over_line(&error, bytes, records, text, sizes);
            drop(error);
            status
        }
    }
}
