//! Numbers whose bits go to places of their own, as those of flags in another order do. Bits that go the same distance go together, by
//! one mask and one shift.

ghost use Rattle.std.specs.Prelude.{IfOk, IfSome, IsTrue, OnOk, ◌≡◌, ◌≢◌, ◌<◌, ◌≤◌, ◌+◌, ◌^◌, ℕ, Some, length};
ghost use Rattle.std.specs.List.{AllByRecursion};
ghost use Rattle.fact_wasm.specs.declared.types.ValType.TheVariants as val;
ghost use Rattle.fact_code_laws.specs.Places.{N64};
ghost use Rattle.fact_emit.specs.Emits.{Emits};
ghost use Rattle.fact_emit.specs.MovesValue.{MovesValue, except, HasLocal};
ghost use Rattle.fact_emit.specs.Numbers.{number_sized, FitsUnchecked};
ghost use Rattle.fact_emit.specs.PlacedBits.{placed_bits, moved_bits, shift_code, bit_move_code, bit_moves_code, IsBitPlace, AreBitPlaces, IsMove, IsTogether, AddsPlace, MakeBits};
ghost use Rattle.fact_emit.specs.Places.{from_of, to_of};
ghost use Rattle.fact_emit.specs.Scalars.{number_moves};
ghost use Rattle.fact_emit.specs.Writers.{Wrote, taken_in};

use crate::numbers::{NumberSize, open, read_number, write_number};
use crate::places::{Sides, SourcePlace, TargetPlace};
use crate::writer::Writer;
use fact_wasm::{Instr, OutOfMemory, ValType};
use std::alloc::Global;

/// Bits of a number that go the same distance: the place that one of them leaves and the one that it goes to, and the bits that
/// they become.
#[derive(Clone, Copy)]
pub struct BitMove {
    pub from: u32,
    pub to: u32,
    pub mask: u32,
}

/// The number whose one bit is that at a place.
fn bit(place: u32) -> u32
    requires { place < 32 }
    ensures { result ≡ 2 ^ place }
{
    1 << place
}

/// Whether bits go as far as from one place to another.
fn goes_as_far(moved: BitMove, from: u32, to: u32) -> bool
    ensures { IsTrue result → moved.from + to ≡ from + moved.to }
{
    u64::from(moved.from) + u64::from(to) == u64::from(from) + u64::from(moved.to)
}

/// The place of a move of bits that go as far as from one place to another.
fn place_together(moves: &[BitMove], from: u32, to: u32) -> Option<usize>
    ensures { IfSome result (λ at. IsTogether moves.now at from to) }
{
    for at in 0..moves.len() {
        if goes_as_far(moves[at], from, to) {
            return Some(at);
        }
    }
    None
}

/// Lets the bit at a place go to another one too, past those that bits go to so far: with those that go as far, where there are some.
fn add_bit(moves: &mut Vec<BitMove>, from: u32, to: u32) -> Result<(), OutOfMemory>
    requires leaves { from < 32 }
    requires goes { to < 32 }
    requires each { AllByRecursion (IsMove to) moves.old.items }
    ensures { OnOk result (AddsPlace moves.old.items moves.new.items (Some from) to) }
{
    match place_together(moves, from, to) {
        Some(at) => {
            let moved = moves[at];
            moves[at] = BitMove {
                from: moved.from,
                to: moved.to,
                mask: moved.mask | bit(to),
            };
            Ok(())
        }
        None => {
            moves.push(BitMove {
                from,
                to,
                mask: bit(to),
            })?;
            Ok(())
        }
    }
}

/// Lets the bit at a place, where there is one, go to another one too.
fn add_place(moves: &mut Vec<BitMove>, place: Option<u32>, to: u32) -> Result<(), OutOfMemory>
    requires leaves { IsBitPlace place }
    requires goes { to < 32 }
    requires each { AllByRecursion (IsMove to) moves.old.items }
    ensures { OnOk result (AddsPlace moves.old.items moves.new.items place to) }
{
    match place {
        Some(from) => add_bit(moves, from, to),
        None => Ok(()),
    }
}

/// The moves that make of a number that of its bits at these places, the first the lowest; 0 where there is no place.
fn bit_moves(alloc: Global, places: &[Option<u32>]) -> Result<Vec<BitMove>, OutOfMemory>
    requires { AreBitPlaces places.now }
    ensures { IfOk result (λ moves. MakeBits moves.items places.now) }
{
    let mut moves = Vec::new(alloc);
    for to in 0..places.len() {
        add_place(&mut moves, places[to], to as u32)?;
    }
    Ok(moves)
}

/// Shifts a number on the operand stack by the distance of two places.
fn put_shift(w: &mut Writer, from: u32, to: u32) -> Result<(), OutOfMemory>
    ensures { OnOk result (Wrote w.old w.new (shift_code from to)) }
{
    if to < from {
        w.put(Instr::I32Const(from - to))?;
        w.put(Instr::I32ShrU)?;
        return Ok(());
    }
    if from < to {
        w.put(Instr::I32Const(to - from))?;
        w.put(Instr::I32Shl)?;
    }
    Ok(())
}

/// Puts the bits that a move takes of a number in a local to those of a number on the operand stack.
fn put_bit_move(w: &mut Writer, local: u32, moved: BitMove) -> Result<(), OutOfMemory>
    ensures { OnOk result (Wrote w.old w.new (bit_move_code local moved)) }
{
    w.put(Instr::LocalGet(local))?;
    put_shift(w, moved.from, moved.to)?;
    w.put(Instr::I32Const(moved.mask))?;
    w.put(Instr::I32And)?;
    w.put(Instr::I32Or)?;
    Ok(())
}

/// Puts the number of the bits that moves take of a number in a local.
fn put_bit_moves(w: &mut Writer, local: u32, moves: &[BitMove]) -> Result<(), OutOfMemory>
    ensures { OnOk result (Wrote w.old w.new (bit_moves_code local moves.now)) }
{
    w.put(Instr::I32Const(0))?;
    let mut left = moves.len();
    while left > 0 {
        left -= 1;
        put_bit_move(w, local, moves[left])?;
    }
    Ok(())
}

/// Moves a number of at most 32 bits to the number of the bits that these moves take, through a local.
fn move_bits_by(
    w: &mut Writer,
    sides: Sides,
    number: NumberSize,
    moves: &[BitMove],
    local: u32,
    source: SourcePlace<'_>,
    target: TargetPlace<'_>,
) -> Result<(), OutOfMemory>
    requires short { number_sized number ≢ N64 }
    requires few { length moves.now ≤ 32 }
    requires small { (x : ℕ) → moved_bits moves.now x < 2 ^ 32 }
    ensures { OnOk result (Emits w.old w.new (MovesValue sides (from_of sides.from source.entry) (to_of sides.to target.entry) (except local (taken_in w.old)) 600 (λ S. FitsUnchecked (number_sized number) (from_of sides.from source.entry) (to_of sides.to target.entry) S × HasLocal local val.I32 S) (number_moves (number_sized number) (moved_bits moves.now)))) }
{
    open(w, sides.to, target)?;
    read_number(w, sides.debug, sides.from, number, source)?;
    w.put(Instr::LocalSet(local))?;
    put_bit_moves(w, local, moves)?;
    write_number(w, sides.to, number, target)?;
    Ok(())
}

/// Moves a number of at most 32 bits to the number of its bits at these places, the first the lowest; 0 where there is no place. It
/// takes at most 300 steps.
pub fn move_bits(
    w: &mut Writer,
    sides: Sides,
    number: NumberSize,
    places: &[Option<u32>],
    source: SourcePlace<'_>,
    target: TargetPlace<'_>,
) -> Result<(), OutOfMemory>
    requires short { number_sized number ≢ N64 }
    requires places { AreBitPlaces places.now }
    ensures { OnOk result (Emits w.old w.new (MovesValue sides (from_of sides.from source.entry) (to_of sides.to target.entry) (taken_in w.old) 600 (FitsUnchecked (number_sized number) (from_of sides.from source.entry) (to_of sides.to target.entry)) (number_moves (number_sized number) (placed_bits places.now)))) }
{
    let moves = bit_moves(w.alloc, places)?;
    let local = w.take_local(ValType::I32)?;
    move_bits_by(w, sides, number, &moves, local, source, target)?;
    w.free_local(local)?;
    Ok(())
}
