//! A memory whose free part begins at a cursor that only rises.

ghost use Rattle.std.specs.Prelude.{◌≡◌, ◌+◌, ◌<◌, ◌≤◌, ◌^◌, length, take as first, drop, IfOk, IfSome, IsNone, OnOk};
ghost use Rattle.fact_types.specs.Layout.{aligned as next_aligned};
ghost use Rattle.fact_machine.specs.World.{bytes_of, put_at, with_number};
ghost use Rattle.fact_lowering.specs.Lowered.{LacksRoom, Rises};

use fact_wasm::OutOfMemory;
use std::alloc::Global;

/// The bytes of a memory, of which those from the cursor on are free.
#[derive(Drop)]
pub struct Store {
    pub bytes: Vec<u8>,
    pub cursor: u64,
}

impl Store {
    /// A copy of a memory.
    pub fn of_memory(alloc: Global, bytes: &[u8], cursor: u64) -> Result<Store, OutOfMemory>
        ensures bytes { IfOk result (λ s. s.bytes.items ≡ bytes.now) }
        ensures cursor { IfOk result (λ s. s.cursor ≡ cursor) }
    {
        let bytes = Vec::from_slice(alloc, bytes)?;
        Ok(Store { bytes, cursor })
    }

    /// Takes the next region of so many bytes at a multiple of an alignment, or `None` where it does not fit.
    pub fn take(&mut self, align: u64, size: u64) -> Option<u64>
        requires { 1 ≤ align }
        ensures at { IfSome result (λ at. at ≡ next_aligned self.old.cursor align) }
        ensures fits { IfSome result (λ at. at + size ≤ length self.old.bytes.items) }
        ensures rises { IfSome result (λ at. self.new.cursor ≡ at + size) }
        ensures up { IfSome result (λ at. Rises self.old.cursor self.new.cursor (align + size) self.new.bytes.items) }
        ensures no_room { IsNone result → length self.old.bytes.items < next_aligned self.old.cursor align + size }
        ensures lacks { IsNone result → LacksRoom self.old.cursor (align + size) self.old.bytes.items }
        ensures stays { IsNone result → self.new.cursor ≡ self.old.cursor }
        ensures bytes { self.new.bytes ≡ self.old.bytes }
    {
        let length = self.bytes.len() as u64;
        match next_region(self.cursor, length, align, size) {
            Some(at) => {
                self.cursor = at + size;
                Some(at)
            }
            None => None,
        }
    }

    /// Puts bytes at an address, where all of them have their places.
    pub fn put(&mut self, address: u64, bytes: &[u8])
        requires { address + length bytes.now ≤ length self.old.bytes.items }
        ensures bytes { self.new.bytes.items ≡ put_at self.old.bytes.items address bytes.now }
        ensures cursor { self.new.cursor ≡ self.old.cursor }
    {
        let start = address as usize;
        let end = start + bytes.len();
        self.bytes[start..end].copy_from_slice(bytes);
    }

    /// Puts the so many lowest bytes of a number at an address, the lowest first.
    pub fn put_number(
        &mut self,
        alloc: Global,
        address: u64,
        size: usize,
        number: u64,
    ) -> Result<(), OutOfMemory>
        requires { address + size ≤ length self.old.bytes.items }
        ensures bytes { OnOk result (self.new.bytes.items ≡ with_number size self.old.bytes.items address number) }
        ensures cursor { self.new.cursor ≡ self.old.cursor }
    {
        let bytes = number_bytes(alloc, size, number)?;
        self.put(address, bytes.as_slice());
        Ok(())
    }

    /// Copies bytes from one address to another.
    pub fn copy(&mut self, alloc: Global, from: u64, to: u64, size: u64) -> Result<(), OutOfMemory>
        requires from { from + size ≤ length self.old.bytes.items }
        requires to { to + size ≤ length self.old.bytes.items }
        ensures bytes { OnOk result (self.new.bytes.items ≡ put_at self.old.bytes.items to (first size (drop from self.old.bytes.items))) }
        ensures cursor { self.new.cursor ≡ self.old.cursor }
    {
        let start = from as usize;
        let bytes = Vec::from_slice(alloc, &self.bytes[start..start + size as usize])?;
        self.put(to, bytes.as_slice());
        Ok(())
    }
}

/// The so many lowest bytes of a number, the lowest first.
fn number_bytes(alloc: Global, size: usize, number: u64) -> Result<Vec<u8>, OutOfMemory>
    ensures { IfOk result (λ bytes. bytes.items ≡ bytes_of size number) }
{
    let mut bytes = Vec::new(alloc);
    let mut rest = number;
    for _ in 0..size {
        bytes.push((rest % 0x100) as u8)?;
        rest /= 0x100;
    }
    Ok(bytes)
}

/// Where the next region of so many bytes begins at a multiple of an alignment in so many bytes, or `None` where it does not fit.
fn next_region(cursor: u64, length: u64, align: u64, size: u64) -> Option<u64>
    requires { 1 ≤ align }
    ensures at { IfSome result (λ at. at ≡ next_aligned cursor align) }
    ensures fits { IfSome result (λ at. at + size ≤ length) }
    ensures no_room { IsNone result → length < next_aligned cursor align + size }
{
    let at = aligned(cursor, align)?;
    let end = at.checked_add(size)?;
    if end > length {
        return None;
    }
    Some(at)
}

/// The least multiple of an alignment that is no less than a number, where there is one of 64 bits.
fn aligned(number: u64, align: u64) -> Option<u64>
    requires { 1 ≤ align }
    ensures value { IfSome result (λ n. n ≡ next_aligned number align) }
    ensures large { IsNone result → 2 ^ 64 ≤ next_aligned number align }
{
    number.checked_add((align - number % align) % align)
}
