//! Extents: what a value takes in one width of memory.

ghost use Rattle.std.specs.Prelude.{◌≡◌, ◌+◌, ◌<◌, ◌≤◌, ◌↔◌, IsTrue, max};
ghost use Rattle.std.specs.Int.{IsPowerOfTwo};
ghost use Rattle.fact_types.specs.Layout.{aligned};

/// A width of linear memory: addresses of 32 or of 64 bits.
#[derive(Clone, Copy)]
pub enum MemoryWidth {
    Memory32,
    Memory64,
}

/// The bytes that a value takes, and the number of bytes that its places are multiples of.
#[derive(Clone, Copy)]
pub struct Extent {
    pub size: u32,
    pub align: u32,
}

/// The least multiple of an alignment that is no less than a number of bytes (canonical ABI, `align_to`).
pub fn align_to(bytes: u32, align: u32) -> u32
    requires positive { 0 < align }
    requires fits { aligned bytes align ≤ 4294967295 }
    ensures { result ≡ aligned bytes align }
{
    bytes.next_multiple_of(align)
}

/// Whether that multiple is at most 4,294,967,295.
pub fn align_fits(bytes: u32, align: u32) -> bool
    requires { 0 < align }
    ensures { IsTrue result ↔ (aligned bytes align ≤ 4294967295) }
{
    bytes.checked_next_multiple_of(align).is_some()
}

/// Whether a number is a power of two.
pub fn is_power(number: u32) -> bool
    ensures { IsTrue result ↔ IsPowerOfTwo number }
{
    number.is_power_of_two()
}

impl Extent {
    ghost use Rattle.fact_types.specs.Fits.{FieldFits, ElementsFit};

    /// Places a field behind an offset: answers its place, and moves the offset to its end.
    pub fn next_field(self, offset: &mut u32) -> u32
        requires { FieldFits self offset.old }
        ensures place { result ≡ aligned offset.old self.align }
        ensures moved { offset.new ≡ aligned offset.old self.align + self.size }
    {
        let place = align_to(*offset, self.align);
        *offset = place + self.size;
        place
    }

    /// Whether a field can be placed behind an offset.
    pub fn next_field_fits(self, offset: u32) -> bool
        ensures { IsTrue result ↔ FieldFits self offset }
    {
        if !is_power(self.align) || !align_fits(offset, self.align) {
            return false;
        }
        align_to(offset, self.align) <= u32::MAX - self.size
    }

    /// Fields up to the end of one more that is placed behind them, before the size is rounded up.
    pub fn followed_by(self, field: Extent) -> Extent
        requires { FieldFits field self.size }
        ensures size { result.size ≡ aligned self.size field.align + field.size }
        ensures align { result.align ≡ max self.align field.align }
    {
        let mut size = self.size;
        field.next_field(&mut size);
        Extent {
            size,
            align: self.align.max(field.align),
        }
    }

    /// Whether so many elements, one after another, end within bounds.
    pub fn times_fits(self, count: u32) -> bool
        ensures { IsTrue result ↔ ElementsFit self count }
    {
        is_power(self.align) && self.size.checked_mul(count).is_some()
    }
}
