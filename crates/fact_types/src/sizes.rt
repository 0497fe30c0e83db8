//! How wide discriminants and flags are.

ghost use Rattle.std.specs.Prelude.{◌≡◌, ◌<◌, ◌≤◌, ◌↔◌, ◌⊎◌, IsSome, IfSome};

/// The bytes of a variant's discriminant (canonical ABI, `discriminant_type`).
#[derive(Clone, Copy, PartialEq, Eq, Hash)]
pub enum DiscriminantSize {
    Size1,
    Size2,
    Size4,
}

impl DiscriminantSize {
    ghost use Rattle.fact_types.specs.Layout.{discriminant_size, discriminant_bytes};

    /// The fewest bytes that tell so many cases apart, or `None` above 4,294,967,295 cases.
    pub fn from_count(count: usize) -> Option<DiscriminantSize>
        ensures none { (result ≡ None) ↔ (4294967295 < count) }
        ensures size { IfSome result (λ size. size ≡ discriminant_size count) }
    {
        if count <= 256 {
            Some(DiscriminantSize::Size1)
        } else if count <= 65_536 {
            Some(DiscriminantSize::Size2)
        } else if count <= u32::MAX as usize {
            Some(DiscriminantSize::Size4)
        } else {
            None
        }
    }

    /// The discriminant of so many bytes, or `None` where that is not 1, 2 or 4.
    pub fn from_bytes(bytes: u32) -> Option<DiscriminantSize>
        ensures known { IsSome result ↔ ((bytes ≡ 1) ⊎ (bytes ≡ 2) ⊎ (bytes ≡ 4)) }
        ensures size { IfSome result (λ size. discriminant_bytes size ≡ bytes) }
    {
        match bytes {
            1 => Some(DiscriminantSize::Size1),
            2 => Some(DiscriminantSize::Size2),
            4 => Some(DiscriminantSize::Size4),
            _ => None,
        }
    }

    /// The number of bytes: 1, 2 or 4.
    pub fn byte_size(self) -> u32
        ensures { result ≡ discriminant_bytes self }
    {
        match self {
            DiscriminantSize::Size1 => 1,
            DiscriminantSize::Size2 => 2,
            DiscriminantSize::Size4 => 4,
        }
    }
}

impl From<DiscriminantSize> for u32 {
    ghost use Rattle.fact_types.specs.Layout.{discriminant_bytes};

    ghost from_gives = { λ size bytes. bytes ≡ discriminant_bytes size };

    fn from(size: DiscriminantSize) -> u32 {
        size.byte_size()
    }
}

/// The room that flags take (canonical ABI, `elem_size_flags`): none, one byte, two bytes, or a number of 4-byte words.
#[derive(Clone, Copy, PartialEq, Eq, Hash)]
pub enum FlagsSize {
    Size0,
    Size1,
    Size2,
    Size4Plus(u8),
}

impl FlagsSize {
    ghost use Rattle.fact_types.specs.Layout.{flags_size};

    /// The room for so many flags. Up to 8,160 flags take at most 255 words.
    pub fn from_count(count: usize) -> FlagsSize
        requires { count ≤ 8160 }
        ensures { result ≡ flags_size count }
    {
        if count == 0 {
            FlagsSize::Size0
        } else if count <= 8 {
            FlagsSize::Size1
        } else if count <= 16 {
            FlagsSize::Size2
        } else {
            FlagsSize::Size4Plus(count.div_ceil(32) as u8)
        }
    }
}
