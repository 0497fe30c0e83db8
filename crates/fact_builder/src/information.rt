//! What is known of a type beside its layout.

ghost use Rattle.std.specs.Prelude.{◌≡◌, length, option_map};
ghost use Rattle.fact_types.specs.declared.extents.MemoryWidth.TheVariants.{Memory32, Memory64};
ghost use Rattle.fact_types.specs.FlatShapes.{flat_plain, when_upto, after_flat};
ghost use Rattle.fact_builder.specs.Information.{plain_information, nothing, followed, deeper as one_deeper, joined_flat, joined_information, tagged_flat, tagged as tagged_information, repeated_flat, repeated as repeated_information, with_flat, as_pointer_pair, as_handle, words};

use crate::flat_list::FlatList;
use fact_types::{FlatType, FlatTypes, InterfaceType};

/// How deep types are told to nest at most: above the 100 of valid types.
const MAX_NESTING: u32 = 101;

/// The flat types of a type in both widths of memory, none above 16, whether it holds a handle, a borrow, or a string, a list
/// or a map, and how deep it nests, up to 101.
#[derive(Drop)]
pub(crate) struct TypeInformation {
    pub(crate) flat32: Option<FlatList>,
    pub(crate) flat64: Option<FlatList>,
    pub(crate) has_handle: bool,
    pub(crate) has_borrow: bool,
    pub(crate) has_pointer_pair: bool,
    pub(crate) nesting: u32,
}

impl TypeInformation {
    /// No members.
    pub(crate) fn new() -> TypeInformation
        ensures { result ≡ nothing }
    {
        TypeInformation {
            flat32: Some(FlatList::new()),
            flat64: Some(FlatList::new()),
            has_handle: false,
            has_borrow: false,
            has_pointer_pair: false,
            nesting: 0,
        }
    }

    /// A type that is told by itself alone.
    pub(crate) fn of_plain(ty: &InterfaceType) -> TypeInformation
        ensures { result ≡ plain_information ty.now }
    {
        let flat = plain_flat_types(ty);
        TypeInformation {
            flat32: FlatList::new().followed_by(flat.memory32),
            flat64: FlatList::new().followed_by(flat.memory64),
            has_handle: matches!(
                *ty,
                InterfaceType::Own(_)
                    | InterfaceType::Borrow(_)
                    | InterfaceType::Future(_)
                    | InterfaceType::Stream(_)
                    | InterfaceType::ErrorContext(_)
            ),
            has_borrow: matches!(*ty, InterfaceType::Borrow(_)),
            has_pointer_pair: matches!(*ty, InterfaceType::String),
            nesting: 1,
        }
    }

    /// The same information.
    pub(crate) fn copied(&self) -> TypeInformation
        ensures { result ≡ self.now }
    {
        TypeInformation {
            flat32: copied(&self.flat32),
            flat64: copied(&self.flat64),
            has_handle: self.has_handle,
            has_borrow: self.has_borrow,
            has_pointer_pair: self.has_pointer_pair,
            nesting: self.nesting,
        }
    }

    /// The flat types, as many in either width of memory.
    pub(crate) fn flat_types(&self) -> Option<FlatTypes<'_>>
        requires { option_map length self.now.flat32 ≡ option_map length self.now.flat64 }
        ensures memory32 { option_map (λ f. f.memory32.now) result ≡ self.now.flat32 }
        ensures memory64 { option_map (λ f. f.memory64.now) result ≡ self.now.flat64 }
    {
        match (&self.flat32, &self.flat64) {
            (Some(memory32), Some(memory64)) => Some(FlatTypes {
                memory32: memory32.as_slice(),
                memory64: memory64.as_slice(),
            }),
            _ => None,
        }
    }

    /// This and then another member.
    pub(crate) fn followed_by(&self, next: &TypeInformation) -> TypeInformation
        ensures { result ≡ followed self.now next.now }
    {
        TypeInformation {
            flat32: flat_after(&self.flat32, &next.flat32),
            flat64: flat_after(&self.flat64, &next.flat64),
            has_handle: self.has_handle || next.has_handle,
            has_borrow: self.has_borrow || next.has_borrow,
            has_pointer_pair: self.has_pointer_pair || next.has_pointer_pair,
            nesting: self.nesting.max(next.nesting),
        }
    }

    /// This or another payload.
    pub(crate) fn joined_with(&self, other: &TypeInformation) -> TypeInformation
        ensures { result ≡ joined_information self.now other.now }
    {
        TypeInformation {
            flat32: flat_joined(&self.flat32, &other.flat32),
            flat64: flat_joined(&self.flat64, &other.flat64),
            has_handle: self.has_handle || other.has_handle,
            has_borrow: self.has_borrow || other.has_borrow,
            has_pointer_pair: self.has_pointer_pair || other.has_pointer_pair,
            nesting: self.nesting.max(other.nesting),
        }
    }

    /// A discriminant and then the payloads.
    pub(crate) fn tagged(&self) -> TypeInformation
        ensures { result ≡ tagged_information self.now }
    {
        TypeInformation {
            flat32: flat_tagged(&self.flat32),
            flat64: flat_tagged(&self.flat64),
            has_handle: self.has_handle,
            has_borrow: self.has_borrow,
            has_pointer_pair: self.has_pointer_pair,
            nesting: self.nesting,
        }
    }

    /// A member so many times.
    pub(crate) fn repeated(&self, count: u32) -> TypeInformation
        ensures { result ≡ repeated_information count self.now }
    {
        TypeInformation {
            flat32: flat_repeated(&self.flat32, count),
            flat64: flat_repeated(&self.flat64, count),
            has_handle: self.has_handle,
            has_borrow: self.has_borrow,
            has_pointer_pair: self.has_pointer_pair,
            nesting: self.nesting,
        }
    }

    /// So many words of 32 bits in the place of the members.
    pub(crate) fn with_words(&self, count: usize) -> TypeInformation
        ensures { result ≡ with_flat (words count) self.now }
    {
        TypeInformation {
            flat32: FlatList::words(count),
            flat64: FlatList::words(count),
            has_handle: self.has_handle,
            has_borrow: self.has_borrow,
            has_pointer_pair: self.has_pointer_pair,
            nesting: self.nesting,
        }
    }

    /// A pointer and a length in the place of the members.
    pub(crate) fn with_pointer_pair(&self) -> TypeInformation
        ensures { result ≡ as_pointer_pair self.now }
    {
        let flat = plain_flat_types(&InterfaceType::String);
        TypeInformation {
            flat32: FlatList::new().followed_by(flat.memory32),
            flat64: FlatList::new().followed_by(flat.memory64),
            has_handle: self.has_handle,
            has_borrow: self.has_borrow,
            has_pointer_pair: true,
            nesting: self.nesting,
        }
    }

    /// A handle that is no borrow in the place of the members.
    pub(crate) fn as_handle(&self) -> TypeInformation
        ensures { result ≡ as_handle self.now }
    {
        TypeInformation {
            flat32: FlatList::words(1),
            flat64: FlatList::words(1),
            has_handle: true,
            has_borrow: false,
            has_pointer_pair: false,
            nesting: self.nesting,
        }
    }

    /// The same, nesting one deeper.
    pub(crate) fn deeper(mut self) -> TypeInformation
        ensures { result ≡ one_deeper self }
    {
        self.nesting = self.nesting.saturating_add(1).min(MAX_NESTING);
        self
    }
}

/// The flat types of a type that is told by itself alone (canonical ABI, "Flattening").
pub(crate) fn plain_flat_types(ty: &InterfaceType) -> FlatTypes<'static>
    ensures memory32 { result.memory32.now ≡ flat_plain Memory32 ty.now }
    ensures memory64 { result.memory64.now ≡ flat_plain Memory64 ty.now }
{
    match *ty {
        InterfaceType::S64 | InterfaceType::U64 => same_flat_types(&[FlatType::I64]),
        InterfaceType::Float32 => same_flat_types(&[FlatType::F32]),
        InterfaceType::Float64 => same_flat_types(&[FlatType::F64]),
        InterfaceType::String => FlatTypes {
            memory32: &[FlatType::I32, FlatType::I32],
            memory64: &[FlatType::I64, FlatType::I64],
        },
        _ => same_flat_types(&[FlatType::I32]),
    }
}

/// The same flat types in both widths of memory.
fn same_flat_types(types: &'static [FlatType]) -> FlatTypes<'static>
    ensures memory32 { result.memory32.now ≡ types.now }
    ensures memory64 { result.memory64.now ≡ types.now }
{
    FlatTypes {
        memory32: types,
        memory64: types,
    }
}

/// Flat types one after another, none where there are none or more than 16.
fn flat_after(first: &Option<FlatList>, second: &Option<FlatList>) -> Option<FlatList>
    ensures { result ≡ when_upto 16 (after_flat first.now second.now) }
{
    match (first, second) {
        (Some(a), Some(b)) => a.followed_by(b.as_slice()),
        _ => None,
    }
}

/// Flat types joined place by place, none where there are none.
fn flat_joined(first: &Option<FlatList>, second: &Option<FlatList>) -> Option<FlatList>
    ensures { result ≡ joined_flat first.now second.now }
{
    match (first, second) {
        (Some(a), Some(b)) => Some(a.joined_with(b)),
        _ => None,
    }
}

/// A discriminant and then these flat types.
fn flat_tagged(payload: &Option<FlatList>) -> Option<FlatList>
    ensures { result ≡ tagged_flat payload.now }
{
    match payload {
        Some(list) => FlatList::words(1)?.followed_by(list.as_slice()),
        None => None,
    }
}

/// Flat types so many times.
fn flat_repeated(element: &Option<FlatList>, count: u32) -> Option<FlatList>
    ensures { result ≡ repeated_flat count element.now }
{
    if count == 0 {
        return Some(FlatList::new());
    }
    match element {
        Some(list) => list.repeated(count),
        None => None,
    }
}

/// The same flat types.
fn copied(list: &Option<FlatList>) -> Option<FlatList>
    ensures { result ≡ list.now }
{
    match list {
        Some(types) => Some(types.copied()),
        None => None,
    }
}
