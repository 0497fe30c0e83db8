//! Which indices name entries of the tables.

ghost use Rattle.std.specs.Prelude.{◌↔◌, ◌<◌, IsTrue, length};
ghost use Rattle.fact_types.specs.Tables.{IsLive};

use crate::interface::InterfaceType;
use crate::tables::ComponentTypes;
use fact_entity::{EntityRef, PrimaryMap};

/// Whether a key names an entry of a table.
fn is_key<K: EntityRef, V>(table: &PrimaryMap<K, V>, key: K) -> bool
    ensures { IsTrue result ↔ (K.number key < length table.now) }
{
    (key.as_u32() as usize) < table.len()
}

impl ComponentTypes {
    /// Whether a type is live: it holds no index, or its index names an entry.
    pub fn is_live(&self, ty: InterfaceType) -> bool
        ensures { IsTrue result ↔ IsLive self.now ty }
    {
        match ty {
            InterfaceType::Bool
            | InterfaceType::S8
            | InterfaceType::U8
            | InterfaceType::S16
            | InterfaceType::U16
            | InterfaceType::S32
            | InterfaceType::U32
            | InterfaceType::S64
            | InterfaceType::U64
            | InterfaceType::Float32
            | InterfaceType::Float64
            | InterfaceType::Char
            | InterfaceType::String => true,
            InterfaceType::Record(i) => is_key(&self.records, i),
            InterfaceType::Variant(i) => is_key(&self.variants, i),
            InterfaceType::List(i) => is_key(&self.lists, i),
            InterfaceType::Tuple(i) => is_key(&self.tuples, i),
            InterfaceType::Map(i) => is_key(&self.maps, i),
            InterfaceType::Flags(i) => is_key(&self.flags, i),
            InterfaceType::Enum(i) => is_key(&self.enums, i),
            InterfaceType::Option(i) => is_key(&self.options, i),
            InterfaceType::Result(i) => is_key(&self.results, i),
            InterfaceType::Own(i) | InterfaceType::Borrow(i) => is_key(&self.resource_tables, i),
            InterfaceType::Future(i) => is_key(&self.future_tables, i),
            InterfaceType::Stream(i) => is_key(&self.stream_tables, i),
            InterfaceType::ErrorContext(i) => is_key(&self.error_context_tables, i),
            InterfaceType::FixedLengthList(i) => is_key(&self.fixed_length_lists, i),
        }
    }
}
