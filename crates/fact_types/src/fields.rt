//! Fields of records, found by their names.

ghost use Rattle.std.specs.Prelude.{◌<◌, length};
ghost use Rattle.fact_types.specs.declared.interface.InterfaceType.TheVariants as ty;
ghost use Rattle.fact_types.specs.Fields.{field_of, Finds};
ghost use Rattle.fact_types.specs.Shapes.{Members, s_node, k_record};
ghost use Rattle.fact_types.specs.Tables.{HasShape};

use crate::flats::add_flat_counts;
use crate::interface::InterfaceType;
use crate::tables::ComponentTypes;
use fact_entity::TypeRecordIndex;
use fact_wasm::Text;

/// A field of a record, and where it stands: behind how many flat types, `None` above 16, and how many bytes from the
/// beginning of the record in either memory.
#[derive(Clone, Copy)]
pub struct FieldPlace {
    pub ty: InterfaceType,
    pub flat_place: Option<u8>,
    pub place32: u32,
    pub place64: u32,
}

impl ComponentTypes {
    /// The first field of a live record that has a name, or `None` where no field has it. It takes no memory.
    pub fn find_field(&self, i: TypeRecordIndex, name: &Text) -> Option<FieldPlace>
        requires { i.number < length self.now.records }
        ensures { (ms : Members) → HasShape self.now (ty.Record i) (s_node k_record ms) → Finds self.now ms result (field_of name.now ms) }
    {
        self.reveal();
        let _whole = self.canonical_abi(&InterfaceType::Record(i));
        let mut flat_place = Some(0);
        let mut end32 = 0;
        let mut end64 = 0;
        for field in self[i].fields.as_slice() {
            let abi = self.canonical_abi(&field.ty);
            let place32 = abi.next_field32(&mut end32);
            let place64 = abi.next_field64(&mut end64);
            if field.name == *name {
                return Some(FieldPlace {
                    ty: field.ty,
                    flat_place,
                    place32,
                    place64,
                });
            }
            flat_place = add_flat_counts(flat_place, abi.flat_count);
        }
        None
    }
}
