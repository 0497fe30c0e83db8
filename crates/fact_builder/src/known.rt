//! What is known of types, worked out from what is known of their members.

ghost use Rattle.std.specs.Prelude.{◌≡◌, map, cond, Some, OnOk, OnErr, IfErr};
ghost use Rattle.fact_types.specs.declared.interface.InterfaceType.{InterfaceType};
ghost use Rattle.indexmap.specs.IndexMap.{get, values};
ghost use Rattle.fact_builder.specs.Information.{known as known_by, nothing, deeper, known_field, known_payload, product_from, joined_member, sum_from};

use crate::information::TypeInformation;
use fact_entity::PushError;
use fact_types::{InterfaceType, RecordField};
use fact_wasm::Text;
use indexmap::IndexMap;

/// What is known of a type: what is kept of it, or else what it tells alone.
pub(crate) fn known(
    kept: &IndexMap<InterfaceType, TypeInformation>,
    ty: &InterfaceType,
) -> TypeInformation
    ensures { result ≡ known_by (get ⟦<InterfaceType as PartialEq>⟧.eq kept.now) ty.now }
{
    match kept.get(ty) {
        Some(information) => information.copied(),
        None => TypeInformation::of_plain(ty),
    }
}

/// Fields one after another.
pub(crate) fn product_of_fields(
    kept: &IndexMap<InterfaceType, TypeInformation>,
    fields: &[RecordField],
) -> TypeInformation
    ensures { result ≡ product_from nothing (map (known_field (get ⟦<InterfaceType as PartialEq>⟧.eq kept.now)) fields.now) }
{
    let mut all = TypeInformation::new();
    for field in fields {
        all = all.followed_by(&known(kept, &field.ty));
    }
    all
}

/// Members of a tuple one after another.
pub(crate) fn product_of_types(
    kept: &IndexMap<InterfaceType, TypeInformation>,
    types: &[InterfaceType],
) -> TypeInformation
    ensures { result ≡ product_from nothing (map (known_by (get ⟦<InterfaceType as PartialEq>⟧.eq kept.now)) types.now) }
{
    let mut all = TypeInformation::new();
    for ty in types {
        all = all.followed_by(&known(kept, ty));
    }
    all
}

/// Payloads, and one more if there is one.
pub(crate) fn with_payload(
    kept: &IndexMap<InterfaceType, TypeInformation>,
    all: TypeInformation,
    payload: Option<InterfaceType>,
) -> TypeInformation
    ensures { result ≡ joined_member all (known_payload (get ⟦<InterfaceType as PartialEq>⟧.eq kept.now) payload) }
{
    match payload {
        Some(ty) => all.joined_with(&known(kept, &ty)),
        None => all,
    }
}

/// The payloads of cases.
pub(crate) fn sum_of_cases(
    kept: &IndexMap<InterfaceType, TypeInformation>,
    cases: &IndexMap<Text, Option<InterfaceType>>,
) -> TypeInformation
    ensures { result ≡ sum_from nothing (map (known_payload (get ⟦<InterfaceType as PartialEq>⟧.eq kept.now)) (values cases.now)) }
{
    let mut all = TypeInformation::new();
    for payload in cases.values().as_slice() {
        all = with_payload(kept, all, *payload);
    }
    all
}

/// Keeps what is known of a type over its members, which nest one less deep.
pub(crate) fn keep(
    kept: &mut IndexMap<InterfaceType, TypeInformation>,
    ty: InterfaceType,
    information: TypeInformation,
) -> Result<(), PushError>
    ensures kept { OnOk result ((q : InterfaceType) → get ⟦<InterfaceType as PartialEq>⟧.eq kept.new q ≡ cond (⟦<InterfaceType as PartialEq>⟧.eq ty q) (Some (deeper information)) (get ⟦<InterfaceType as PartialEq>⟧.eq kept.old q)) }
    ensures refused { OnErr result ((q : InterfaceType) → get ⟦<InterfaceType as PartialEq>⟧.eq kept.new q ≡ get ⟦<InterfaceType as PartialEq>⟧.eq kept.old q) }
    ensures cause { IfErr result (λ e. e ≡ PushError.OutOfMemory) }
{
    kept.insert(ty, information.deeper())?;
    Ok(())
}
