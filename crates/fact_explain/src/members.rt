//! The members of a plan's types.

ghost use Rattle.std.specs.Prelude.{◌≡◌, ◌∷◌, [], IfOk, map};
ghost use Rattle.fact_explain.specs.Layouts.{member_types};

use fact_plan::{PlanRef, PlanType};
use fact_wasm::{OutOfMemory, Text};
use std::alloc::Global;

/// A member of a type: its name, where it has one, and its type, where it has one.
#[derive(Clone, Copy, Drop)]
pub(crate) struct Member<'a> {
    pub name: &'a str,
    pub ty: Option<PlanRef>,
}

/// Fields, or parameters.
pub(crate) fn of_fields<'a>(
    alloc: Global,
    fields: &'a [(Text, PlanRef)],
) -> Result<Vec<Member<'a>>, OutOfMemory>
    ensures { IfOk result (λ members. map (λ m. m.ty) members.items ≡ map (λ f. Some f.1) fields.now) }
{
    let mut members = Vec::new(alloc);
    for (name, ty) in fields {
        members.push(Member {
            name: name.as_str(),
            ty: Some(*ty),
        })?;
    }
    Ok(members)
}

fn of_cases<'a>(
    alloc: Global,
    cases: &'a [(Text, Option<PlanRef>)],
) -> Result<Vec<Member<'a>>, OutOfMemory>
    ensures { IfOk result (λ members. map (λ m. m.ty) members.items ≡ map (λ c. c.1) cases.now) }
{
    let mut members = Vec::new(alloc);
    for (name, ty) in cases {
        members.push(Member {
            name: name.as_str(),
            ty: *ty,
        })?;
    }
    Ok(members)
}

fn of_names<'a>(alloc: Global, names: &'a [Text]) -> Result<Vec<Member<'a>>, OutOfMemory>
    ensures { IfOk result (λ members. map (λ m. m.ty) members.items ≡ map (λ n. None) names.now) }
{
    let mut members = Vec::new(alloc);
    for name in names {
        members.push(Member {
            name: name.as_str(),
            ty: None,
        })?;
    }
    Ok(members)
}

/// Types without names, as those of a tuple or of results.
pub(crate) fn of_types<'a>(
    alloc: Global,
    types: &'a [PlanRef],
) -> Result<Vec<Member<'a>>, OutOfMemory>
    ensures { IfOk result (λ members. map (λ m. m.ty) members.items ≡ map (λ t. Some t) types.now) }
{
    let mut members = Vec::new(alloc);
    for ty in types {
        members.push(Member {
            name: "",
            ty: Some(*ty),
        })?;
    }
    Ok(members)
}

fn one<'a>(
    alloc: Global,
    name: &'a str,
    ty: Option<PlanRef>,
) -> Result<Vec<Member<'a>>, OutOfMemory>
    ensures { IfOk result (λ members. map (λ m. m.ty) members.items ≡ ty ∷ []) }
{
    Ok(vec![in alloc; Member { name, ty }]?)
}

fn two<'a>(
    alloc: Global,
    first_name: &'a str,
    first: Option<PlanRef>,
    second_name: &'a str,
    second: Option<PlanRef>,
) -> Result<Vec<Member<'a>>, OutOfMemory>
    ensures { IfOk result (λ members. map (λ m. m.ty) members.items ≡ first ∷ second ∷ []) }
{
    let first = Member {
        name: first_name,
        ty: first,
    };
    let second = Member {
        name: second_name,
        ty: second,
    };
    Ok(vec![in alloc; first, second]?)
}

/// The members of an entry, in order: fields, cases, flags, and the types that a type is made of, payloads among them.
pub(crate) fn members_of<'a>(
    alloc: Global,
    entry: &'a PlanType,
) -> Result<Vec<Member<'a>>, OutOfMemory>
    ensures { IfOk result (λ members. map (λ m. m.ty) members.items ≡ member_types entry.now) }
{
    match entry {
        PlanType::Record(fields) => of_fields(alloc, fields.as_slice()),
        PlanType::Variant(cases) => of_cases(alloc, cases.as_slice()),
        PlanType::Tuple(types) => of_types(alloc, types.as_slice()),
        PlanType::List(ty) | PlanType::FixedList(ty, _) => one(alloc, "element", Some(*ty)),
        PlanType::Option(ty) => two(alloc, "none", None, "some", Some(*ty)),
        PlanType::Map(key, value) => two(alloc, "key", Some(*key), "value", Some(*value)),
        PlanType::Result(ok, err) => two(alloc, "ok", *ok, "error", *err),
        PlanType::Flags(names) | PlanType::Enum(names) => of_names(alloc, names.as_slice()),
        PlanType::Own(_) | PlanType::Borrow(_) | PlanType::ErrorContext(_) => Ok(Vec::new(alloc)),
        PlanType::Future(payload, _) | PlanType::Stream(payload, _) => {
            one(alloc, "payload", *payload)
        }
    }
}
