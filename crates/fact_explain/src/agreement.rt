//! Where the types of two sides cease to agree.

ghost use Rattle.std.specs.Prelude.{◌≡◌};

use crate::members::{Member, members_of, of_fields, of_types};
use crate::names::{entry_text, kind_text, type_text};
use crate::texts::{push_reason, shortened};
use fact_agreement::Agreement;
use fact_plan::{FusePlan, PlanFunc, PlanRef, PlanType};
use fact_plan_types::PlanTypes;
use fact_types::ComponentTypes;
use fact_wasm::{OutOfMemory, Text};
use std::alloc::Global;

/// How deep types are followed: no deeper than they may nest.
const MOST_STEPS: u32 = 101;

/// Types that go into one another: the source, and the destination.
#[derive(Clone, Copy, Drop)]
struct Pair {
    from: PlanRef,
    to: PlanRef,
}

/// A plan with its types, and what its types are called.
#[derive(Clone, Copy)]
pub(crate) struct Known<'a> {
    pub plan: &'a FusePlan,
    pub types: &'a PlanTypes,
    pub names: &'a [Text],
}

/// Whether the source of a pair goes into its destination.
fn is_carried(
    agreement: &mut Agreement<'_>,
    tables: &ComponentTypes,
    types: &PlanTypes,
    pair: Pair,
) -> Result<bool, OutOfMemory>
    requires { agreement.old ≡ tables.now }
    ensures { agreement.new ≡ agreement.old }
{
    match (pair.from, pair.to) {
        (PlanRef::Word(from), PlanRef::Word(to)) => Ok(from == to),
        (PlanRef::Entry(from), PlanRef::Entry(to)) => {
            let (Some(from), Some(to)) = (
                types.types.get(from as usize),
                types.types.get(to as usize),
            ) else {
                return Ok(false);
            };
            if !tables.is_live(*from) || !tables.is_live(*to) {
                return Ok(false);
            }
            agreement.agrees(from, to)
        }
        _ => Ok(false),
    }
}

/// The type of the first member of a name.
fn type_of(members: &[Member<'_>], name: &str) -> Option<PlanRef> {
    for member in members {
        if member.name == name {
            return member.ty;
        }
    }
    None
}

/// The type of the member that pairs up with one of a name at a place: that of its name, or where it has none that at its place.
fn counterpart(members: &[Member<'_>], place: usize, name: &str) -> Option<PlanRef> {
    if !name.is_empty() {
        return type_of(members, name);
    }
    match members.get(place) {
        Some(member) => member.ty,
        None => None,
    }
}

/// The first members of two lists that pair up, by their names or by their places, and do not agree, with the place of the source's.
fn first_apart(
    agreement: &mut Agreement<'_>,
    tables: &ComponentTypes,
    types: &PlanTypes,
    sources: &[Member<'_>],
    targets: &[Member<'_>],
    by_name: bool,
) -> Result<Option<(usize, Pair)>, OutOfMemory>
    requires { agreement.old ≡ tables.now }
    ensures { agreement.new ≡ agreement.old }
{
    for (place, source) in sources.iter().enumerate() {
        let name = if by_name { source.name } else { "" };
        let target = counterpart(targets, place, name);
        if let (Some(from), Some(to)) = (source.ty, target) {
            let pair = Pair { from, to };
            if !is_carried(agreement, tables, types, pair)? {
                return Ok(Some((place, pair)));
            }
        }
    }
    Ok(None)
}

/// The entries of a pair, where both are entries of one kind.
fn entries_of<'a>(plan: &'a FusePlan, pair: Pair) -> Option<(&'a PlanType, &'a PlanType)> {
    let (PlanRef::Entry(from), PlanRef::Entry(to)) = (pair.from, pair.to) else {
        return None;
    };
    let (Some(from), Some(to)) = (plan.types.get(from as usize), plan.types.get(to as usize)) else {
        return None;
    };
    if kind_text(from) == kind_text(to) {
        Some((from, to))
    } else {
        None
    }
}

/// The pair within a pair that does not agree, where there is one, and the step to it appended to the path.
fn next_pair(
    alloc: Global,
    agreement: &mut Agreement<'_>,
    tables: &ComponentTypes,
    known: &Known<'_>,
    pair: Pair,
    path: &mut String,
) -> Result<Option<Pair>, OutOfMemory>
    requires { agreement.old ≡ tables.now }
    ensures { agreement.new ≡ agreement.old }
{
    let Some((from, to)) = entries_of(known.plan, pair) else {
        return Ok(None);
    };
    let sources = members_of(alloc, from)?;
    let targets = members_of(alloc, to)?;
    let apart = first_apart(
        agreement,
        tables,
        known.types,
        sources.as_slice(),
        targets.as_slice(),
        true,
    )?;
    let Some((place, next)) = apart else {
        return Ok(None);
    };
    push_step(alloc, path, sources.as_slice(), place)?;
    Ok(Some(next))
}

/// Appends the member at a place, by its name where it has one.
fn push_step(
    alloc: Global,
    path: &mut String,
    members: &[Member<'_>],
    place: usize,
) -> Result<(), OutOfMemory> {
    let name = match members.get(place) {
        Some(member) => member.name,
        None => "",
    };
    let step = if name.is_empty() {
        format!(in alloc; ", member {place}")?
    } else {
        format!(in alloc; ", {name:?}")?
    };
    path.push_str(&step)?;
    Ok(())
}

/// A type in words: an entry with its members.
fn told(alloc: Global, known: &Known<'_>, ty: PlanRef) -> Result<String, OutOfMemory> {
    let whole = match ty {
        PlanRef::Entry(k) => match known.plan.types.get(k as usize) {
            Some(entry) => entry_text(alloc, known.names, entry)?,
            None => String::new(alloc),
        },
        PlanRef::Word(_) => String::from_str(alloc, type_text(known.names, ty))?,
    };
    shortened(alloc, whole.as_str())
}

/// Appends where the types of a pair that does not agree cease to agree.
fn push_pair(
    alloc: Global,
    text: &mut String,
    agreement: &mut Agreement<'_>,
    tables: &ComponentTypes,
    known: &Known<'_>,
    pair: Pair,
    path: &mut String,
) -> Result<(), OutOfMemory>
    requires { agreement.old ≡ tables.now }
    ensures { agreement.new ≡ agreement.old }
{
    let mut last = pair;
    'steps: for _ in 0..MOST_STEPS {
        match next_pair(alloc, agreement, tables, known, last, path)? {
            Some(next) => last = next,
            None => break,
        }
    }
    let wanted = told(alloc, known, last.to)?;
    let found = told(alloc, known, last.from)?;
    push_reason(alloc, text, path.as_str(), wanted.as_str(), found.as_str())
}

/// Appends where two lists of types cease to agree.
fn push_lists(
    alloc: Global,
    text: &mut String,
    agreement: &mut Agreement<'_>,
    tables: &ComponentTypes,
    known: &Known<'_>,
    place: &str,
    sources: &[Member<'_>],
    targets: &[Member<'_>],
) -> Result<(), OutOfMemory>
    requires { agreement.old ≡ tables.now }
    ensures { agreement.new ≡ agreement.old }
{
    if sources.len() != targets.len() {
        let wanted = targets.len();
        let found = sources.len();
        let wanted = format!(in alloc; "{wanted}")?;
        let found = format!(in alloc; "{found}")?;
        return push_reason(alloc, text, place, wanted.as_str(), found.as_str());
    }
    let apart = first_apart(agreement, tables, known.types, sources, targets, false)?;
    if let Some((at, pair)) = apart {
        let mut path = format!(in alloc; "{place} {at}")?;
        push_pair(alloc, text, agreement, tables, known, pair, &mut path)?;
    }
    Ok(())
}

/// Appends where the types of the parameters and of the results cease to agree: parameters go from the lower side to the lift side, results back.
pub(crate) fn push_mismatch(
    alloc: Global,
    text: &mut String,
    known: &Known<'_>,
    k: usize,
    lift: &PlanFunc,
    lower: &PlanFunc,
) -> Result<(), OutOfMemory> {
    let tables = known.types.builder.component_types();
    let mut agreement = Agreement::new(alloc, tables);
    let place = format!(in alloc; "plan.adapters.{k}, parameters")?;
    let sources = of_fields(alloc, lower.params.as_slice())?;
    let targets = of_fields(alloc, lift.params.as_slice())?;
    push_lists(
        alloc,
        text,
        &mut agreement,
        tables,
        known,
        place.as_str(),
        sources.as_slice(),
        targets.as_slice(),
    )?;
    let place = format!(in alloc; "plan.adapters.{k}, results")?;
    let sources = of_types(alloc, lift.results.as_slice())?;
    let targets = of_types(alloc, lower.results.as_slice())?;
    push_lists(
        alloc,
        text,
        &mut agreement,
        tables,
        known,
        place.as_str(),
        sources.as_slice(),
        targets.as_slice(),
    )
}
