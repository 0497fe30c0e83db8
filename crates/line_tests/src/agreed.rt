//! Which types agree, by the rules of a source type and a destination type. Types that many others share are compared once.

ghost use Rattle.fact_types.specs.Tables.{IsLive};

use crate::live::are_live;
use crate::types::types_of;
use crate::words::{first_of, yes_or_no};
use fact_agreement::Agreement;
use fact_builder::ComponentTypesBuilder;
use fact_plan_types::PlanTypes;
use fact_types::InterfaceType;
use std::alloc::{AllocError, Global};

/// Whether a type agrees with another, asked twice, and in lists, of which one of the two has no pair; none where the answers differ.
fn agrees(
    agreement: &mut Agreement<'_>,
    from: &InterfaceType,
    to: &InterfaceType,
) -> Result<Option<bool>, AllocError>
    requires from_live { IsLive agreement.old from.now }
    requires to_live { IsLive agreement.old to.now }
{
    let answer = agreement.agrees(from, to)?;
    let again = agreement.agrees(from, to)?;
    let one = agreement.agree_all(&[*from], &[*to])?;
    let unpaired = agreement.agree_all(&[*from], &[])?;
    let is_same = (again == answer) & (one == answer) & !unpaired;
    Ok(is_same.then_some(answer))
}

/// Adds whether a source type agrees with a destination type.
pub fn add_agree(
    page: &mut String,
    alloc: Global,
    builder: &ComponentTypesBuilder,
    from: &InterfaceType,
    to: &InterfaceType,
) -> Result<(), AllocError>
    requires from_live { IsLive builder.now.tables from.now }
    requires to_live { IsLive builder.now.tables to.now }
{
    let mut agreement = Agreement::new(alloc, builder.component_types());
    let answer = agrees(&mut agreement, from, to);
    drop(agreement);
    page.push_str(match answer? {
        Some(answer) => yes_or_no(answer),
        None => "differs",
    })
}

/// Adds whether types agree with others by place.
pub fn add_agree_all(
    page: &mut String,
    alloc: Global,
    made: &PlanTypes,
    line: &str,
) -> Result<(), AllocError> {
    let (from, to) = first_of(line);
    let from = types_of(alloc, made.types.as_slice(), from)?;
    let to = types_of(alloc, made.types.as_slice(), to)?;
    let builder = &made.builder;
    if !are_live(builder, from.as_slice()) || !are_live(builder, to.as_slice()) {
        return page.push_str("no such type");
    }
    let mut agreement = Agreement::new(alloc, builder.component_types());
    let answer = agreement.agree_all(from.as_slice(), to.as_slice());
    drop(agreement);
    page.push_str(yes_or_no(answer?))
}
