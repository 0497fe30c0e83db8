//! The checks of adapters, one behind the other.

ghost use Rattle.std.specs.Prelude.{◌≡◌, [], IfErr, IfSome, OnErr, OnOk};
ghost use Rattle.fact_plan_types.specs.PlanTypes.{told};
ghost use Rattle.fact_plan_types.specs.declared.error.Place.TheVariants as place_at;
ghost use Rattle.fact_adapter_rules.specs.Fronts.{IsFront};
ghost use Rattle.fact_adapter_rules.specs.Checked.{IsFirstOf, IsFirstOver, IsSoundNext, IsSoundOver};
ghost use Rattle.fact_adapter_rules.specs.Linked.{NamesTypesOf};

use crate::bound::{Bound, has_bad_memory, has_duplicate_name, has_import_conflict};
use crate::mismatch::has_type_mismatch;
use crate::options::has_bad_options;
use crate::sides::Candidate;
use crate::signatures::has_bad_signature;
use crate::{Bindings, ExportNames};
use fact_agreement::Agreement;
use fact_builder::ComponentTypesBuilder;
use fact_plan_types::{FuseError, Place};
use std::alloc::Global;
use std::marker::Model;

/// Checks an adapter behind those that are bound, and binds it where it has no fault. Where it has one, parts of it may be
/// bound behind what was.
fn check_behind(
    alloc: Global,
    builder: &ComponentTypesBuilder,
    concurrency: bool,
    agreement: &mut Agreement<'_>,
    bound: &mut Bound,
    place: Place,
    candidate: &Candidate<'_>,
) -> Result<(), FuseError>
    requires typed { NamesTypesOf builder.now candidate.now.adapter.now }
    requires tables { agreement.old ≡ builder.now.tables }
    ensures same { agreement.new ≡ agreement.old }
    ensures sound { OnOk result (IsSoundOver builder.now concurrency bound.old bound.new candidate.now) }
    ensures refused { IfErr result (λ e. IfSome (told e) (λ x. IsFirstOver builder.now concurrency bound.old candidate.now x.0 × (x.1 ≡ place))) }
    ensures memories { IsFront bound.old.memories bound.new.memories }
    ensures reallocs { IsFront bound.old.reallocs bound.new.reallocs }
    ensures uses { IsFront bound.old.uses bound.new.uses }
    ensures names { IsFront bound.old.names bound.new.names }
{
    let adapter = candidate.adapter;
    if has_bad_options(builder, concurrency, candidate) {
        return Err(FuseError::BadOptions(place));
    }
    if has_type_mismatch(builder, agreement, adapter)? {
        return Err(FuseError::TypeMismatch(place));
    }
    if has_bad_memory(
        alloc,
        builder,
        &mut bound.memories,
        &mut bound.reallocs,
        adapter,
    )? {
        return Err(FuseError::BadMemory(place));
    }
    if has_bad_signature(builder, adapter)? {
        return Err(FuseError::BadSignature(place));
    }
    if has_import_conflict(alloc, builder, &mut bound.uses, adapter)? {
        return Err(FuseError::ImportConflict(place));
    }
    if has_duplicate_name(alloc, builder, &mut bound.names, candidate)? {
        return Err(FuseError::DuplicateName(place));
    }
    Ok(())
}

/// Checks adapters over the types of a builder, each behind those that it found sound. Contracts see it as the builder and
/// what those adapters have bound and export.
pub struct AdapterChecks<'a> {
    alloc: Global,
    builder: &'a ComponentTypesBuilder,
    concurrency: bool,
    agreement: Agreement<'a>,
    bound: Bound,
}

impl<'a> Model for AdapterChecks<'a> {
    ghost use Rattle.std.specs.Prelude.{◌≡◌};
    ghost use Rattle.fact_adapter_rules.specs.Checked.{Checks};

    ghost Value = { Checks };

    ghost view = { λ c. record { builder = c.builder.now; concurrency = c.concurrency; bound = c.bound } };

    ghost invariant = { λ c. c.agreement ≡ c.builder.now.tables };
}

// They end by a function of their own, so that crates that end some prove nothing of their parts.
impl Drop for AdapterChecks<'_> {
    fn drop(self) {
        let AdapterChecks {
            alloc: _,
            builder: _,
            concurrency: _,
            agreement,
            bound,
        } = self;
        drop(agreement);
        drop(bound);
    }
}

impl<'a> AdapterChecks<'a> {
    /// No adapter was checked. It takes no memory.
    pub fn new(
        alloc: Global,
        builder: &'a ComponentTypesBuilder,
        concurrency: bool,
    ) -> AdapterChecks<'a>
        ensures { result ≡ record { builder = builder.now; concurrency = concurrency; bound = record { memories = []; reallocs = []; uses = []; names = [] } } }
    {
        AdapterChecks {
            alloc,
            builder,
            concurrency,
            agreement: Agreement::new(alloc, builder.component_types()),
            bound: Bound {
                memories: Bindings::new(alloc),
                reallocs: Bindings::new(alloc),
                uses: Bindings::new(alloc),
                names: ExportNames::new(alloc),
            },
        }
    }

    /// Checks an adapter behind those that were found sound, and tells its first fault, with its number as place. Where it
    /// has none, it is one of those that the next one is checked behind; after an error nothing of it is kept.
    pub fn check(&mut self, number: u32, candidate: &Candidate<'_>) -> Result<(), FuseError>
        requires { NamesTypesOf self.old.builder candidate.now.adapter.now }
        ensures builder { self.new.builder ≡ self.old.builder }
        ensures concurrency { self.new.concurrency ≡ self.old.concurrency }
        ensures sound { OnOk result (IsSoundNext self.old self.new candidate.now) }
        ensures refused { IfErr result (λ e. IfSome (told e) (λ x. IsFirstOf self.old candidate.now x.0 × (x.1 ≡ place_at.Adapter number))) }
        ensures unchanged { OnErr result (self.new ≡ self.old) }
    {
        let lengths = self.bound.lengths();
        let checked = check_behind(
            self.alloc,
            self.builder,
            self.concurrency,
            &mut self.agreement,
            &mut self.bound,
            Place::Adapter(number),
            candidate,
        );
        if checked.is_err() {
            self.bound.truncate(lengths);
        }
        checked
    }
}
