//! The comparison of types, with what is known of each pair.

ghost use Rattle.std.specs.Prelude.{◌≡◌, ◌↔◌, List, All, IfOk, IsTrue};
ghost use Rattle.fact_types.specs.Agrees.{Agrees};
ghost use Rattle.fact_types.specs.Functions.{HaveShapes};
ghost use Rattle.fact_types.specs.Shapes.{Shape};
ghost use Rattle.fact_types.specs.Tables.{IsLive, IsLiveMember, HasShape};
ghost use Rattle.fact_agreement.specs.Lists.{AgreeAll};
ghost use Rattle.fact_agreement.specs.Told.{AreLive, of_fields, Tells, TellsPayload, TellsFields, TellsRecords, TellsCases};

use crate::comparison::{Comparison, left_to_compare};
use crate::fields::{NamedFields, are_names_of};
use fact_types::{ComponentTypes, InterfaceType, RecordField};
use fact_wasm::{OutOfMemory, Text};
use indexmap::IndexMap;
use std::alloc::Global;
use std::marker::Model;

/// Tells of the types of some tables which of them agree. Contracts see it as the tables. Each pair of types is compared
/// once.
#[derive(Drop)]
pub struct Agreement<'a> {
    types: &'a ComponentTypes,
    // Of pairs of source and destination, whether they agree.
    known: IndexMap<(InterfaceType, InterfaceType), bool>,
}

impl<'a> Model for Agreement<'a> {
    ghost use Rattle.indexmap.specs.IndexMap.{get};
    ghost use Rattle.fact_types.specs.Tables.{Tables};
    ghost use Rattle.fact_agreement.specs.Told.{AllTold};

    ghost Value = { Tables };

    ghost view = { λ a. a.types.now };

    ghost invariant = { λ a. AllTold a.types.now (get ⟦<(InterfaceType, InterfaceType) as PartialEq>⟧.eq a.known) };
}

impl<'a> Agreement<'a> {
    /// Nothing is known of any pair. It takes no memory.
    pub fn new(alloc: Global, types: &'a ComponentTypes) -> Agreement<'a>
        ensures { result ≡ types.now }
    {
        Agreement {
            types,
            known: IndexMap::new(alloc),
        }
    }

    /// The tables.
    fn types(&self) -> &'a ComponentTypes
        ensures { result.now ≡ self.now }
    {
        self.types
    }

    /// The allocator.
    fn allocator(&self) -> Global {
        *self.known.allocator()
    }

    /// Whether a source type agrees with a destination type, both live. The depth of its recursion is that of the types.
    #[cycle(agreeing)]
    pub fn agrees(&mut self, from: &InterfaceType, to: &InterfaceType) -> Result<bool, OutOfMemory>
        requires from_live { IsLive self.old from.now }
        requires to_live { IsLive self.old to.now }
        ensures same { self.new ≡ self.old }
        ensures exact { IfOk result (λ b. (s d : Shape) → HasShape self.old from.now s → HasShape self.old to.now d → (IsTrue b ↔ Agrees s d)) }
    {
        let pair = (*from, *to);
        if let Some(known) = self.known.get(&pair).copied() {
            return Ok(known);
        }
        let agrees = self.compare(from, to)?;
        self.known.insert(pair, agrees)?;
        Ok(agrees)
    }

    /// Whether source types agree with destination types, all live: there are as many of the one as of the other, and
    /// each agrees with the one at its place.
    #[cycle(agreeing)]
    pub fn agree_all(
        &mut self,
        from: &[InterfaceType],
        to: &[InterfaceType],
    ) -> Result<bool, OutOfMemory>
        requires from_live { All (λ ty. IsLive self.old ty) from.now }
        requires to_live { All (λ ty. IsLive self.old ty) to.now }
        ensures same { self.new ≡ self.old }
        ensures exact { IfOk result (λ b. (ss ds : List Shape) → HaveShapes self.old from.now ss → HaveShapes self.old to.now ds → (IsTrue b ↔ AgreeAll ss ds)) }
    {
        if from.len() != to.len() {
            return Ok(false);
        }
        for (i, source) in from.iter().enumerate() {
            if !self.agrees(source, &to[i])? {
                return Ok(false);
            }
        }
        Ok(true)
    }

    // Compares two types, member by member.
    #[cycle(agreeing)]
    fn compare(&mut self, from: &InterfaceType, to: &InterfaceType) -> Result<bool, OutOfMemory>
        requires from_live { IsLive self.old from.now }
        requires to_live { IsLive self.old to.now }
        ensures same { self.new ≡ self.old }
        ensures exact { IfOk result (Tells self.old from.now to.now) }
    {
        match left_to_compare(self.types(), from, to) {
            Comparison::Decided(agree) => Ok(agree),
            Comparison::Records(from, to) => self.agree_records(from, to),
            Comparison::Variants(from, to) => self.agree_cases(from, to),
            Comparison::Tuples(from, to) => self.agree_all(from, to),
            Comparison::Payloads(first, second) => Ok(
                self.agree_payload(first.0, first.1)? && self.agree_payload(second.0, second.1)?,
            ),
        }
    }

    // Compares the payloads of two cases: both have one and these agree, or neither has one.
    #[cycle(agreeing)]
    fn agree_payload(
        &mut self,
        from: Option<InterfaceType>,
        to: Option<InterfaceType>,
    ) -> Result<bool, OutOfMemory>
        requires from_live { IsLiveMember self.old from }
        requires to_live { IsLiveMember self.old to }
        ensures same { self.new ≡ self.old }
        ensures exact { IfOk result (TellsPayload self.old from to) }
    {
        match (from, to) {
            (Some(source), Some(destination)) => self.agrees(&source, &destination),
            (None, None) => Ok(true),
            _ => Ok(false),
        }
    }

    // Compares two records: each name of the source is one of the destination, and the fields of one name agree.
    #[cycle(agreeing)]
    fn agree_records(
        &mut self,
        from: &[RecordField],
        to: &[RecordField],
    ) -> Result<bool, OutOfMemory>
        requires from_live { AreLive self.old (of_fields from.now) }
        requires to_live { AreLive self.old (of_fields to.now) }
        ensures same { self.new ≡ self.old }
        ensures exact { IfOk result (TellsRecords self.old from.now to.now) }
    {
        let names_there = are_names_of(self.allocator(), from, to)?;
        if !names_there {
            return Ok(false);
        }
        let source = NamedFields::new(self.allocator(), from)?;
        self.agree_fields(&source, to)
    }

    // Compares each field of a destination with the field of its name.
    #[cycle(agreeing)]
    fn agree_fields(
        &mut self,
        from: &NamedFields<'_>,
        to: &[RecordField],
    ) -> Result<bool, OutOfMemory>
        requires from_live { AreLive self.old (of_fields from.now) }
        requires to_live { AreLive self.old (of_fields to.now) }
        ensures same { self.new ≡ self.old }
        ensures exact { IfOk result (TellsFields self.old from.now to.now) }
    {
        for field in to {
            if !self.agree_payload(from.ty(&field.name), Some(field.ty))? {
                return Ok(false);
            }
        }
        Ok(true)
    }

    // Compares the cases of two variants by their names.
    #[cycle(agreeing)]
    fn agree_cases(
        &mut self,
        from: &IndexMap<Text, Option<InterfaceType>>,
        to: &IndexMap<Text, Option<InterfaceType>>,
    ) -> Result<bool, OutOfMemory>
        requires from_live { AreLive self.old from.now.entries }
        requires to_live { AreLive self.old to.now.entries }
        ensures same { self.new ≡ self.old }
        ensures exact { IfOk result (TellsCases self.old from.now.entries to.now.entries) }
    {
        for (name, payload) in from.iter() {
            let Some(other) = to.get(name) else {
                return Ok(false);
            };
            if !self.agree_payload(*payload, *other)? {
                return Ok(false);
            }
        }
        Ok(true)
    }
}
