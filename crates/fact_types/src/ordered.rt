//! Variants, flags and enums: the kinds of types whose cases or names are told apart by name and keep their order. Two of
//! them are equal only where that order is the same.

ghost use Rattle.std.specs.Prelude.{◌≡◌, ◌++◌, map, IfOk};
ghost use Rattle.std.specs.Cmp.Lexicographic.{lists_equiv, options_equiv, nat_list_eq_equiv};
ghost use Rattle.std.specs.Cmp.{on_equiv, partial_equiv_from_equiv};
ghost use Rattle.std.proofs.lemmas.Cmp.{and_equiv};
ghost use Rattle.std.specs.Hash as fed;
ghost use Rattle.std.proofs.Common.{ap};
ghost use Rattle.fact_types.specs.Equality.{variant_eq, flags_eq, enum_eq};
ghost use Rattle.fact_types.specs.Exact.{exact_variant, exact_flags, exact_enum};
ghost use Rattle.fact_types.specs.contracts.interface.InterfaceTypeEq.TheImpl.Laws.{laws-law as interface_type_equiv};
ghost use Rattle.fact_types.specs.contracts.variants.VariantInfoEq.TheImpl.Laws.{laws-law as info_equiv};
ghost use Rattle.fact_types.specs.contracts.abi.CanonicalAbiInfoEq.TheImpl.Laws.{laws-law as abi_equiv};

use crate::OutOfMemory;
use crate::abi::CanonicalAbiInfo;
use crate::interface::InterfaceType;
use crate::variants::VariantInfo;
use fact_wasm::Text;
use indexmap::{IndexMap, IndexSet};
use std::hash::{Hash, Hasher};
use std::marker::Model;

/// A variant: its cases by name, in the order of their discriminants, with their payloads.
pub struct TypeVariant {
    pub cases: IndexMap<Text, Option<InterfaceType>>,
    pub abi: CanonicalAbiInfo,
    pub info: VariantInfo,
}

// Written out, it is proved here once, where a derived one is proved anew in each crate that ends such a value.
impl Drop for TypeVariant {
    fn drop(self) {
        let TypeVariant {
            cases,
            abi: _,
            info: _,
        } = self;
        drop(cases);
    }
}

impl Model for TypeVariant {
    ghost use Rattle.fact_types.specs.Ordered.{VariantType};

    ghost Value = { VariantType };

    ghost view = { λ v. record { cases = v.cases.entries; abi = v.abi; info = v.info } };
}

impl PartialEq for TypeVariant {
    ghost eq = { variant_eq };

    ghost laws = { partial_equiv_from_equiv (and_equiv (on_equiv (λ v. v.cases) (lists_equiv (and_equiv (on_equiv (λ p. p.0) nat_list_eq_equiv) (on_equiv (λ p. p.1) (options_equiv interface_type_equiv))))) (and_equiv (on_equiv (λ v. v.abi) abi_equiv) (on_equiv (λ v. v.info) info_equiv))) };

    fn eq(&self, other: &TypeVariant) -> bool {
        self.cases.as_slice() == other.cases.as_slice()
            && (self.abi == other.abi && self.info == other.info)
    }
}

impl Eq for TypeVariant {
    ghost laws = { and_equiv (on_equiv (λ v. v.cases) (lists_equiv (and_equiv (on_equiv (λ p. p.0) nat_list_eq_equiv) (on_equiv (λ p. p.1) (options_equiv interface_type_equiv))))) (and_equiv (on_equiv (λ v. v.abi) abi_equiv) (on_equiv (λ v. v.info) info_equiv)) };
}

impl Hash for TypeVariant {
    ghost hash_input = { λ v. fed.slice fed.str (map (λ p. p.0) v.cases) ++ (fed.slice ⟦<Option<InterfaceType> as Hash>⟧.hash_input (map (λ p. p.1) v.cases) ++ (⟦<CanonicalAbiInfo as Hash>⟧.hash_input v.abi ++ ⟦<VariantInfo as Hash>⟧.hash_input v.info)) };

    ghost respects_eq = { λ a b h. ap (λ v. fed.slice fed.str (map (λ p. p.0) v.cases) ++ (fed.slice ⟦<Option<InterfaceType> as Hash>⟧.hash_input (map (λ p. p.1) v.cases) ++ (⟦<CanonicalAbiInfo as Hash>⟧.hash_input v.abi ++ ⟦<VariantInfo as Hash>⟧.hash_input v.info))) (exact_variant a b h) };

    fn hash<H: Hasher>(&self, state: &mut H) {
        self.cases.keys().as_slice().hash(state);
        self.cases.values().as_slice().hash(state);
        self.abi.hash(state);
        self.info.hash(state);
    }
}

impl TypeVariant {
    /// An equal type.
    pub fn try_clone(&self) -> Result<TypeVariant, OutOfMemory>
        ensures { IfOk result (λ copy. copy ≡ self.now) }
    {
        Ok(TypeVariant {
            cases: self.cases.clone()?,
            abi: self.abi,
            info: self.info,
        })
    }
}

/// Flags: their names, in the order of their bits.
pub struct TypeFlags {
    pub names: IndexSet<Text>,
    pub abi: CanonicalAbiInfo,
}

// Written out, it is proved here once, where a derived one is proved anew in each crate that ends such a value.
impl Drop for TypeFlags {
    fn drop(self) {
        let TypeFlags { names, abi: _ } = self;
        drop(names);
    }
}

impl Model for TypeFlags {
    ghost use Rattle.fact_types.specs.Ordered.{FlagsType};

    ghost Value = { FlagsType };

    ghost view = { λ f. record { names = f.names.keys; abi = f.abi } };
}

impl PartialEq for TypeFlags {
    ghost eq = { flags_eq };

    ghost laws = { partial_equiv_from_equiv (and_equiv (on_equiv (λ f. f.names) (lists_equiv nat_list_eq_equiv)) (on_equiv (λ f. f.abi) abi_equiv)) };

    fn eq(&self, other: &TypeFlags) -> bool {
        self.names.as_slice() == other.names.as_slice() && self.abi == other.abi
    }
}

impl Eq for TypeFlags {
    ghost laws = { and_equiv (on_equiv (λ f. f.names) (lists_equiv nat_list_eq_equiv)) (on_equiv (λ f. f.abi) abi_equiv) };
}

impl Hash for TypeFlags {
    ghost hash_input = { λ f. fed.slice fed.str f.names ++ ⟦<CanonicalAbiInfo as Hash>⟧.hash_input f.abi };

    ghost respects_eq = { λ a b h. ap (λ f. fed.slice fed.str f.names ++ ⟦<CanonicalAbiInfo as Hash>⟧.hash_input f.abi) (exact_flags a b h) };

    fn hash<H: Hasher>(&self, state: &mut H) {
        self.names.as_slice().hash(state);
        self.abi.hash(state);
    }
}

impl TypeFlags {
    /// An equal type.
    pub fn try_clone(&self) -> Result<TypeFlags, OutOfMemory>
        ensures { IfOk result (λ copy. copy ≡ self.now) }
    {
        Ok(TypeFlags {
            names: self.names.clone()?,
            abi: self.abi,
        })
    }
}

/// An enum: the names of its cases, in the order of their discriminants.
pub struct TypeEnum {
    pub names: IndexSet<Text>,
    pub abi: CanonicalAbiInfo,
    pub info: VariantInfo,
}

// Written out, it is proved here once, where a derived one is proved anew in each crate that ends such a value.
impl Drop for TypeEnum {
    fn drop(self) {
        let TypeEnum {
            names,
            abi: _,
            info: _,
        } = self;
        drop(names);
    }
}

impl Model for TypeEnum {
    ghost use Rattle.fact_types.specs.Ordered.{EnumType};

    ghost Value = { EnumType };

    ghost view = { λ e. record { names = e.names.keys; abi = e.abi; info = e.info } };
}

impl PartialEq for TypeEnum {
    ghost eq = { enum_eq };

    ghost laws = { partial_equiv_from_equiv (and_equiv (on_equiv (λ e. e.names) (lists_equiv nat_list_eq_equiv)) (and_equiv (on_equiv (λ e. e.abi) abi_equiv) (on_equiv (λ e. e.info) info_equiv))) };

    fn eq(&self, other: &TypeEnum) -> bool {
        self.names.as_slice() == other.names.as_slice()
            && (self.abi == other.abi && self.info == other.info)
    }
}

impl Eq for TypeEnum {
    ghost laws = { and_equiv (on_equiv (λ e. e.names) (lists_equiv nat_list_eq_equiv)) (and_equiv (on_equiv (λ e. e.abi) abi_equiv) (on_equiv (λ e. e.info) info_equiv)) };
}

impl Hash for TypeEnum {
    ghost hash_input = { λ e. fed.slice fed.str e.names ++ (⟦<CanonicalAbiInfo as Hash>⟧.hash_input e.abi ++ ⟦<VariantInfo as Hash>⟧.hash_input e.info) };

    ghost respects_eq = { λ a b h. ap (λ e. fed.slice fed.str e.names ++ (⟦<CanonicalAbiInfo as Hash>⟧.hash_input e.abi ++ ⟦<VariantInfo as Hash>⟧.hash_input e.info)) (exact_enum a b h) };

    fn hash<H: Hasher>(&self, state: &mut H) {
        self.names.as_slice().hash(state);
        self.abi.hash(state);
        self.info.hash(state);
    }
}

impl TypeEnum {
    /// An equal type.
    pub fn try_clone(&self) -> Result<TypeEnum, OutOfMemory>
        ensures { IfOk result (λ copy. copy ≡ self.now) }
    {
        Ok(TypeEnum {
            names: self.names.clone()?,
            abi: self.abi,
            info: self.info,
        })
    }
}
