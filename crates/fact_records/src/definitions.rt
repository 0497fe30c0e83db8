//! What a core definition is, in numbers and a text.

ghost use Rattle.std.specs.Prelude.{◌≡◌, IfOk, OnOk, string_bytes};
ghost use Rattle.fact_records.specs.Texts.{Grows};
ghost use Rattle.fact_records.specs.Records.{TellsDef, TellsOptional, nothing, width_of};

use crate::spans::{TextSpan, add_text};
use fact_entity::EntityRef;
use fact_types::CoreDef;
use fact_wasm::OutOfMemory;

/// A core definition that an import names.
#[repr(C)]
#[derive(Clone, Copy)]
pub struct Definition {
    /// 0: there is none. 1: an export of a core instance. 2: the flags of a component instance. 3: a function of the runtime.
    pub kind: u32,
    /// Of an export the number of the core instance, of flags that of the component instance, of a function of the runtime its own; else 0.
    pub number: u32,
    /// Of a memory of a transcoder how many bits its addresses have, 32 or 64; else 0.
    pub width: u32,
    /// Of an export its name; else nothing.
    pub name: TextSpan,
}

/// In place of a definition where there is none.
pub(crate) fn nothing() -> Definition
    ensures { result ≡ nothing }
{
    Definition {
        kind: 0,
        number: 0,
        width: 0,
        name: TextSpan { at: 0, size: 0 },
    }
}

/// How many bits the addresses of a memory have.
pub(crate) fn width_of(wide: bool) -> u32
    ensures { result ≡ width_of wide }
{
    if wide { 64 } else { 32 }
}

/// A definition that is no export, by its kind and number.
fn numbered(kind: u32, number: u32, width: u32) -> Definition
    ensures { result ≡ record nothing { kind = kind; number = number; width = width } }
{
    Definition {
        kind,
        number,
        width,
        name: TextSpan { at: 0, size: 0 },
    }
}

/// A definition, whose name is put behind the other texts.
pub(crate) fn made_definition(
    text: &mut String,
    def: &CoreDef,
    width: u32,
) -> Result<Definition, OutOfMemory>
    ensures grown { OnOk result (Grows (string_bytes text.old) (string_bytes text.new)) }
    ensures told { IfOk result (λ d. TellsDef (string_bytes text.new) width def.now d) }
{
    match def {
        CoreDef::Export { instance, name } => {
            let number = instance.as_u32();
            let name = add_text(text, name.as_str())?;
            Ok(Definition {
                kind: 1,
                number,
                width,
                name,
            })
        }
        CoreDef::InstanceFlags(instance) => Ok(numbered(2, instance.as_u32(), width)),
        CoreDef::Trampoline(number) => Ok(numbered(3, number.as_u32(), width)),
    }
}

/// A definition where there is one.
pub(crate) fn optional_definition(
    text: &mut String,
    def: &Option<CoreDef>,
) -> Result<Definition, OutOfMemory>
    ensures grown { OnOk result (Grows (string_bytes text.old) (string_bytes text.new)) }
    ensures told { IfOk result (λ d. TellsOptional (string_bytes text.new) def.now d) }
{
    match def {
        Some(def) => made_definition(text, def, 0),
        None => Ok(nothing()),
    }
}
