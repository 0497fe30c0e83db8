//! Transcoders: functions of the runtime that write text of one memory into another.

ghost use Rattle.std.specs.Prelude.{◌≡◌, ℕ, ◌⊎◌, ◌++◌, ◌∷◌, [], IfOk, OnErr, OnOk, Some, slice_get, string_bytes};
ghost use Rattle.fact_wasm.specs.CoreTypes.{HasNoTwins, IsOnlyPlaceOfType};
ghost use Rattle.fact_wasm.specs.declared.types.FuncType.{FuncType};
ghost use Rattle.fact_types.specs.TranscoderNames.{transcode_name as transcode_name_of};
ghost use Rattle.fact_emit.specs.Imports.{AreOnce, Extended, HasTranscoder};
ghost use Rattle.fact_emit.specs.ImportSection.{imported_type};
ghost use Rattle.fact_emit.specs.State.{IsItemOf};
ghost use Rattle.fact_emit.specs.States.{AreMemoriesImported, HaveMemoryWidths, IsTranscoderImported, OnlyTypesAdded, name_of_transcoder, type_of_transcoder};

use crate::core_imports::address;
use crate::imported::{ImportedItem, TranscoderItem};
use crate::sections::ModuleSections;
use fact_entity::{EntityRef, MemoryIndex};
use fact_types::{FixedEncoding, Transcode};
use fact_wasm::{CoreTypes, ImportType, OutOfMemory, Text, ValType};
use std::alloc::Global;

/// A transcoder between two imported memories, by their places, each with or without 64-bit addresses.
#[derive(Clone, Copy, Debug, PartialEq, Eq, Hash)]
pub struct Transcoder {
    pub from_memory: MemoryIndex,
    pub from_memory64: bool,
    pub to_memory: MemoryIndex,
    pub to_memory64: bool,
    pub op: Transcode,
}

/// An operation, as the names of its imports begin.
pub fn transcode_name(op: Transcode) -> &'static str
    ensures { result.now ≡ transcode_name_of op }
{
    match op {
        Transcode::Copy(FixedEncoding::Utf8) => "utf8-to-utf8",
        Transcode::Copy(FixedEncoding::Utf16) => "utf16-to-utf16",
        Transcode::Copy(FixedEncoding::Latin1) => "latin1-to-latin1",
        Transcode::Latin1ToUtf16 => "latin1-to-utf16",
        Transcode::Latin1ToUtf8 => "latin1-to-utf8",
        Transcode::Utf16ToCompactProbablyUtf16 => "utf16-to-compact-probably-utf16",
        Transcode::Utf16ToCompactUtf16 => "utf16-to-compact-utf16",
        Transcode::Utf16ToLatin1 => "utf16-to-latin1",
        Transcode::Utf16ToUtf8 => "utf16-to-utf8",
        Transcode::Utf8ToCompactUtf16 => "utf8-to-compact-utf16",
        Transcode::Utf8ToLatin1 => "utf8-to-latin1",
        Transcode::Utf8ToUtf16 => "utf8-to-utf16",
    }
}

impl Transcoder {
    /// The name of its import.
    pub fn name(&self, alloc: Global) -> Result<Text, OutOfMemory>
        ensures { IfOk result (λ name. name ≡ name_of_transcoder self.now) }
    {
        let name = self.name_text(alloc)?;
        Ok(Text::from_string(name))
    }

    /// The name of its import, as a string.
    fn name_text(&self, alloc: Global) -> Result<String, OutOfMemory>
        ensures { IfOk result (λ name. string_bytes name ≡ name_of_transcoder self.now) }
    {
        let op = transcode_name(self.op);
        let from = self.from_memory.as_u32();
        let to = self.to_memory.as_u32();
        format!(in alloc; "{op} (mem{from} => mem{to})")
    }

    /// The number of its type, which comes last among the types where it is new.
    pub(crate) fn type_number(&self, types: &mut CoreTypes) -> Result<u32, OutOfMemory>
        ensures place { IfOk result (λ n. IsOnlyPlaceOfType types.new (type_of_transcoder self.now) n) }
        ensures list { OnOk result ((types.new ≡ types.old) ⊎ (types.new ≡ types.old ++ type_of_transcoder self.now ∷ [])) }
        ensures keeps { (k : ℕ) (ty : FuncType) → slice_get types.old k ≡ Some ty → slice_get types.new k ≡ Some ty }
        ensures distinct { HasNoTwins types.new }
        ensures refused { OnErr result (types.new ≡ types.old) }
    {
        let f = address(self.from_memory64);
        let t = address(self.to_memory64);
        match self.op {
            Transcode::Copy(_) | Transcode::Latin1ToUtf16 => types.function(&[f, f, t], &[]),
            Transcode::Utf8ToUtf16 | Transcode::Utf16ToCompactProbablyUtf16 => {
                types.function(&[f, f, t], &[t])
            }
            Transcode::Utf16ToUtf8 | Transcode::Latin1ToUtf8 => {
                types.function(&[f, f, t, t, ValType::I32], &[f, t])
            }
            Transcode::Utf8ToLatin1 | Transcode::Utf16ToLatin1 => {
                types.function(&[f, f, t], &[f, t])
            }
            Transcode::Utf8ToCompactUtf16 | Transcode::Utf16ToCompactUtf16 => {
                types.function(&[f, f, t, t, t], &[t])
            }
        }
    }

    /// The type of its import. The function type comes last among the types where it is new.
    pub fn ty(&self, types: &mut CoreTypes) -> Result<ImportType, OutOfMemory>
        ensures place { IfOk result (λ ty. imported_type types.new ty ≡ Some (type_of_transcoder self.now)) }
        ensures list { OnOk result ((types.new ≡ types.old) ⊎ (types.new ≡ types.old ++ type_of_transcoder self.now ∷ [])) }
        ensures keeps { (k : ℕ) (ty : FuncType) → slice_get types.old k ≡ Some ty → slice_get types.new k ≡ Some ty }
        ensures distinct { HasNoTwins types.new }
        ensures refused { OnErr result (types.new ≡ types.old) }
    {
        let number = self.type_number(types)?;
        Ok(ImportType::Func(number))
    }
}

impl ModuleSections {
    /// What a transcoder is imported as.
    fn transcoder_item(&self, transcoder: Transcoder) -> Result<ImportedItem, OutOfMemory>
        requires { AreMemoriesImported transcoder self.now }
        ensures { IfOk result (λ item. IsItemOf transcoder self.now item) }
    {
        Ok(ImportedItem::Transcoder(TranscoderItem {
            op: transcoder.op,
            from: self.memory_def(transcoder.from_memory).try_clone()?,
            from64: transcoder.from_memory64,
            to: self.memory_def(transcoder.to_memory).try_clone()?,
            to64: transcoder.to_memory64,
        }))
    }

    /// The place of a transcoder among the imported functions. A new one is imported last.
    pub fn transcoder(&mut self, transcoder: Transcoder) -> Result<u32, OutOfMemory>
        requires memories { AreMemoriesImported transcoder self.old }
        requires widths { HaveMemoryWidths transcoder self.old }
        ensures imported { IfOk result (λ place. IsTranscoderImported self.old self.new transcoder place) }
        ensures place { IfOk result (λ place. HasTranscoder self.new transcoder place) }
        ensures keeps { Extended self.old self.new }
        ensures once { AreOnce self.old → AreOnce self.new }
        ensures refused { OnErr result (OnlyTypesAdded self.old self.new) }
    {
        let name = transcoder.name_text(self.alloc())?;
        let ty = self.transcoder_type(&transcoder)?;
        let item = self.transcoder_item(transcoder)?;
        let place = self.import(item, "transcode", &name, ImportType::Func(ty))?;
        Ok(place)
    }
}
