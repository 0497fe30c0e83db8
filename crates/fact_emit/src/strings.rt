//! Strings, moved by the steps of the path (`paths`) of their form and of the encoding that they go to.

ghost use Rattle.std.specs.Prelude.{IfOk, OnOk, ◌≡◌, ◌∷◌, []};
ghost use Rattle.fact_types.specs.declared.outside.StringEncoding.TheVariants.{CompactUtf16};
ghost use Rattle.fact_wasm.specs.declared.instr.Instr.TheVariants as I;
ghost use Rattle.fact_values.specs.Texts.{utf16_tag};
ghost use Rattle.fact_actions.specs.Paths.{AsCompactLatin1, AsCompactUtf16, align_of};
ghost use Rattle.fact_code_laws.specs.StringCode.{align_of_form, check_text_code, either_code, encoded_code, no_tag_code, path_code, test_code, text_code, untag_code};
ghost use Rattle.fact_code_laws.specs.StringNeeds.{NeedsEncoded, NeedsPath, NeedsRegion, NeedsText};
ghost use Rattle.fact_emit.specs.Emits.{Emits};
ghost use Rattle.fact_emit.specs.Places.{from_of, to_of};
ghost use Rattle.fact_emit.specs.StringPaths.{AreLimitsSome, path_of, path_test_of, text_form_of};
ghost use Rattle.fact_emit.specs.StringPieces.{AreSidesImported, NeedsBoth, StringPiece, WroteString};
ghost use Rattle.fact_emit.specs.Writers.{Wrote};

use crate::choices::put_either;
use crate::pairs::{read_pair, write_pair};
use crate::passes::put_pass;
use crate::paths::{Path, PathTest, TextForm, path_to};
use crate::places::{Sides, SourcePlace, TargetPlace};
use crate::pointers::check_region;
use crate::string_code::{check_assert, check_limit, put_no_tag, put_times, resize, test_of};
use crate::string_locals::StringLocals;
use crate::writer::Writer;
use fact_types::{StringEncoding, Trap};
use fact_wasm::{Instr, OutOfMemory};

/// Bit 31, which tells UTF-16 from Latin-1 in the length of a text in the compact form.
const UTF16_TAG: u64 = 2_147_483_648;

/// The tag of UTF-16 is set in a local.
fn put_tag(w: &mut Writer, local: u32) -> Result<(), OutOfMemory>
    ensures { OnOk result (Wrote w.old w.new (I.LocalGet local ∷ I.I64Const utf16_tag ∷ I.I64Or ∷ I.LocalSet local ∷ [])) }
{
    w.put(Instr::LocalGet(local))?;
    w.put(Instr::I64Const(UTF16_TAG))?;
    w.put(Instr::I64Or)?;
    w.put(Instr::LocalSet(local))?;
    Ok(())
}

/// The tag of UTF-16, which is there, is taken off a local.
fn put_untag(w: &mut Writer, local: u32) -> Result<(), OutOfMemory>
    ensures { OnOk result (Wrote w.old w.new (untag_code local)) }
{
    w.put(Instr::LocalGet(local))?;
    w.put(Instr::I64Const(UTF16_TAG))?;
    w.put(Instr::I64Sub)?;
    w.put(Instr::LocalSet(local))?;
    Ok(())
}

/// Sets a local to 0.
fn put_zero(w: &mut Writer, local: u32) -> Result<(), OutOfMemory>
    ensures { OnOk result (Wrote w.old w.new (I.I64Const 0 ∷ I.LocalSet local ∷ [])) }
{
    w.put(Instr::I64Const(0))?;
    w.put(Instr::LocalSet(local))?;
    Ok(())
}

// ---- paths

/// The steps of a path.
#[cycle(paths)]
fn put_path(w: &mut Writer, sides: Sides, l: StringLocals, path: &Path) -> Result<(), OutOfMemory>
    requires sides { AreSidesImported sides w.old.sections }
    requires limits { AreLimitsSome (path_of path.now) }
    ensures { OnOk result (Emits w.old w.new (StringPiece sides l (λ m. path_code m (align_of sides.to.encoding) (path_of path.now)) (NeedsPath (align_of sides.to.encoding) (path_of path.now)))) }
{
    match path {
        Path::End => Ok(()),
        Path::Limit(factor, next) => {
            check_limit(w, sides, *factor, l)?;
            put_path(w, sides, l, next)
        }
        Path::Resize(from, to, next) => {
            resize(w, sides, *from, *to, l)?;
            put_path(w, sides, l, next)
        }
        Path::Pass(pass, next) => {
            put_pass(w, sides, *pass, l)?;
            put_path(w, sides, l, next)
        }
        Path::If(test, if_true, if_false, next) => {
            put_choice(w, sides, l, *test, if_true, if_false)?;
            put_path(w, sides, l, next)
        }
        Path::Tag(next) => {
            put_tag(w, l.written)?;
            put_path(w, sides, l, next)
        }
        Path::Assert(trap, test, next) => {
            check_assert(w, sides, *trap, *test, l)?;
            put_path(w, sides, l, next)
        }
    }
}

/// One path or another, by a test.
#[cycle(paths)]
fn put_choice(
    w: &mut Writer,
    sides: Sides,
    l: StringLocals,
    test: PathTest,
    if_true: &Path,
    if_false: &Path,
) -> Result<(), OutOfMemory>
    requires sides { AreSidesImported sides w.old.sections }
    requires true_limits { AreLimitsSome (path_of if_true.now) }
    requires false_limits { AreLimitsSome (path_of if_false.now) }
    ensures { OnOk result (Emits w.old w.new (StringPiece sides l (λ m. either_code (test_code m (path_test_of test)) (path_code m (align_of sides.to.encoding) (path_of if_true.now)) (path_code m (align_of sides.to.encoding) (path_of if_false.now))) (NeedsBoth (NeedsPath (align_of sides.to.encoding) (path_of if_true.now)) (NeedsPath (align_of sides.to.encoding) (path_of if_false.now))))) }
{
    let test = test_of(w, sides, test, l)?;
    let outer = w.begin();
    put_path(w, sides, l, if_false)?;
    let no = w.end(outer);
    let outer = w.begin();
    put_path(w, sides, l, if_true)?;
    let yes = w.end(outer);
    put_either(w, test, yes, no)?;
    Ok(())
}

// ---- whole texts

/// Checks the source of a text. Its bytes may wrap, and then there are more units than the limit that follows lets pass.
fn check_text(
    w: &mut Writer,
    sides: Sides,
    form: TextForm,
    l: StringLocals,
) -> Result<(), OutOfMemory>
    ensures { OnOk result (Emits w.old w.new (StringPiece sides l (λ m. check_text_code m (text_form_of form)) (NeedsRegion (align_of_form (text_form_of form))))) }
{
    let linear = sides.from;
    put_times(w, linear.memory64, form.unit_bytes(), l.units)?;
    w.put(Instr::LocalSet(l.bytes))?;
    let align = form.alignment();
    let trap = Trap::StringOutOfBounds;
    check_region(w, linear, l.source, l.bytes, l.length, align, trap)?;
    Ok(())
}

/// A text of a form goes to a region of its destination.
fn put_text(
    w: &mut Writer,
    sides: Sides,
    form: TextForm,
    l: StringLocals,
) -> Result<(), OutOfMemory>
    requires sides { AreSidesImported sides w.old.sections }
    ensures { OnOk result (Emits w.old w.new (StringPiece sides l (λ m. text_code m (text_form_of form) sides.to.encoding) (NeedsText (text_form_of form) sides.to.encoding))) }
{
    check_text(w, sides, form, l)?;
    put_zero(w, l.read)?;
    put_zero(w, l.region)?;
    put_zero(w, l.written)?;
    let path = path_to(w.alloc, form, sides.to.encoding)?;
    let put = put_path(w, sides, l, &path);
    drop(path);
    put
}

/// The code that tells whether the length of a text in the compact form has no tag, in a buffer of its own: nothing is put behind
/// the code so far.
fn no_tag_test(w: &mut Writer, l: StringLocals) -> Result<Vec<Instr>, OutOfMemory>
    ensures is { IfOk result (λ code. code.items ≡ no_tag_code l.units) }
    ensures aside { OnOk result (Wrote w.old w.new []) }
{
    let outer = w.begin();
    put_no_tag(w, l.units)?;
    let code = w.end(outer);
    Ok(code.into_vec())
}

/// A text in the compact form: it is UTF-16 where its length has the tag, and else Latin-1.
fn put_compact(w: &mut Writer, sides: Sides, l: StringLocals) -> Result<(), OutOfMemory>
    requires sides { AreSidesImported sides w.old.sections }
    ensures { OnOk result (Emits w.old w.new (StringPiece sides l (λ m. encoded_code m CompactUtf16 sides.to.encoding) (NeedsBoth (NeedsText AsCompactLatin1 sides.to.encoding) (NeedsText AsCompactUtf16 sides.to.encoding)))) }
{
    let test = no_tag_test(w, l)?;
    let outer = w.begin();
    put_untag(w, l.units)?;
    put_text(w, sides, TextForm::CompactUtf16, l)?;
    let wide = w.end(outer);
    let outer = w.begin();
    put_text(w, sides, TextForm::CompactLatin1, l)?;
    let narrow = w.end(outer);
    put_either(w, test, narrow, wide)?;
    Ok(())
}

/// A text of the encoding of its source.
fn put_encoded(w: &mut Writer, sides: Sides, l: StringLocals) -> Result<(), OutOfMemory>
    requires sides { AreSidesImported sides w.old.sections }
    ensures { OnOk result (Emits w.old w.new (StringPiece sides l (λ m. encoded_code m sides.from.encoding sides.to.encoding) (NeedsEncoded sides.from.encoding sides.to.encoding))) }
{
    match sides.from.encoding {
        StringEncoding::Utf8 => put_text(w, sides, TextForm::Utf8, l),
        StringEncoding::Utf16 => put_text(w, sides, TextForm::Utf16, l),
        StringEncoding::CompactUtf16 => put_compact(w, sides, l),
    }
}

/// Moves a string to a new region, from the encoding of its side to that of the other, by its locals.
pub fn move_string_by(
    w: &mut Writer,
    sides: Sides,
    l: StringLocals,
    source: SourcePlace<'_>,
    target: TargetPlace<'_>,
) -> Result<(), OutOfMemory>
    requires sides { AreSidesImported sides w.old.sections }
    ensures { OnOk result (Emits w.old w.new (WroteString sides l (from_of sides.from source.entry) (to_of sides.to target.entry))) }
{
    read_pair(w, sides.debug, sides.from, source, l.source, l.units)?;
    put_encoded(w, sides, l)?;
    write_pair(w, sides.to, l.region, l.written, target)?;
    Ok(())
}
