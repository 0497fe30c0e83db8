//! How texts are moved, as data: for each pair of forms a path of checks, requests of memory and calls of transcoders (canonical
//! ABI, "Storing", `store_string_into_range`).

ghost use Rattle.std.specs.Prelude.{◌≡◌, IfOk};
ghost use Rattle.fact_types.specs.declared.outside.StringEncoding.TheVariants.{CompactUtf16};
ghost use Rattle.fact_actions.specs.Paths as moves;
ghost use Rattle.fact_actions.specs.Paths.{align_of};
ghost use Rattle.fact_actions.specs.Transcoders.{transcode_kind};
ghost use Rattle.fact_code_laws.specs.StringCode.{align_of_form, bytes_of_form};
ghost use Rattle.fact_emit.specs.StringPaths.{AreLimitsSome, amount_of, kind_named, path_of, path_test_of, second_to_utf8 as second_path, text_form_of};

use fact_types::{FixedEncoding, StringEncoding, Transcode, Trap};
use fact_wasm::OutOfMemory;
use std::alloc::Global;

/// A number of bytes or units: so many times the length of the source, or so many times what is written.
#[derive(Clone, Copy)]
pub enum Amount {
    SourceUnits(u32),
    WrittenUnits(u32),
}

/// What is tested on a path.
#[derive(Clone, Copy)]
pub enum PathTest {
    /// All of the source is read.
    AllRead,
    /// What is written is so many times the length of the source.
    WrittenIs(u32),
    /// What is written has no tag.
    HasNoTag,
    /// What is written is the length of the source, the tag aside.
    KeepsUnits,
}

/// A call of a transcoder, on the source or on the rest of it. The room is so many times the length of the source.
#[derive(Clone, Copy)]
pub struct Pass {
    pub op: Transcode,
    pub rest: bool,
    pub room: u32,
}

/// The steps of a path, each with what follows it.
#[derive(Drop)]
pub enum Path {
    End,
    /// So many times the length of the source is no more than the greatest length of a string in bytes.
    Limit(u32, Box<Path>),
    /// Realloc of the region, from one number of bytes to another.
    Resize(Amount, Amount, Box<Path>),
    Pass(Pass, Box<Path>),
    /// One path or another, and then one more.
    If(PathTest, Box<Path>, Box<Path>, Box<Path>),
    /// The tag of UTF-16 is set.
    Tag(Box<Path>),
    /// A test of debug checks alone.
    Assert(Trap, PathTest, Box<Path>),
}

/// The forms in which a text stands at its source: compact texts are Latin-1, or UTF-16 where their length has the tag.
#[derive(Clone, Copy)]
pub enum TextForm {
    Utf8,
    Utf16,
    CompactLatin1,
    CompactUtf16,
}

/// What a transcoder writes and answers.
#[derive(Clone, Copy, PartialEq, Eq)]
pub enum TranscodeKind {
    /// All of the source is written, unit by unit; nothing is answered.
    AllUnits,
    /// All of it is written; the units written are answered.
    Counted,
    /// What fits in the room is written; the units read and the bytes written are answered.
    Fitting,
    /// What is below 256 is written; the units read and the bytes written are answered.
    Narrow,
    /// All of it is written, as Latin-1 where that can be; the units written are answered, with a tag for UTF-16.
    Tagged,
    /// All of it is written behind bytes that are there and become units; the units in all are answered.
    Widening,
}

/// The kind of an operation.
pub fn kind_of(op: Transcode) -> TranscodeKind
    ensures { kind_named result ≡ transcode_kind op }
{
    match op {
        Transcode::Copy(_) | Transcode::Latin1ToUtf16 => TranscodeKind::AllUnits,
        Transcode::Utf8ToUtf16 => TranscodeKind::Counted,
        Transcode::Latin1ToUtf8 | Transcode::Utf16ToUtf8 => TranscodeKind::Fitting,
        Transcode::Utf8ToLatin1 | Transcode::Utf16ToLatin1 => TranscodeKind::Narrow,
        Transcode::Utf16ToCompactProbablyUtf16 => TranscodeKind::Tagged,
        Transcode::Utf8ToCompactUtf16 | Transcode::Utf16ToCompactUtf16 => TranscodeKind::Widening,
    }
}

impl TextForm {
    /// The bytes of a code unit.
    pub fn unit_bytes(self) -> u32
        ensures { result ≡ bytes_of_form (text_form_of self) }
    {
        match self {
            TextForm::Utf8 | TextForm::CompactLatin1 => 1,
            TextForm::Utf16 | TextForm::CompactUtf16 => 2,
        }
    }

    /// The alignment of its first byte.
    pub fn alignment(self) -> u32
        ensures { result ≡ align_of_form (text_form_of self) }
    {
        match self {
            TextForm::Utf8 => 1,
            _ => 2,
        }
    }
}

/// The alignment of a text that is written.
pub fn written_alignment(encoding: StringEncoding) -> u32
    ensures { result ≡ align_of encoding }
{
    match encoding {
        StringEncoding::Utf8 => 1,
        StringEncoding::Utf16 | StringEncoding::CompactUtf16 => 2,
    }
}

// ---- single steps, each in front of the path that follows it

fn limit(alloc: Global, factor: u32, next: Path) -> Result<Path, OutOfMemory>
    ensures { IfOk result (λ p. path_of p ≡ moves.Limit factor (path_of next)) }
{
    Ok(Path::Limit(factor, Box::new(alloc, next)?))
}

fn resize(alloc: Global, from: Amount, to: Amount, next: Path) -> Result<Path, OutOfMemory>
    ensures { IfOk result (λ p. path_of p ≡ moves.Resize (amount_of from) (amount_of to) (path_of next)) }
{
    Ok(Path::Resize(from, to, Box::new(alloc, next)?))
}

fn transcode(
    alloc: Global,
    op: Transcode,
    rest: bool,
    room: u32,
    next: Path,
) -> Result<Path, OutOfMemory>
    ensures { IfOk result (λ p. path_of p ≡ moves.Pass op rest room (path_of next)) }
{
    let pass = Pass { op, rest, room };
    Ok(Path::Pass(pass, Box::new(alloc, next)?))
}

fn choose(
    alloc: Global,
    test: PathTest,
    if_true: Path,
    if_false: Path,
    next: Path,
) -> Result<Path, OutOfMemory>
    ensures { IfOk result (λ p. path_of p ≡ moves.If (path_test_of test) (path_of if_true) (path_of if_false) (path_of next)) }
{
    let if_true = Box::new(alloc, if_true)?;
    let if_false = Box::new(alloc, if_false)?;
    let next = Box::new(alloc, next)?;
    Ok(Path::If(test, if_true, if_false, next))
}

fn tag(alloc: Global, next: Path) -> Result<Path, OutOfMemory>
    ensures { IfOk result (λ p. path_of p ≡ moves.Tag (path_of next)) }
{
    Ok(Path::Tag(Box::new(alloc, next)?))
}

fn assert_that(alloc: Global, trap: Trap, test: PathTest, next: Path) -> Result<Path, OutOfMemory>
    ensures { IfOk result (λ p. path_of p ≡ moves.Assert trap (path_test_of test) (path_of next)) }
{
    Ok(Path::Assert(trap, test, Box::new(alloc, next)?))
}

// ---- stretches that several paths have

/// A region of so many bytes for each unit of the source, and a transcoder over all of it.
fn whole(alloc: Global, bytes: u32, op: Transcode, next: Path) -> Result<Path, OutOfMemory>
    ensures { IfOk result (λ p. path_of p ≡ moves.whole bytes op (path_of next)) }
{
    let passed = transcode(alloc, op, false, 0, next)?;
    let grown = Amount::SourceUnits(bytes);
    let resized = resize(alloc, Amount::SourceUnits(0), grown, passed)?;
    limit(alloc, bytes, resized)
}

/// The region is cut to what is written, where that is not all of it.
fn cut(alloc: Global, bytes: u32, next: Path) -> Result<Path, OutOfMemory>
    ensures { IfOk result (λ p. path_of p ≡ moves.cut bytes (path_of next)) }
{
    let from = Amount::SourceUnits(bytes);
    let cut = resize(alloc, from, Amount::WrittenUnits(bytes), Path::End)?;
    choose(alloc, PathTest::WrittenIs(1), Path::End, cut, next)
}

/// The second pass into UTF-8, into the most bytes that the text can take, which are so many for each unit of the source.
fn second_to_utf8(alloc: Global, most: u32, op: Transcode) -> Result<Path, OutOfMemory>
    ensures { IfOk result (λ p. path_of p ≡ second_path most op) }
{
    let all = Amount::SourceUnits(most);
    let cut = resize(alloc, all, Amount::WrittenUnits(1), Path::End)?;
    let end = choose(alloc, PathTest::WrittenIs(most), Path::End, cut, Path::End)?;
    let trap = Trap::DebugAssertStringEncodingFinished;
    let asserted = assert_that(alloc, trap, PathTest::AllRead, end)?;
    let passed = transcode(alloc, op, true, most, asserted)?;
    let resized = resize(alloc, Amount::SourceUnits(1), all, passed)?;
    limit(alloc, most, resized)
}

/// First into as many bytes as the source has units, and where that is not enough, once more.
fn to_utf8(alloc: Global, unit: u32, most: u32, op: Transcode) -> Result<Path, OutOfMemory>
    ensures { IfOk result (λ p. path_of p ≡ moves.to_utf8 unit most op) }
{
    let second = second_to_utf8(alloc, most, op)?;
    let trap = Trap::DebugAssertStringEncodingFinished;
    let first = assert_that(alloc, trap, PathTest::WrittenIs(1), Path::End)?;
    let chosen = choose(alloc, PathTest::AllRead, first, second, Path::End)?;
    let passed = transcode(alloc, op, false, 1, chosen)?;
    let units = Amount::SourceUnits(1);
    let resized = resize(alloc, Amount::SourceUnits(0), units, passed)?;
    limit(alloc, unit, resized)
}

/// What is written as Latin-1 becomes UTF-16, and the rest follows.
fn to_wide(alloc: Global, op: Transcode) -> Result<Path, OutOfMemory>
    ensures { IfOk result (λ p. path_of p ≡ moves.to_wide op moves.End) }
{
    let tagged = tag(alloc, Path::End)?;
    let cut = cut(alloc, 2, tagged)?;
    let passed = transcode(alloc, op, true, 1, cut)?;
    let doubled = Amount::SourceUnits(2);
    resize(alloc, Amount::SourceUnits(1), doubled, passed)
}

/// First as Latin-1, and where a scalar value is not below 256, by a path to UTF-16.
fn to_compact(alloc: Global, unit: u32, op: Transcode, wide: Path) -> Result<Path, OutOfMemory>
    ensures { IfOk result (λ p. path_of p ≡ moves.to_compact unit op (λ q. path_of wide)) }
{
    let narrow = cut(alloc, 1, Path::End)?;
    let chosen = choose(alloc, PathTest::AllRead, narrow, wide, Path::End)?;
    let passed = transcode(alloc, op, false, 0, chosen)?;
    let units = Amount::SourceUnits(1);
    let resized = resize(alloc, Amount::SourceUnits(0), units, passed)?;
    limit(alloc, unit, resized)
}

/// As Latin-1 where that spells the text, and else the units as they are.
fn compact_to_compact(alloc: Global) -> Result<Path, OutOfMemory>
    ensures { IfOk result (λ p. path_of p ≡ moves.path moves.AsCompactUtf16 CompactUtf16) }
{
    let from = Amount::SourceUnits(2);
    let cut = resize(alloc, from, Amount::WrittenUnits(1), Path::End)?;
    let chosen = choose(alloc, PathTest::HasNoTag, cut, Path::End, Path::End)?;
    let trap = Trap::DebugAssertEqualCodeUnits;
    let asserted = assert_that(alloc, trap, PathTest::KeepsUnits, chosen)?;
    whole(alloc, 2, Transcode::Utf16ToCompactProbablyUtf16, asserted)
}

// ---- whole paths, by the form of the source

fn from_utf8(alloc: Global, to: StringEncoding) -> Result<Path, OutOfMemory>
    ensures { IfOk result (λ p. path_of p ≡ moves.path moves.AsUtf8 to) }
{
    match to {
        StringEncoding::Utf8 => whole(alloc, 1, Transcode::Copy(FixedEncoding::Utf8), Path::End),
        StringEncoding::Utf16 => {
            let cut = cut(alloc, 2, Path::End)?;
            whole(alloc, 2, Transcode::Utf8ToUtf16, cut)
        }
        StringEncoding::CompactUtf16 => {
            let wide = to_wide(alloc, Transcode::Utf8ToCompactUtf16)?;
            let limited = limit(alloc, 2, wide)?;
            to_compact(alloc, 1, Transcode::Utf8ToLatin1, limited)
        }
    }
}

fn from_utf16(alloc: Global, to: StringEncoding) -> Result<Path, OutOfMemory>
    ensures { IfOk result (λ p. path_of p ≡ moves.path moves.AsUtf16 to) }
{
    match to {
        StringEncoding::Utf8 => to_utf8(alloc, 2, 3, Transcode::Utf16ToUtf8),
        StringEncoding::Utf16 => whole(alloc, 2, Transcode::Copy(FixedEncoding::Utf16), Path::End),
        StringEncoding::CompactUtf16 => {
            let wide = to_wide(alloc, Transcode::Utf16ToCompactUtf16)?;
            to_compact(alloc, 2, Transcode::Utf16ToLatin1, wide)
        }
    }
}

fn from_latin1(alloc: Global, to: StringEncoding) -> Result<Path, OutOfMemory>
    ensures { IfOk result (λ p. path_of p ≡ moves.path moves.AsCompactLatin1 to) }
{
    match to {
        StringEncoding::Utf8 => to_utf8(alloc, 1, 2, Transcode::Latin1ToUtf8),
        StringEncoding::Utf16 => whole(alloc, 2, Transcode::Latin1ToUtf16, Path::End),
        StringEncoding::CompactUtf16 => {
            whole(alloc, 1, Transcode::Copy(FixedEncoding::Latin1), Path::End)
        }
    }
}

/// The path of a text of a form to an encoding.
pub fn path_to(alloc: Global, form: TextForm, to: StringEncoding) -> Result<Path, OutOfMemory>
    ensures is { IfOk result (λ p. path_of p ≡ moves.path (text_form_of form) to) }
    ensures limits { IfOk result (λ p. AreLimitsSome (path_of p)) }
{
    match form {
        TextForm::Utf8 => from_utf8(alloc, to),
        TextForm::Utf16 => from_utf16(alloc, to),
        TextForm::CompactLatin1 => from_latin1(alloc, to),
        TextForm::CompactUtf16 => match to {
            StringEncoding::CompactUtf16 => compact_to_compact(alloc),
            StringEncoding::Utf8 | StringEncoding::Utf16 => from_utf16(alloc, to),
        },
    }
}
