//! Runs of the command over memory. An `ask` says the most bytes that a call takes, and the calls of reading, of writing and of telling
//! that fail, or 0 where none does; the words, each behind a `|`; and the edits that make the plan that is read.

use fact_run::{BytesSink, BytesSource, Sink, Source, Status, run};
use line_tests::{add_text, edited, first_of, number_of, word_of};
use std::alloc::{AllocError, Global};

/// What a run begins with: the words, the input, the most bytes that a call takes, and the calls that fail.
#[derive(Clone, Copy)]
pub struct Given<'a> {
    words: &'a str,
    input: &'a [u8],
    piece: usize,
    failing_read: u64,
    failing_write: u64,
    failing_tell: u64,
}

/// A run without words over a plan that is read and written without a fault.
pub fn plain(plan: &str) -> Given<'_> {
    Given {
        words: "",
        input: plan.as_bytes(),
        piece: 4096,
        failing_read: 0,
        failing_write: 0,
        failing_tell: 0,
    }
}

/// The number of a word, or another one where it is empty.
fn number_or(word: &str, other: u64) -> u64 {
    if word.is_empty() {
        other
    } else {
        number_of(word)
    }
}

/// The run that the numbers and the words of a line ask for.
pub fn asked<'a>(numbers: &'a str, words: &'a str, plan: &'a str) -> Given<'a> {
    let (piece, numbers) = word_of(numbers);
    let (read, numbers) = word_of(numbers);
    let (write, tell) = word_of(numbers);
    Given {
        words,
        input: plan.as_bytes(),
        piece: number_or(piece, 4096) as usize,
        failing_read: number_or(read, 0),
        failing_write: number_or(write, 0),
        failing_tell: number_or(tell, 0),
    }
}

/// The most bytes that a run may print, and that it may tell.
const ROOM: usize = 4_000_000;

/// How a run ended, and what it left.
#[derive(Drop)]
pub struct Seen {
    pub status: Status,
    out: BytesSink,
    err: BytesSink,
}

impl Seen {
    /// What it printed, which is text.
    pub fn printed(&self) -> &str {
        std::str::from_utf8(self.out.written()).unwrap_or("")
    }

    /// What it told.
    pub fn told(&self) -> &str {
        std::str::from_utf8(self.err.written()).unwrap_or("")
    }
}

fn words_of(alloc: Global, words: &str) -> Result<Vec<String>, AllocError> {
    let mut list = Vec::new(alloc);
    for word in words.split('|').skip(1) {
        list.push(String::from_str(alloc, word)?)?;
    }
    Ok(list)
}

fn sink(alloc: Global, piece: usize, failing: u64) -> Result<BytesSink, AllocError> {
    let failing = Vec::from_slice(alloc, &[failing])?;
    BytesSink::new(alloc, ROOM, piece.max(1), failing)
}

fn source(alloc: Global, given: &Given) -> Result<BytesSource, AllocError> {
    let input = Vec::from_slice(alloc, given.input)?;
    let failing = Vec::from_slice(alloc, &[given.failing_read])?;
    Ok(BytesSource::new(input, given.piece.max(1), failing))
}

/// The top call. Its many facts are not asked for here.
fn status_of<S: Source, K: Sink, E: Sink>(
    alloc: Global,
    words: &[String],
    source: &mut S,
    out: &mut K,
    err: &mut E,
) -> Status {
    run(alloc, words, source, out, err)
}

/// Runs the command.
pub fn run_on(alloc: Global, given: &Given) -> Result<Seen, AllocError> {
    let mut out = sink(alloc, given.piece, given.failing_write)?;
    let mut err = sink(alloc, given.piece, given.failing_tell)?;
    let words = words_of(alloc, given.words)?;
    let mut source = source(alloc, given)?;
    let status = status_of(alloc, words.as_slice(), &mut source, &mut out, &mut err);
    Ok(Seen { status, out, err })
}

/// Adds the number of the status, what is printed, and what is told.
fn add_seen(page: &mut String, alloc: Global, given: &Given) -> Result<(), AllocError> {
    let seen = run_on(alloc, given)?;
    write!(page, "{} | ", seen.status.number())?;
    add_text(page, seen.printed())?;
    page.push_str(" | ")?;
    add_text(page, seen.told())
}

/// Adds how the command ends for a plan: `module` where it prints one and tells nothing, else the number of the status and what it tells.
pub fn add_end(page: &mut String, alloc: Global, plan: &str) -> Result<(), AllocError> {
    let seen = run_on(alloc, &plain(plan))?;
    let number = seen.status.number();
    if number == 0 && seen.printed().starts_with("0061736d01000000") && seen.told().is_empty() {
        return page.push_str("module");
    }
    write!(page, "{number} ")?;
    add_text(page, seen.printed())?;
    add_text(page, seen.told())
}

/// Adds how the command ends for the bytes of each proper prefix of a plan, the empty one first: each end behind the length from
/// which on it comes, and behind them the length of the plan.
pub fn add_prefixes(page: &mut String, alloc: Global, plan: &str) -> Result<(), AllocError> {
    let bytes = plan.as_bytes();
    let mut last = String::new(alloc);
    for length in 0..bytes.len() {
        let given = Given {
            input: &bytes[..length],
            ..plain("")
        };
        let mut end = String::new(alloc);
        add_seen(&mut end, alloc, &given)?;
        if end.as_str() != last.as_str() {
            write!(page, "{length}: {end}; ")?;
            last = end;
        }
    }
    write!(page, "{}", bytes.len())
}

/// Adds how the command ends for so many spaces and the bytes behind them, which need not be text, and for the words behind both.
pub fn add_bytes(page: &mut String, alloc: Global, line: &str) -> Result<(), AllocError> {
    let (line, words) = first_of(line);
    let (spaces, digits) = word_of(line);
    let Ok(bytes) = hex::decode(alloc, digits) else {
        return page.push_str("no bytes");
    };
    let mut input = Vec::new(alloc);
    input.resize(number_of(spaces) as usize, b' ')?;
    input.extend_from_slice(bytes.as_slice())?;
    let given = Given {
        words,
        input: input.as_slice(),
        piece: 1 << 20,
        ..plain("")
    };
    add_seen(page, alloc, &given)
}

/// Parts without the spaces between them.
fn joined(alloc: Global, parts: &str) -> Result<String, AllocError> {
    let mut text = String::new(alloc);
    for part in parts.split_whitespace() {
        text.push_str(part)?;
    }
    Ok(text)
}

/// Adds what the command says with `--check` of the bytes of a line, behind the words that tell a reader what they are.
pub fn add_checked(page: &mut String, alloc: Global, line: &str) -> Result<(), AllocError> {
    let (_, parts) = first_of(line);
    let digits = joined(alloc, parts)?;
    let seen = run_on(alloc, &asked("", "|--check", digits.as_str()))?;
    page.push_str(seen.printed().trim_end())?;
    page.push_str(seen.told().trim_start_matches("rejected: ").trim_end())
}

/// Adds what the command prints for a plan.
pub fn add_page(page: &mut String, alloc: Global, plan: &str) -> Result<(), AllocError> {
    add_seen(page, alloc, &plain(plan))
}

/// Adds the lines of imports that the command prints behind the module of a plan.
pub fn add_imports(page: &mut String, alloc: Global, plan: &str) -> Result<(), AllocError> {
    let given = Given {
        words: "|--imports",
        ..plain(plan)
    };
    let seen = run_on(alloc, &given)?;
    let (_, lines) = seen.printed().split_once("\n").unwrap_or(("", ""));
    add_text(page, lines)
}

/// Adds what comes of an `ask` of a plan.
pub fn add_asked(
    page: &mut String,
    alloc: Global,
    plan: &str,
    line: &str,
) -> Result<(), AllocError> {
    let (numbers, line) = first_of(line);
    let (words, edits) = first_of(line);
    let plan = edited(alloc, plan, edits)?;
    add_seen(page, alloc, &asked(numbers, words, plan.as_str()))
}
