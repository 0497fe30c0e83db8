//! The words of the command line.

ghost use Rattle.std.specs.Prelude.{◌≡◌, ◌≤◌, IfOk, IfSome, codes, false, map, string_bytes};
ghost use Rattle.std.specs.Char.{is_ascii_digit};
ghost use Rattle.std.specs.List.{list_all, list_any};
ghost use Rattle.std.specs.Option.{option_map_or};
ghost use Rattle.std.specs.Str.{bytes_eq};
ghost use Rattle.clap.specs.Simple.{app_of, with_rule};
ghost use Rattle.clap.specs.Walk.{first_of, rows_of, rule_of};
ghost use Rattle.clap.specs.Matches.{found_of};
ghost use Rattle.fact_generate.specs.Generated.{most_generated};
ghost use Rattle.fact_command.specs.Command.{HasOneMode, are_several, bare_command, command, flag, fuel_or_default, generated_in, in_one_mode, is_from_words, is_plain_number, is_used, decimal_in, option, options_in, reading};

use clap::error::ErrorKind;
use clap::parser::ValueSource;
use clap::{Arg, ArgAction, ArgMatches, Command};
use fact_generate::MOST_GENERATED;
use fact_wasm::{OutOfMemory, Text};
use std::alloc::{AllocError, Global};

const DEFAULT_FUEL: u32 = 1000;

const MIN_FUEL: u32 = 1;

const MAX_FUEL: u32 = 1_000_000;

/// What the words ask for: a plan is read and its module printed, unless one mode is asked for, to generate, to check, to call or to chain.
#[derive(Drop)]
pub struct CommandOptions {
    /// Debug checks are emitted, whatever the plan says.
    pub debug: bool,
    /// The imports are printed.
    pub imports: bool,
    /// How much translation a function may hold before parts of it become helpers.
    pub fuel: u32,
    /// A plan of so many adapters is generated, and none is read.
    pub generate: Option<u32>,
    /// Bytes in hex are read and checked, and no plan is.
    pub check: bool,
    /// The adapter of this name is called, with the plan and the values that are read.
    pub call: Option<Text>,
    /// Two adapters are chained, with the plan, the names and the values that are read.
    pub chain: bool,
}

fn flag<'a>(alloc: Global, name: &'a str) -> Arg<'a>
    ensures rule { rule_of result ≡ flag name.entry.now }
    ensures local { result.global ≡ false }
{
    Arg::new(alloc, name).long(name).action(ArgAction::SetTrue)
}

fn option<'a>(alloc: Global, name: &'a str) -> Arg<'a>
    ensures rule { rule_of result ≡ option name.entry.now }
    ensures local { result.global ≡ false }
{
    Arg::new(alloc, name).long(name).action(ArgAction::Set)
}

/// The command without its options. It has neither help nor a version.
fn bare_command<'a>(alloc: Global) -> Command<'a>
    ensures { app_of result ≡ bare_command }
{
    Command::new(alloc, "factc")
        .no_binary_name(true)
        .disable_help_flag(true)
        .disable_version_flag(true)
}

/// A command with one more option.
fn with<'a>(command: Command<'a>, arg: Arg<'a>) -> Result<Command<'a>, OutOfMemory>
    requires { arg.global ≡ false }
    ensures { IfOk result (λ c. app_of c ≡ with_rule (app_of command.entry) (rule_of arg.entry)) }
{
    command.arg(arg)
}

/// The command.
fn command<'a>(alloc: Global) -> Result<Command<'a>, OutOfMemory>
    ensures { IfOk result (λ c. app_of c ≡ command) }
{
    let bare = bare_command(alloc);
    let with_debug = with(bare, flag(alloc, "debug"))?;
    let with_fuel = with(with_debug, option(alloc, "fuel"))?;
    let with_imports = with(with_fuel, flag(alloc, "imports"))?;
    let with_generate = with(with_imports, option(alloc, "generate"))?;
    let with_check = with(with_generate, flag(alloc, "check"))?;
    let with_call = with(with_check, option(alloc, "call"))?;
    with(with_call, flag(alloc, "chain"))
}

fn are_digits(text: &[u8]) -> bool
    ensures { result ≡ list_all is_ascii_digit text.now }
{
    text.iter().all(|digit| digit.is_ascii_digit())
}

fn is_plain_number(text: &[u8]) -> bool
    ensures { result ≡ is_plain_number text.now }
{
    match text {
        [] => false,
        [digit] => digit.is_ascii_digit(),
        [first, ..] => *first != b'0' && are_digits(text),
    }
}

/// The number that a text is, where it is in its form and within bounds.
fn number_in(text: &str, least: u32, most: u32) -> Option<u32>
    ensures { result ≡ decimal_in least most text.now }
{
    if !is_plain_number(text.as_bytes()) {
        return None;
    }
    let Ok(number) = text.parse::<u32>() else {
        return None;
    };
    if least <= number && number <= most {
        Some(number)
    } else {
        None
    }
}

fn is_from_words(source: Option<ValueSource>) -> bool
    ensures { result ≡ option_map_or is_from_words source false }
{
    matches!(source, Some(ValueSource::CommandLine))
}

/// Whether the words themselves have the flag.
fn is_used(matches: &ArgMatches, name: &str) -> bool
    ensures { result ≡ is_used name.now (rows_of (found_of matches.now)) }
{
    is_from_words(matches.value_source(name))
}

/// The fuel, where the value of `--fuel` has its form.
fn fuel_of(matches: &ArgMatches) -> Option<u32>
    ensures { result ≡ fuel_or_default (first_of (codes "fuel") (rows_of (found_of matches.now))) }
{
    match matches.get_str("fuel") {
        Some(text) => number_in(text, MIN_FUEL, MAX_FUEL),
        None => Some(DEFAULT_FUEL),
    }
}

/// The number of adapters to generate, where there is one, and where the value of `--generate` has its form.
fn generated_of(matches: &ArgMatches) -> Option<Option<u32>>
    ensures { result ≡ generated_in (first_of (codes "generate") (rows_of (found_of matches.now))) }
{
    match matches.get_str("generate") {
        Some(text) => Some(Some(number_in(text, 0, MOST_GENERATED)?)),
        None => Some(None),
    }
}

/// The name of the adapter to call, where there is one.
fn call_of(alloc: Global, matches: &ArgMatches) -> Result<Option<Text>, OutOfMemory>
    ensures { IfOk result (λ name. name ≡ first_of (codes "call") (rows_of (found_of matches.now))) }
{
    match matches.get_str("call") {
        Some(name) => Ok(Some(Text::from_str(alloc, name)?)),
        None => Ok(None),
    }
}

/// Whether more than one of four is so.
fn are_several(a: bool, b: bool, c: bool, d: bool) -> bool
    ensures { result ≡ are_several a b c d }
{
    let is_other = c || d;
    if a {
        b || is_other
    } else if b {
        is_other
    } else {
        c && d
    }
}

/// The options, where they ask for one mode at most.
fn in_one_mode(options: CommandOptions) -> Option<CommandOptions>
    ensures { result ≡ in_one_mode options }
{
    let several = are_several(
        options.check,
        options.generate.is_some(),
        options.call.is_some(),
        options.chain,
    );
    if several {
        drop(options);
        None
    } else {
        Some(options)
    }
}

fn options_in(alloc: Global, matches: &ArgMatches) -> Result<Option<CommandOptions>, OutOfMemory>
    ensures { IfOk result (λ options. options ≡ options_in (rows_of (found_of matches.now))) }
{
    let Some(fuel) = fuel_of(matches) else {
        return Ok(None);
    };
    let Some(generate) = generated_of(matches) else {
        return Ok(None);
    };
    let call = call_of(alloc, matches)?;
    Ok(in_one_mode(CommandOptions {
        debug: is_used(matches, "debug"),
        imports: is_used(matches, "imports"),
        fuel,
        generate,
        check: is_used(matches, "check"),
        call,
        chain: is_used(matches, "chain"),
    }))
}

/// Whether a word is a bare `--`.
fn has_bare_dashes(words: &[String]) -> bool
    ensures { result ≡ list_any (λ word. bytes_eq (string_bytes word) (codes "--")) words.now }
{
    words.iter().any(|word| word.as_str() == "--")
}

/// What the words ask for, or nothing where the command does not take them.
#[tactic(auto, unfolding(crate::specs::Command::reading))]
pub fn command_of(alloc: Global, words: &[String]) -> Result<Option<CommandOptions>, OutOfMemory>
    ensures reading { IfOk result (λ options. options ≡ reading (map string_bytes words.now)) }
    ensures fuel { IfOk result (λ options. IfSome options (λ o. 1 ≤ o.fuel)) }
    ensures generate { IfOk result (λ options. IfSome options (λ o. IfSome o.generate (λ n. n ≤ most_generated))) }
    ensures one { IfOk result (λ options. IfSome options HasOneMode) }
{
    if has_bare_dashes(words) {
        return Ok(None);
    }
    match command(alloc)?.try_get_matches_from(words) {
        Ok(matches) => options_in(alloc, &matches),
        Err(error) if error.kind() == ErrorKind::OutOfMemory => Err(AllocError),
        Err(_) => Ok(None),
    }
}
