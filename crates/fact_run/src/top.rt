//! The top call, [`run`]: the words are read, the reply of their mode is written, and the line of the end is told.

ghost use Rattle.std.specs.Prelude.{◌≡◌, ◌≢◌, ◌≤◌, ◌+◌, ℕ, List, IfSome, IsSome, None, Some, codes, map, option_map, string_bytes};
ghost use Rattle.std.specs.Io.KnownBytes.{Appends, Keeps};
ghost use Rattle.fact_io.specs.Faults.{Rose};
ghost use Rattle.fact_io.specs.Transfers.{AppendsFront, TakesPast, TakesUpTo};
ghost use Rattle.fact_plan.specs.Fault.{fault_line};
ghost use Rattle.fact_plan.specs.declared.fault.PlanFault.{PlanFault};
ghost use Rattle.fact_plan.specs.Inputs.{HasInput, HoldsBadPlan, HoldsNoJson, IsTooLong, limit};
ghost use Rattle.fact_generate.specs.Generated.{most_generated};
ghost use Rattle.fact_plan_types.specs.declared.error.Place.{Place};
ghost use Rattle.fact_plan_types.specs.Faults.{Fault};
ghost use Rattle.fact_command.specs.declared.command.CommandOptions.{CommandOptions};
ghost use Rattle.fact_command.specs.Command.{HasOneMode, reading};
ghost use Rattle.fact_command.specs.Refusal.{refusal_line};
ghost use Rattle.fact_run.specs.Replies.{IsEndUnder, IsEnding, ending_with, line_in};
ghost use Rattle.fact_wasm.specs.declared.module.WasmModule.{WasmModule};
ghost use Rattle.fact_adapter_rules.specs.Inputs.{HoldsFaultless, HoldsRefusal};
ghost use Rattle.fact_check.specs.declared.error.CheckError.{CheckError};
ghost use Rattle.fact_run.specs.Check.{HoldsAccepted, HoldsNoHex, HoldsRejected, rejected_line};
ghost use Rattle.fact_call_mode.specs.Calls.{HasCall, IsNotCallable};
ghost use Rattle.fact_call_mode.specs.Inputs.{call_input};
ghost use Rattle.fact_chain_mode.specs.ChainInputs.{chain_input};
ghost use Rattle.fact_chain_mode.specs.ChainTexts.{HasChain, IsNotChained};
ghost use Rattle.fact_run.specs.Run.{AsksCall, AsksChain, ChecksBytes, EndsAsCall, EndsAsChain, GeneratesPlan, HoldsBadValueBy, HoldsBadPlanBy, HoldsOverLimitBy, HoldsRefusalBy, IsEndUnread, IsJsonMode, IsOrMemory, IsUndisturbedPlan, IsUndisturbedCall, IsUndisturbedChain, IsUndisturbedCheck, Read, ReadsJson, Sends, TellsLine};
ghost use Rattle.fact_command.specs.Status.{line_of};

use crate::ending::Ending;
use crate::mode::reply_under;
use crate::reply::Reply;
use fact_check::accepted_bytes_have_no_cause;
use fact_command::{CommandOptions, Status, command_of};
use fact_io::{Sink, Source, write_text};
use std::alloc::Global;

/// How a run ends with a reply, where the page of one that has a page was written.
fn ending_with(reply: Reply) -> Ending
    ensures { result ≡ ending_with reply }
{
    match reply {
        Reply::Page(_) => Ending::of(Status::Done),
        Reply::ReadFault => Ending::of(Status::ReadFault),
        Reply::TooLong => Ending::of(Status::TooLong),
        Reply::NotJson => Ending::of(Status::NotJson),
        Reply::BadPlan(line) => Ending::telling(Status::BadPlan, line),
        Reply::Refused(line) => Ending::telling(Status::Refused, line),
        Reply::NotHex => Ending::of(Status::NotHex),
        Reply::Rejected(line) => Ending::telling(Status::Rejected, line),
        Reply::NotCallable => Ending::of(Status::NotCallable),
        Reply::NotChained => Ending::of(Status::NotChained),
        Reply::BadValue(line) => Ending::telling(Status::BadValue, line),
        Reply::OverLimit => Ending::of(Status::OverLimit),
        Reply::OutOfMemory => Ending::of(Status::OutOfMemory),
    }
}

/// Writes the text that a run with these options comes to.
fn end<S: Source, K: Sink>(
    alloc: Global,
    options: &CommandOptions,
    source: &mut S,
    out: &mut K,
) -> Ending
    requires fuel { 1 ≤ options.now.fuel }
    requires number { IfSome options.now.generate (λ n. n ≤ most_generated) }
    requires one { HasOneMode options.now }
    ensures end { IsEndUnder options.now (S.left source.old) (S.left source.new) (Rose (S.faults source.old) (S.faults source.new))
        (K.written out.old) (K.written out.new) (Rose (K.faults out.old) (K.faults out.new)) result.status (line_in result.status (option_map string_bytes result.told)) }
    ensures most { TakesUpTo (S.left source.old) (S.left source.new) (limit + 1) }
    ensures taken { result.status ≢ Status.Usage }
    ensures unread { IsSome options.now.generate → (source.new ≡ source.old) × IsEndUnread result.status }
    ensures no_read_fault { result.status ≢ Status.ReadFault → S.faults source.new ≡ S.faults source.old }
    ensures no_write_fault { result.status ≢ Status.WriteFault → K.faults out.new ≡ K.faults out.old }
{
    match reply_under(alloc, source, options) {
        Reply::Page(text) => match write_text(out, text.as_bytes()) {
            Ok(()) => Ending::of(Status::Done),
            Err(_) => Ending::of(Status::WriteFault),
        },
        reply => ending_with(reply),
    }
}

/// Reads the words, and where they are a command that asks for it the source.
fn ending_of<S: Source, K: Sink>(
    alloc: Global,
    words: &[String],
    source: &mut S,
    out: &mut K,
) -> Ending
    ensures end { IsEnding (map string_bytes words.now) (S.left source.old) (S.left source.new) (Rose (S.faults source.old) (S.faults source.new))
        (K.written out.old) (K.written out.new) (Rose (K.faults out.old) (K.faults out.new)) result.status (line_in result.status (option_map string_bytes result.told)) }
    ensures most { TakesUpTo (S.left source.old) (S.left source.new) (limit + 1) }
    ensures untouched { result.status ≡ Status.Usage → source.new ≡ source.old }
    ensures unread { GeneratesPlan (map string_bytes words.now) → (source.new ≡ source.old) × IsEndUnread result.status }
    ensures no_read_fault { result.status ≢ Status.ReadFault → S.faults source.new ≡ S.faults source.old }
    ensures no_write_fault { result.status ≢ Status.WriteFault → K.faults out.new ≡ K.faults out.old }
{
    match command_of(alloc, words) {
        Ok(Some(options)) => {
            let ending = end(alloc, &options, source, out);
            drop(options);
            ending
        }
        Ok(None) => Ending::of(Status::Usage),
        Err(_) => Ending::of(Status::OutOfMemory),
    }
}

/// Reads a plan in JSON from the source, to its end, and writes the bytes of its module to `out`, in lower-case hex and
/// with a newline, and behind it one line an import where the words ask for them. What went wrong is told on `err` by one
/// line. `words` are those after the program's name: `--debug` adds debug checks, `--fuel N` says how much translation a
/// function may hold (1 to 1,000,000, else 1,000), `--imports` asks for the lines of the imports. `--generate N` (0 to 4,096)
/// reads nothing: the plan is the one that is generated for N adapters, and four lines are written, `adapters A`, `functions F`,
/// `imports I` and `bytes B`, F counting the functions that its module defines. `--check` reads hex digits and at most one newline
/// behind them in place of a plan, checks that their bytes spell an adapter module, and writes `ok F`, F counting the functions that
/// it defines. `--call NAME` reads an object of a plan, of arguments and of results (`plan`, `args`, `results`) in place of a plan: the plan is fused
/// without debug checks, and its sync adapter between two instances that has this name is called on a host with the arguments and a callee that
/// answers the results; three lines are written, `params J`, `results J` and `calls N`: the values that the callee was given, those that the caller got,
/// as JSON lists, and how many calls of the outside the adapter's run made. `--chain` reads an object of a plan, of the names of two of its adapters, of
/// arguments and of results (`plan`, `first`, `second`, `args`, `results`) so, and the first adapter is called, whose callee passes on what it is given
/// to the second one, whose callee answers the results; three lines are written, `seen J`, `results J` and `calls N M`: the values that the last callee
/// was given, those that the first caller got, and how many calls of the outside the two runs made. At most one of these four is asked for. Want of
/// memory may be answered at any point.
pub fn run<S: Source, K: Sink, E: Sink>(
    alloc: Global,
    words: &[String],
    source: &mut S,
    out: &mut K,
    err: &mut E,
) -> Status
    // Why each end comes, and in which mode: where a plan is read, where bytes are checked, where an adapter is called, where two are chained, or in
    // several.
    ensures usage { result ≡ Status.Usage → reading (map string_bytes words.now) ≡ None }
    ensures read_fault { result ≡ Status.ReadFault → Rose (S.faults source.old) (S.faults source.new) }
    ensures too_long { result ≡ Status.TooLong → TakesPast (S.left source.old) (S.left source.new) limit }
    ensures not_json { result ≡ Status.NotJson → ReadsJson (map string_bytes words.now) × Read (S.left source.old) (S.left source.new) HoldsNoJson }
    ensures bad_plan { result ≡ Status.BadPlan → (o : CommandOptions) × (reading (map string_bytes words.now) ≡ Some o) × IsJsonMode o × Read (S.left source.old) (S.left source.new) (λ bytes. (f : PlanFault)
        × HoldsBadPlanBy o.chain o.call bytes f × TellsLine (E.written err.old) (E.written err.new) (E.faults err.old) (E.faults err.new) (fault_line (codes "plan") f)) }
    ensures refused { result ≡ Status.Refused → (o : CommandOptions) × (reading (map string_bytes words.now) ≡ Some o) × IsJsonMode o × Read (S.left source.old) (S.left source.new) (λ bytes. (f : Fault) × (place : Place)
        × HoldsRefusalBy o.chain o.call bytes f place × TellsLine (E.written err.old) (E.written err.new) (E.faults err.old) (E.faults err.new) (refusal_line f place)) }
    ensures not_hex { result ≡ Status.NotHex → ChecksBytes (map string_bytes words.now) × Read (S.left source.old) (S.left source.new) HoldsNoHex }
    ensures rejected { result ≡ Status.Rejected → ChecksBytes (map string_bytes words.now) × Read (S.left source.old) (S.left source.new) (λ input. (e : CheckError)
        × HoldsRejected input e × TellsLine (E.written err.old) (E.written err.new) (E.faults err.old) (E.faults err.new) (rejected_line e)) }
    ensures not_callable { result ≡ Status.NotCallable → (name : List ℕ) × AsksCall (map string_bytes words.now) name × Read (S.left source.old) (S.left source.new) (λ bytes. HasInput call_input bytes (IsNotCallable name)) }
    ensures not_chained { result ≡ Status.NotChained → AsksChain (map string_bytes words.now) × Read (S.left source.old) (S.left source.new) (λ bytes. HasInput chain_input bytes IsNotChained) }
    ensures bad_value { result ≡ Status.BadValue → (o : CommandOptions) × (reading (map string_bytes words.now) ≡ Some o) × IsJsonMode o × Read (S.left source.old) (S.left source.new) (λ bytes. (f : PlanFault)
        × HoldsBadValueBy o.chain o.call bytes f × TellsLine (E.written err.old) (E.written err.new) (E.faults err.old) (E.faults err.new) (fault_line (codes "value") f)) }
    ensures over_limit { result ≡ Status.OverLimit → (o : CommandOptions) × (reading (map string_bytes words.now) ≡ Some o) × IsJsonMode o
        × Read (S.left source.old) (S.left source.new) (λ bytes. HoldsOverLimitBy o.chain o.call bytes) }
    ensures write_fault { result ≡ Status.WriteFault → Rose (K.faults out.old) (K.faults out.new) }
    ensures done { result ≡ Status.Done → (o : CommandOptions) × (reading (map string_bytes words.now) ≡ Some o)
        × Sends o (S.left source.old) (S.left source.new) (λ text. Appends (K.written out.old) (K.written out.new) text) }

    // Which calls failed, and what was taken: a read failed at a read fault alone, and a write to `out` at a write fault alone;
    // where the words are no command or a plan is generated, nothing was taken, and never more than one byte past the limit.
    ensures no_read_fault { result ≢ Status.ReadFault → S.faults source.new ≡ S.faults source.old }
    ensures no_write_fault { result ≢ Status.WriteFault → K.faults out.new ≡ K.faults out.old }
    ensures untouched { result ≡ Status.Usage → source.new ≡ source.old }
    ensures unread { GeneratesPlan (map string_bytes words.now) → (source.new ≡ source.old) × IsEndUnread result }
    ensures most { TakesUpTo (S.left source.old) (S.left source.new) (limit + 1) }

    // The other way round: of the words, and where the source is read, it tells its bytes and no read failed, of the bytes.
    ensures exactly_usage { reading (map string_bytes words.now) ≡ None → IsOrMemory Status.Usage result }
    ensures exactly_too_long { IsUndisturbedPlan (map string_bytes words.now) (S.faults source.old) (S.faults source.new)
        → IfSome (S.left source.old) (λ bytes. IsTooLong bytes → IsOrMemory Status.TooLong result) }
    ensures exactly_not_json { IsUndisturbedPlan (map string_bytes words.now) (S.faults source.old) (S.faults source.new)
        → IfSome (S.left source.old) (λ bytes. HoldsNoJson bytes → IsOrMemory Status.NotJson result) }
    ensures exactly_bad_plan { IsUndisturbedPlan (map string_bytes words.now) (S.faults source.old) (S.faults source.new)
        → IfSome (S.left source.old) (λ bytes. ((f : PlanFault) × HoldsBadPlan bytes f) → IsOrMemory Status.BadPlan result) }
    ensures exactly_refused { IsUndisturbedPlan (map string_bytes words.now) (S.faults source.old) (S.faults source.new)
        → IfSome (S.left source.old) (λ bytes. ((f : Fault) × (place : Place) × HoldsRefusal bytes f place) → IsOrMemory Status.Refused result) }
    ensures complete { IsUndisturbedPlan (map string_bytes words.now) (S.faults source.old) (S.faults source.new)
        → (Rose (K.faults out.old) (K.faults out.new) → ⊥)
        → IfSome (S.left source.old) (λ bytes. HoldsFaultless bytes → IsOrMemory Status.Done result) }
    ensures exactly_not_hex { IsUndisturbedCheck (map string_bytes words.now) (S.faults source.old) (S.faults source.new)
        → IfSome (S.left source.old) (λ input. HoldsNoHex input → IsOrMemory Status.NotHex result) }
    ensures exactly_rejected { IsUndisturbedCheck (map string_bytes words.now) (S.faults source.old) (S.faults source.new)
        → IfSome (S.left source.old) (λ input. ((e : CheckError) × HoldsRejected input e) → IsOrMemory Status.Rejected result) }
    ensures exactly_long_check { IsUndisturbedCheck (map string_bytes words.now) (S.faults source.old) (S.faults source.new)
        → IfSome (S.left source.old) (λ input. IsTooLong input → IsOrMemory Status.TooLong result) }
    ensures complete_check { IsUndisturbedCheck (map string_bytes words.now) (S.faults source.old) (S.faults source.new)
        → (Rose (K.faults out.old) (K.faults out.new) → ⊥)
        → IfSome (S.left source.old) (λ input. ((m : WasmModule) × HoldsAccepted input m) → IsOrMemory Status.Done result) }
    ensures exactly_call { (name : List ℕ) → IsUndisturbedCall (map string_bytes words.now) name (S.faults source.old) (S.faults source.new)
        → IfSome (S.left source.old) (λ bytes. EndsAsCall name bytes result) }
    ensures complete_call { (name : List ℕ) → IsUndisturbedCall (map string_bytes words.now) name (S.faults source.old) (S.faults source.new)
        → (Rose (K.faults out.old) (K.faults out.new) → ⊥)
        → IfSome (S.left source.old) (λ bytes. HasInput call_input bytes (HasCall name) → IsOrMemory Status.Done result) }
    ensures exactly_chain { IsUndisturbedChain (map string_bytes words.now) (S.faults source.old) (S.faults source.new)
        → IfSome (S.left source.old) (λ bytes. EndsAsChain bytes result) }
    ensures complete_chain { IsUndisturbedChain (map string_bytes words.now) (S.faults source.old) (S.faults source.new)
        → (Rose (K.faults out.old) (K.faults out.new) → ⊥)
        → IfSome (S.left source.old) (λ bytes. HasInput chain_input bytes HasChain → IsOrMemory Status.Done result) }
    ensures complete_generated { GeneratesPlan (map string_bytes words.now) → (Rose (K.faults out.old) (K.faults out.new) → ⊥) → IsOrMemory Status.Done result }

    // What was written.
    ensures part { result ≡ Status.WriteFault → (o : CommandOptions) × (reading (map string_bytes words.now) ≡ Some o)
        × Sends o (S.left source.old) (S.left source.new) (λ text. AppendsFront (K.written out.old) (K.written out.new) text) }
    ensures kept { result ≢ Status.Done → result ≢ Status.WriteFault → Keeps (K.written out.old) (K.written out.new) }
    ensures told { result ≢ Status.BadPlan → result ≢ Status.Refused → result ≢ Status.Rejected → result ≢ Status.BadValue
        → TellsLine (E.written err.old) (E.written err.new) (E.faults err.old) (E.faults err.new) (line_of result) }
{
    accepted_bytes_have_no_cause();
    let ending = ending_of(alloc, words, source, out);
    let _ = write_text(err, ending.line().as_bytes());
    ending.status
}
