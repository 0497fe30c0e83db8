//! The top calls.

ghost use Rattle.std.specs.Prelude.{◌≡◌, ◌≢◌, ◌≤◌, ◌+◌, ℕ, IfErr, IfOk, List, MatchResult, map, string_bytes};
ghost use Rattle.std.specs.Io.KnownBytes.{Appends, Keeps};
ghost use Rattle.fact_io.specs.Faults.{Rose};
ghost use Rattle.fact_io.specs.Transfers.{AppendsFront, TakesUpTo};
ghost use Rattle.fact_module.specs.Fused.{IsFused};
ghost use Rattle.fact_module.specs.declared.fusion.Fused.{Fused as a_module};
ghost use Rattle.fact_plan.specs.Inputs.{limit};
ghost use Rattle.fact_run.specs.Run.{TellsLine};
ghost use Rattle.fact_explain.specs.Explained.{IsEnd, IsEndUnmade, AreModuleBytes, TellsPlan};
ghost use Rattle.fact_explain.specs.Endings.{IsEndWith, ending_text};
ghost use Rattle.fact_explain.specs.Pages.{IsPage};

use crate::asked::plan_under;
use crate::ending::Ending;
use crate::page::plan_page;
use fact_command::Status;
use fact_io::{Sink, Source, write_text};
use fact_module::{Fused, fuse};
use fact_plan::FusePlan;
use fact_wasm::{OutOfMemory, Seq};
use std::alloc::{AllocError, Global};

/// Writes the page of a plan without faults.
fn end_with<K: Sink>(alloc: Global, plan: FusePlan, out: &mut K) -> Ending
    requires { 1 ≤ plan.tunables.fuel }
    ensures end { IsEndWith (Rose (K.faults out.old) (K.faults out.new)) result }
    ensures done { result.status ≡ Status.Done → (page : List ℕ) × IsPage plan page × Appends (K.written out.old) (K.written out.new) page }
    ensures part { result.status ≡ Status.WriteFault → (page : List ℕ) × IsPage plan page × AppendsFront (K.written out.old) (K.written out.new) page }
    ensures kept { result.status ≢ Status.Done → result.status ≢ Status.WriteFault → Keeps (K.written out.old) (K.written out.new) }
    ensures no_write_fault { result.status ≢ Status.WriteFault → K.faults out.new ≡ K.faults out.old }
{
    let page = plan_page(alloc, &plan);
    drop(plan);
    let Ok(text) = page else {
        return Ending::of(Status::OutOfMemory);
    };
    match write_text(out, text.as_bytes()) {
        Ok(()) => Ending::of(Status::Done),
        Err(_) => Ending::of(Status::WriteFault),
    }
}

/// Explains the plan that the words ask to be read.
fn ending_of<S: Source, K: Sink>(
    alloc: Global,
    words: &[String],
    source: &mut S,
    out: &mut K,
) -> Ending
    ensures end { IsEnd (map string_bytes words.now) (S.left source.old) (S.left source.new) (Rose (S.faults source.old) (S.faults source.new)) (Rose (K.faults out.old) (K.faults out.new))
        result.status (ending_text result) }
    ensures done { result.status ≡ Status.Done → TellsPlan (map string_bytes words.now) (S.left source.old) (S.left source.new) (λ page. Appends (K.written out.old) (K.written out.new) page) }
    ensures part { result.status ≡ Status.WriteFault → TellsPlan (map string_bytes words.now) (S.left source.old) (S.left source.new) (λ page. AppendsFront (K.written out.old) (K.written out.new) page) }
    ensures most { TakesUpTo (S.left source.old) (S.left source.new) (limit + 1) }
    ensures untouched { result.status ≡ Status.Usage → source.new ≡ source.old }
    ensures kept { result.status ≢ Status.Done → result.status ≢ Status.WriteFault → Keeps (K.written out.old) (K.written out.new) }
    ensures no_read_fault { result.status ≢ Status.ReadFault → S.faults source.new ≡ S.faults source.old }
    ensures no_write_fault { result.status ≢ Status.WriteFault → K.faults out.new ≡ K.faults out.old }
{
    match plan_under(alloc, words, source) {
        Ok(plan) => end_with(alloc, plan, out),
        Err(ending) => ending,
    }
}

/// Reads a plan in JSON from the source, to its end, and explains it: of a plan without faults a page is written to `out`, with its adapters, what each
/// side needs, the layout of its types and the imports of its module. Of all else the run ends with the status that `run` ends with, and on `err` stands
/// the line that `run` tells, and behind it where the fault is, what is wanted there and what is there. `words` are those of a command of `run` that reads
/// a plan; of others a line of its own is told. Want of memory may be answered at any point.
pub fn explain<S: Source, K: Sink, E: Sink>(
    alloc: Global,
    words: &[String],
    source: &mut S,
    out: &mut K,
    err: &mut E,
) -> Status
    // Why each end comes, and what is told of it.
    ensures end { (text : List ℕ) × IsEnd (map string_bytes words.now) (S.left source.old) (S.left source.new) (Rose (S.faults source.old) (S.faults source.new))
        (Rose (K.faults out.old) (K.faults out.new)) result text × TellsLine (E.written err.old) (E.written err.new) (E.faults err.old) (E.faults err.new) text }

    // What was written.
    ensures done { result ≡ Status.Done → TellsPlan (map string_bytes words.now) (S.left source.old) (S.left source.new) (λ page. Appends (K.written out.old) (K.written out.new) page) }
    ensures part { result ≡ Status.WriteFault → TellsPlan (map string_bytes words.now) (S.left source.old) (S.left source.new) (λ page. AppendsFront (K.written out.old) (K.written out.new) page) }
    ensures kept { result ≢ Status.Done → result ≢ Status.WriteFault → Keeps (K.written out.old) (K.written out.new) }

    // Which calls failed, and what was taken.
    ensures most { TakesUpTo (S.left source.old) (S.left source.new) (limit + 1) }
    ensures untouched { result ≡ Status.Usage → source.new ≡ source.old }
    ensures no_read_fault { result ≢ Status.ReadFault → S.faults source.new ≡ S.faults source.old }
    ensures no_write_fault { result ≢ Status.WriteFault → K.faults out.new ≡ K.faults out.old }
{
    let ending = ending_of(alloc, words, source, out);
    let _ = write_text(err, ending.text().as_bytes());
    ending.status
}

/// The bytes of the module of a plan without faults.
fn bytes_of(alloc: Global, plan: FusePlan) -> Result<Seq<u8>, OutOfMemory>
    requires { 1 ≤ plan.tunables.fuel }
    ensures { IfOk result (λ bytes. (f : a_module) × IsFused f plan × (bytes ≡ f.bytes)) }
{
    let made = fuse(alloc, &plan);
    drop(plan);
    match made {
        Ok(fused) => {
            let Fused {
                module,
                bytes,
                imports,
            } = fused;
            drop(module);
            drop(imports);
            Ok(bytes)
        }
        Err(_) => Err(AllocError),
    }
}

/// The bytes of the module of the plan that the words ask to be read, or how the run ends without one.
fn made_under<S: Source>(alloc: Global, words: &[String], source: &mut S) -> Result<Seq<u8>, Ending>
    ensures made { IfOk result (λ bytes. AreModuleBytes (map string_bytes words.now) (S.left source.old) (S.left source.new) bytes) }
    ensures end { IfErr result (λ e. IsEndUnmade (map string_bytes words.now) (S.left source.old) (S.left source.new) (Rose (S.faults source.old) (S.faults source.new)) e.status (ending_text e)) }
    ensures most { TakesUpTo (S.left source.old) (S.left source.new) (limit + 1) }
    ensures untouched { IfErr result (λ e. e.status ≡ Status.Usage → source.new ≡ source.old) }
    ensures no_fault { MatchResult result (λ bytes. S.faults source.new ≡ S.faults source.old) (λ e. e.status ≢ Status.ReadFault → S.faults source.new ≡ S.faults source.old) }
{
    match plan_under(alloc, words, source) {
        Ok(plan) => match bytes_of(alloc, plan) {
            Ok(bytes) => Ok(bytes),
            Err(_) => Err(Ending::of(Status::OutOfMemory)),
        },
        Err(ending) => Err(ending),
    }
}

/// Reads a plan in JSON from the source, to its end, and gives the bytes of its module, where it has no fault; else the status that `explain` ends with,
/// and what it tells stands on `err`. `words` are those of a command of `run` that reads a plan. Want of memory may be answered at any point.
pub fn module_bytes<S: Source, E: Sink>(
    alloc: Global,
    words: &[String],
    source: &mut S,
    err: &mut E,
) -> Result<Seq<u8>, Status>
    ensures made { IfOk result (λ bytes. AreModuleBytes (map string_bytes words.now) (S.left source.old) (S.left source.new) bytes) }
    ensures untold { IfOk result (λ bytes. err.new ≡ err.old) }
    ensures end { IfErr result (λ s. (text : List ℕ) × IsEndUnmade (map string_bytes words.now) (S.left source.old) (S.left source.new) (Rose (S.faults source.old) (S.faults source.new))
        s text × TellsLine (E.written err.old) (E.written err.new) (E.faults err.old) (E.faults err.new) text) }
    ensures most { TakesUpTo (S.left source.old) (S.left source.new) (limit + 1) }
    ensures untouched { IfErr result (λ s. s ≡ Status.Usage → source.new ≡ source.old) }
    ensures no_fault { MatchResult result (λ bytes. S.faults source.new ≡ S.faults source.old) (λ s. s ≢ Status.ReadFault → S.faults source.new ≡ S.faults source.old) }
{
    match made_under(alloc, words, source) {
        Ok(bytes) => Ok(bytes),
        Err(ending) => {
            let _ = write_text(err, ending.text().as_bytes());
            Err(ending.status)
        }
    }
}
