//! The mode that checks a module (`--check`): what the digits of an input come to.

ghost use Rattle.std.specs.Prelude.{◌≡◌, ◌≢◌, ◌≤◌, ◌+◌, length, string_bytes, IfOk, MatchResult};
ghost use Rattle.fact_io.specs.Faults.{Rose};
ghost use Rattle.fact_io.specs.Transfers.{TakesUpTo};
ghost use Rattle.fact_plan.specs.Inputs.{limit};
ghost use Rattle.fact_check.specs.declared.error.CheckError.TheVariants as CheckError;
ghost use Rattle.fact_run.specs.Replies.{IsCheckReply, IsReplyToBytes, IsReplyToCause, IsReplyToCheck};
ghost use Rattle.fact_run.specs.Check.{HoldsHex, accepted_line, digits_in, rejected_line};

use crate::reply::Reply;
use fact_check::{CheckError, CheckPlace, check};
use fact_io::{InputError, Source, read_all};
use fact_wasm::{OutOfMemory, WasmModule};
use hex::FromHexError;
use std::alloc::Global;

/// All of an input but one newline at its end.
fn digits_in(input: &[u8]) -> &[u8]
    ensures { result.now ≡ digits_in input.now }
{
    let [digits @ .., last] = input else {
        return input;
    };
    if *last == b'\n' { digits } else { input }
}

/// The line that tells why bytes are rejected, with its newline.
fn rejected_line(alloc: Global, cause: CheckError) -> Result<String, OutOfMemory>
    requires { cause ≢ CheckError.OutOfMemory }
    ensures { IfOk result (λ line. string_bytes line ≡ rejected_line cause) }
{
    match cause {
        CheckError::OutOfMemory => unreachable!(),
        CheckError::NotInGrammar => format!(in alloc; "rejected: NotInGrammar\n"),
        CheckError::NotAdapter(n) => format!(in alloc; "rejected: NotAdapter at import {n}\n"),
        CheckError::IllTyped(CheckPlace::Func(n)) => {
            format!(in alloc; "rejected: IllTyped at function {n}\n")
        }
        CheckError::IllTyped(CheckPlace::Export(n)) => {
            format!(in alloc; "rejected: IllTyped at export {n}\n")
        }
    }
}

/// The line of a module that is accepted, with its newline.
fn accepted_line(alloc: Global, module: &WasmModule) -> Result<String, OutOfMemory>
    ensures { IfOk result (λ line. string_bytes line ≡ accepted_line «module».now) }
{
    let functions = module.funcs.len();
    format!(in alloc; "ok {functions}\n")
}

/// What a cause comes to.
fn reply_to_cause(alloc: Global, cause: CheckError) -> Reply
    ensures { IsReplyToCause cause result }
{
    match cause {
        CheckError::OutOfMemory => Reply::OutOfMemory,
        told => match rejected_line(alloc, told) {
            Ok(line) => Reply::Rejected(line),
            Err(_) => Reply::OutOfMemory,
        },
    }
}

/// What bytes come to.
fn reply_to_bytes(alloc: Global, bytes: &[u8]) -> Reply
    ensures { IsReplyToBytes bytes.now result }
{
    let module = match check(alloc, bytes) {
        Ok(module) => module,
        Err(cause) => return reply_to_cause(alloc, cause),
    };
    let line = accepted_line(alloc, &module);
    drop(module);
    match line {
        Ok(line) => Reply::Page(line),
        Err(_) => Reply::OutOfMemory,
    }
}

/// The bytes whose digits an input has, or what it comes to without any.
fn bytes_in(alloc: Global, input: &[u8]) -> Result<Vec<u8>, Reply>
    requires { length input.now ≤ limit }
    ensures { MatchResult result (λ bytes. HoldsHex input.now bytes.items) (λ r. IsReplyToCheck input.now r) }
{
    match hex::decode(alloc, digits_in(input)) {
        Ok(bytes) => Ok(bytes),
        Err(FromHexError::OutOfMemory) => Err(Reply::OutOfMemory),
        Err(_) => Err(Reply::NotHex),
    }
}

/// What an input comes to.
fn reply_to(alloc: Global, input: &[u8]) -> Reply
    requires { length input.now ≤ limit }
    ensures { IsReplyToCheck input.now result }
{
    match bytes_in(alloc, input) {
        Ok(bytes) => reply_to_bytes(alloc, &bytes),
        Err(reply) => reply,
    }
}

/// What all that the source has comes to.
pub fn check_reply<S: Source>(alloc: Global, source: &mut S) -> Reply
    ensures reply { IsCheckReply (S.left source.old) (S.left source.new) (Rose (S.faults source.old) (S.faults source.new)) result }
    ensures most { TakesUpTo (S.left source.old) (S.left source.new) (limit + 1) }
    ensures no_fault { result ≢ Reply.ReadFault → S.faults source.new ≡ S.faults source.old }
{
    match read_all(alloc, source) {
        Ok(bytes) => reply_to(alloc, &bytes),
        Err(InputError::Fault) => Reply::ReadFault,
        Err(InputError::TooLong) => Reply::TooLong,
        Err(InputError::OutOfMemory) => Reply::OutOfMemory,
    }
}
