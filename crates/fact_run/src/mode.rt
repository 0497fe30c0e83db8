//! Which mode the words ask for ([`reply_under`]).

ghost use Rattle.std.specs.Prelude.{◌≡◌, ◌≢◌, ◌≤◌, ◌+◌, IfSome, IsSome, false};
ghost use Rattle.fact_plan.specs.Inputs.{limit};
ghost use Rattle.fact_io.specs.Faults.{Rose};
ghost use Rattle.fact_io.specs.Transfers.{TakesUpTo};
ghost use Rattle.fact_command.specs.Command.{HasOneMode};
ghost use Rattle.fact_generate.specs.Generated.{most_generated};
ghost use Rattle.fact_run.specs.Replies.{IsReplyUnder, IsReplyUnread};

use crate::call_mode::call_reply;
use crate::chain_mode::chain_reply;
use crate::check_mode::check_reply;
use crate::generate_mode::generated_counts;
use crate::plan_mode::plan_reply;
use crate::reply::Reply;
use fact_command::CommandOptions;
use fact_io::Source;
use std::alloc::Global;

/// What a run with these options comes to that neither checks bytes nor calls adapters: where a plan is generated nothing is read.
fn reply_uncalled<S: Source>(alloc: Global, source: &mut S, options: &CommandOptions) -> Reply
    requires fuel { 1 ≤ options.now.fuel }
    requires number { IfSome options.now.generate (λ n. n ≤ most_generated) }
    requires unchecked { options.now.check ≡ false }
    requires uncalled { options.now.call ≡ None }
    requires unchained { options.now.chain ≡ false }
    ensures reply { IsReplyUnder options.now (S.left source.old) (S.left source.new) (Rose (S.faults source.old) (S.faults source.new)) result }
    ensures most { TakesUpTo (S.left source.old) (S.left source.new) (limit + 1) }
    ensures no_fault { result ≢ Reply.ReadFault → S.faults source.new ≡ S.faults source.old }
    ensures unread { IsSome options.now.generate → (source.new ≡ source.old) × IsReplyUnread result }
{
    match options.generate {
        Some(n) => match generated_counts(alloc, n, options) {
            Ok(text) => Reply::Page(text),
            Err(_) => Reply::OutOfMemory,
        },
        None => plan_reply(alloc, source, options),
    }
}

/// What a run with these options comes to: where bytes are checked, or adapters are called, something else is read in place of a plan.
pub fn reply_under<S: Source>(alloc: Global, source: &mut S, options: &CommandOptions) -> Reply
    requires fuel { 1 ≤ options.now.fuel }
    requires number { IfSome options.now.generate (λ n. n ≤ most_generated) }
    requires one { HasOneMode options.now }
    ensures reply { IsReplyUnder options.now (S.left source.old) (S.left source.new) (Rose (S.faults source.old) (S.faults source.new)) result }
    ensures most { TakesUpTo (S.left source.old) (S.left source.new) (limit + 1) }
    ensures no_fault { result ≢ Reply.ReadFault → S.faults source.new ≡ S.faults source.old }
    ensures unread { IsSome options.now.generate → (source.new ≡ source.old) × IsReplyUnread result }
{
    if options.check {
        return check_reply(alloc, source);
    }
    if options.chain {
        return chain_reply(alloc, source, options.fuel);
    }
    match &options.call {
        Some(name) => call_reply(alloc, source, name.as_str(), options.fuel),
        None => reply_uncalled(alloc, source, options),
    }
}
