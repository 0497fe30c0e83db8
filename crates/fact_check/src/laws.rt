//! Laws of the check.

ghost use Rattle.fact_check.specs.Accepted.{AcceptedHasNoCause};
ghost use Rattle.fact_check.specs.Soundness.{RunsSeeTyped, WellTypedIsNeverStuck};

use fact_binary::bytes_spell_one_module;

/// What well typed modules do. The call does nothing: its contract is the law.
pub fn laws_of_checked()
    ensures { WellTypedIsNeverStuck }
{}

/// What the outside sees of runs is typed. The call does nothing: its contract is the law.
pub fn laws_of_seen()
    ensures { RunsSeeTyped }
{}

/// No bytes are accepted and have a cause. The call does nothing: its contract is the law.
pub fn accepted_bytes_have_no_cause()
    ensures { AcceptedHasNoCause }
{
    bytes_spell_one_module();
}
