//! Laws of chains of two adapters.

ghost use Rattle.fact_chain_laws.specs.Chains.{ChainsCarry, ChainsEnd};

use fact_call_laws::laws_of_calls;

/// What holds of chains of two adapters on a host, whose module was fused without debug checks: where the second call was made both calls returned, and
/// arguments and results were carried as if there were one adapter from the first caller to the last callee; and where it was not, or the chain has an
/// error that is no want of memory, arguments or results do not fit on one of their ways. The call does nothing: its contract is the laws.
pub fn laws_of_chains()
    ensures carry { ChainsCarry }
    ensures end { ChainsEnd }
{
    laws_of_calls();
}
