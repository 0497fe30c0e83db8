//! Laws of calls of adapters.

ghost use Rattle.fact_call_laws.specs.Carrying.{HostsAsk, HostsCarry};

use fact_check::laws_of_seen;
use fact_host::{laws_of_hosts, laws_of_typed_answers};

/// What holds of the calls of adapters on a host: a module that was fused without debug checks returns, and carries arguments and results, and
/// its callee is always asked. The call does nothing: its contract is the laws.
pub fn laws_of_calls()
    ensures carry { HostsCarry }
    ensures ask { HostsAsk }
{
    laws_of_seen();
    laws_of_hosts();
    laws_of_typed_answers();
}
