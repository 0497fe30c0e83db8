//! The counters of sources and sinks in memory: how many calls there were, by which those of listed numbers fail, and how many of them failed.

ghost use Rattle.std.specs.Prelude.{◌≡◌, ◌≤◌, ◌+◌, ◌↔◌, Contains, IsTrue};
ghost use Rattle.fact_io.specs.Faults.{Rose, next_count};

/// Counts a call, and says whether its number is a listed one. A call past the last number of 64 bits has no number.
pub fn count_call(calls: &mut u64, failing: &[u64]) -> bool
    ensures listed { IsTrue result ↔ Contains failing.now (calls.old + 1) }
    ensures counted { calls.new ≡ next_count calls.old }
{
    match calls.checked_add(1) {
        Some(call) => {
            *calls = call;
            failing.contains(&call)
        }
        None => false,
    }
}

/// Counts a fault, up to the last value of a count.
pub fn count_fault(faults: &mut u64)
    ensures counted { faults.new ≡ next_count faults.old }
    ensures rose { Rose faults.old faults.new }
    ensures never_falls { faults.old ≤ faults.new }
{
    *faults = faults.saturating_add(1);
}
