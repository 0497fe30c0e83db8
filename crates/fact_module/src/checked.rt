//! What the check of bytes makes of fused modules.

ghost use Rattle.fact_module.specs.Checked.{FusedAreAccepted};

/// The bytes of the module of each plan are accepted by `check` of `fact_check`. The call does nothing: its contract is the law.
pub fn fused_modules_are_accepted()
    ensures { FusedAreAccepted }
{}
