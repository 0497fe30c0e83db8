//! What adapters without faults have.

ghost use Rattle.fact_assembly.specs.Importing.{KnownTellMemories, PassedAreUsedAlike};
ghost use Rattle.fact_assembly.specs.Sound.{FaultlessHavePassed, PassedAreSound, PlanSidesAreValid, SoundAreChecked};
ghost use Rattle.fact_assembly.specs.Writable.{SoundAreWritable};

/// What adapters have that the checks let pass, alone, in a module, and for the code that is written for them. The call does nothing:
/// its contract is the laws.
pub fn laws_of_forms()
    ensures plan_sides_are_valid { PlanSidesAreValid }
    ensures faultless_have_passed { FaultlessHavePassed }
    ensures passed_are_sound { PassedAreSound }
    ensures passed_are_used_alike { PassedAreUsedAlike }
    ensures sound_are_checked { SoundAreChecked }
    ensures known_tell_memories { KnownTellMemories }
    ensures sound_are_writable { SoundAreWritable }
{}
