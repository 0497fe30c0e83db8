//! The host: how it answers each outside call of an adapter.

ghost use Rattle.std.specs.Prelude.{◌≡◌, ◌++◌, ◌∷◌, [], ℕ, List, IfOk, IfSome, Some, None, true, false};
ghost use Rattle.fact_host.specs.Hosts.{event_by};
ghost use Rattle.fact_types.specs.Functions.{HaveShapes};
ghost use Rattle.fact_types.specs.Shapes.{Shape};
ghost use Rattle.fact_machine.specs.declared.types.Answer.{Answer as an_answer};
ghost use Rattle.fact_lowering.specs.Lowered.{AreAllLive};
ghost use Rattle.fact_host.specs.Lawful.{GoesOnBy, HostStays, IsHosting, IsLawfulHost, IsSameHost, IsSoundCall, RoleAt, WasAsked, told_by};
ghost use Rattle.fact_host.specs.Rules.{params_of};

use crate::answers::{answered, memory_of};
use crate::callee::{Callee, HostError};
use crate::calling::HostCall;
use crate::known::Known;
use crate::results::{answer_of, refusal};
use crate::roles::Role;
use fact_abi::Value;
use fact_interpreter::Outside;
use fact_lowering::{Lowering, lift_tuple};
use fact_machine::{Answer, CoreValue, Event, MachineState};
use fact_types::{ComponentTypes, MAX_FLAT_PARAMS};
use fact_wasm::{OutOfMemory, Seq};
use std::alloc::{AllocError, Global};

/// What a host knows of a call under way, and what it keeps of it.
#[derive(Drop)]
pub struct Kept {
    /// What each imported function is.
    pub roles: Seq<Role>,
    pub known: Known,
    /// What the callee was given.
    pub params: Option<Seq<Value>>,
    /// The error that ends the call.
    pub error: Option<HostError>,
    /// The calls that were answered.
    pub events: Seq<Event>,
}

/// The host of a call under way.
#[derive(Drop)]
pub struct Host<'a, C> {
    pub alloc: Global,
    pub types: &'a ComponentTypes,
    pub call: &'a HostCall,
    pub callee: &'a mut C,
    pub kept: &'a mut Kept,
}

/// What an imported function is, where there is one of this number.
fn role_at(roles: &Seq<Role>, func: u32) -> Option<Role>
    ensures { IfSome result (λ role. RoleAt roles.now func role) }
{
    match roles.get(func as usize) {
        Some(role) => Some(*role),
        None => None,
    }
}

impl<C: Callee> Host<'_, C> {
    /// What the callee is given, where its parameters lift.
    fn params_of(
        &self,
        args: &[CoreValue],
        state: &MachineState,
    ) -> Result<Option<Seq<Value>>, OutOfMemory>
        requires { AreAllLive self.now.types.now self.now.call.now.lift.params }
        ensures { IfOk result (λ o. (func : ℕ) (answer : an_answer) (ss : List Shape) → HaveShapes self.now.types.now self.now.call.now.lift.params ss → o ≡ params_of self.now.call.now ss (event_by func args.now state.now answer)) }
    {
        let side = &self.call.lift;
        let from = Lowering {
            alloc: self.alloc,
            types: self.types,
            side: side.abi,
        };
        let bytes = memory_of(state, side.memory);
        lift_tuple(&from, side.params.as_slice(), bytes, args, MAX_FLAT_PARAMS)
    }

    /// Asks the callee, which was not asked yet, and stores what it answers.
    fn ask_callee(
        &mut self,
        params: Seq<Value>,
        state: &MachineState,
    ) -> Result<Answer, OutOfMemory>
        requires sound { IsSoundCall self.old.types.now self.old.call.now }
        requires no_error { self.old.kept.now.error ≡ None }
        requires ready { C.ready self.old.callee.now }
        ensures ready { C.ready self.new.callee.now }
        ensures same { IsSameHost self.old self.new }
        ensures events { self.new.kept.now.events ≡ self.old.kept.now.events }
        ensures callee { (first : C) → C.stays first self.old.callee.now → C.stays first self.new.callee.now }
        ensures asked { IfOk result (λ answer. (self.new.kept.now.params ≡ Some params) × WasAsked (told_by C.last C.answered C.given) params state.now answer self.old self.new) }
    {
        let answered = self.callee.called(params.as_slice());
        self.kept.params = Some(params);
        let values = match answered {
            Ok(values) => values,
            Err(HostError::OutOfMemory) => return Err(AllocError),
            Err(error) => {
                self.kept.error = Some(error);
                return Ok(Answer::Traps);
            }
        };
        let values = values.as_slice();
        if let Some(error) = refusal(self.alloc, self.types, self.call, values)? {
            self.kept.error = Some(error);
            return Ok(Answer::Traps);
        }
        answer_of(
            self.alloc,
            self.types,
            self.call,
            &mut self.kept.known,
            values,
            state,
        )
    }

    /// Whether the callee is not asked any more.
    fn is_over(&self) -> bool
        ensures yes { result ≡ true → self.now.kept.now.error ≡ None → self.now.kept.now.known.returned ≡ true }
        ensures no { result ≡ false → (self.now.kept.now.error ≡ None) × (self.now.kept.now.known.returned ≡ false) }
    {
        self.kept.known.returned || self.kept.error.is_some()
    }

    /// A call of the callee.
    fn call_callee(
        &mut self,
        args: &[CoreValue],
        state: &MachineState,
    ) -> Result<Answer, OutOfMemory>
        requires hosting { IsHosting self.old.types.now self.old.call.now self.old.kept.now.roles }
        requires ready { C.ready self.old.callee.now }
        ensures ready { C.ready self.new.callee.now }
        ensures same { IsSameHost self.old self.new }
        ensures events { self.new.kept.now.events ≡ self.old.kept.now.events }
        ensures callee { (first : C) → C.stays first self.old.callee.now → C.stays first self.new.callee.now }
        ensures goes { IfOk result (λ answer. GoesOnBy (told_by C.last C.answered C.given) (event_by self.old.call.now.callee args.now state.now answer) self.old self.new) }
    {
        if self.is_over() {
            return Ok(Answer::Traps);
        }
        let lifted = self.params_of(args, state)?;
        self.kept.known.returned = true;
        self.kept.known.live = Seq::new(self.alloc);
        match lifted {
            Some(params) => self.ask_callee(params, state),
            None => Ok(Answer::Traps),
        }
    }

    /// The answer of a call, which is not yet kept.
    fn decide(
        &mut self,
        func: u32,
        args: &[CoreValue],
        state: &MachineState,
    ) -> Result<Answer, OutOfMemory>
        requires hosting { IsHosting self.old.types.now self.old.call.now self.old.kept.now.roles }
        requires ready { C.ready self.old.callee.now }
        ensures ready { C.ready self.new.callee.now }
        ensures same { IsSameHost self.old self.new }
        ensures events { self.new.kept.now.events ≡ self.old.kept.now.events }
        ensures callee { (first : C) → C.stays first self.old.callee.now → C.stays first self.new.callee.now }
        ensures goes { IfOk result (λ answer. GoesOnBy (told_by C.last C.answered C.given) (event_by func args.now state.now answer) self.old self.new) }
    {
        let Some(role) = role_at(&self.kept.roles, func) else {
            // A run calls imported functions alone.
            return Err(AllocError);
        };
        match role {
            Role::Callee => self.call_callee(args, state),
            _ => answered(
                self.alloc,
                &mut self.kept.known,
                self.call,
                role,
                args,
                state,
            ),
        }
    }

    /// Answers a call, and keeps it.
    fn keep(
        &mut self,
        func: u32,
        args: &[CoreValue],
        state: &MachineState,
    ) -> Result<Answer, OutOfMemory>
        requires hosting { IsHosting self.old.types.now self.old.call.now self.old.kept.now.roles }
        requires ready { C.ready self.old.callee.now }
        ensures ready { C.ready self.new.callee.now }
        ensures same { IsSameHost self.old self.new }
        ensures callee { (first : C) → C.stays first self.old.callee.now → C.stays first self.new.callee.now }
        ensures lawful { IfOk result (λ answer. (begun : List ℕ) → IsLawfulHost (told_by C.last C.answered C.given) begun self.old → IsLawfulHost (told_by C.last C.answered C.given) begun self.new) }
        ensures events { IfOk result (λ answer. self.new.kept.now.events ≡ self.old.kept.now.events ++ event_by func args.now state.now answer ∷ []) }
    {
        let answer = self.decide(func, args, state)?;
        self.kept.events.push(Event {
            func,
            args: copied(self.alloc, args)?,
            before: state.try_clone()?,
            answer: answer.try_clone()?,
        })?;
        Ok(answer)
    }
}

/// Equal core values.
fn copied(alloc: Global, values: &[CoreValue]) -> Result<Seq<CoreValue>, OutOfMemory>
    ensures { IfOk result (λ copies. copies ≡ values.now) }
{
    let copies = Vec::from_slice(alloc, values)?;
    Ok(Seq::from_vec(copies))
}

impl<C: Callee> Outside for Host<'_, C> {
    ghost events = { λ h. h.kept.now.events };

    ghost lawful = { λ h. IsHosting h.types.now h.call.now h.kept.now.roles × C.ready h.callee.now };

    ghost stays = { λ first last. HostStays (told_by C.last C.answered C.given) C.stays first last };

    fn answer(
        &mut self,
        func: u32,
        args: &[CoreValue],
        state: &MachineState,
    ) -> Result<Answer, OutOfMemory> {
        match self.keep(func, args, state) {
            Ok(answer) => Ok(answer),
            Err(error) => {
                self.kept.error = Some(HostError::OutOfMemory);
                Err(error)
            }
        }
    }
}
