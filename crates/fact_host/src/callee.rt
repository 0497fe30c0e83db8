//! What answers the calls of a callee.

ghost use Rattle.std.specs.Prelude.{List, ℕ, ◌≡◌, Some, None, true, false, if◌then◌else◌, IfErr, IfOk};
ghost use Rattle.std.specs.declared.option.Option.{Option};
ghost use Rattle.fact_values.specs.declared.value.Value.{Value as a_value};
ghost use Rattle.fact_host.specs.Callees.{MayKeepGiven, IsSameScript, number_of_error};
ghost use Rattle.fact_host.specs.declared.callee.HostError.TheVariants.{OutOfMemory};

use fact_abi::Value;
use fact_wasm::{OutOfMemory, Seq};
use std::error::Error;
use std::fmt;
use thiserror::Error;

/// Why a call has no outcome.
#[derive(Clone, Copy, PartialEq, Eq, Debug, Drop, Error)]
pub enum HostError {
    #[error("out of memory")]
    OutOfMemory,
    /// The values are not of the types that are asked for.
    #[error("unsuited values")]
    Unsuited,
    /// The values take more room than a host has.
    #[error("over limit")]
    OverLimit,
    /// A call that was to give the results has none.
    #[error("no results")]
    NoResults,
}

impl HostError {
    /// The number of an error, which is never 0: by it a callee tells of its last call.
    pub fn number(self) -> u32
        ensures { result ≡ number_of_error self }
    {
        match self {
            HostError::OutOfMemory => 1,
            HostError::Unsuited => 2,
            HostError::OverLimit => 3,
            HostError::NoResults => 4,
        }
    }
}

impl From<OutOfMemory> for HostError {
    ghost from_gives = { λ _ e. e ≡ OutOfMemory };

    fn from(_error: OutOfMemory) -> HostError {
        HostError::OutOfMemory
    }
}

/// What answers the calls of a callee, by values.
pub trait Callee {
    /// The number of the error that the last call answered, 0 where it answered none.
    ghost last: { Self → ℕ };

    /// The values that the last call answered, where it did.
    ghost answered: { Self → Option (List a_value) };

    /// The values that the last call was given, where they are kept.
    ghost given: { Self → Option (List a_value) };

    /// What has to hold of it before a call, and holds behind it.
    ghost ready: { Self → Type 0 };

    /// What stays of it from one time to a later one, whatever it was asked meanwhile.
    ghost stays: { Self → Self → Type 0 };

    /// The results of a call with these parameters.
    fn called(&mut self, params: &[Value]) -> Result<Seq<Value>, HostError>
        requires { ready self.old }
        ensures ready { ready self.new }
        ensures given { MayKeepGiven (given self.new) params.now }
        ensures answers { IfOk result (λ values. answered self.new ≡ Some values) }
        ensures no_error { IfOk result (λ values. last self.new ≡ 0) }
        ensures no_answer { IfErr result (λ error. answered self.new ≡ None) }
        ensures error { IfErr result (λ error. last self.new ≡ number_of_error error) }
        ensures stays { (first : Self) → stays first self.old → stays first self.new };
}

/// A callee that answers its results, whatever it is given.
#[derive(Drop)]
pub struct Scripted {
    pub results: Seq<Value>,
    /// Whether the last call was answered.
    pub asked: bool,
    /// The number of the error of the last call, 0 where there was none.
    pub last: u32,
}

impl Scripted {
    /// A callee that answers these results, and was not called yet.
    pub fn new(results: Seq<Value>) -> Scripted
        ensures results { result.results ≡ results }
        ensures asked { result.asked ≡ false }
        ensures last { result.last ≡ 0 }
    {
        Scripted {
            results,
            asked: false,
            last: 0,
        }
    }
}

impl Callee for Scripted {
    ghost last = { λ s. s.last };

    ghost answered = { λ s. (if s.asked then Some s.results else None) };

    ghost given = { λ s. None };

    ghost ready = { λ s. Unit {0} };

    ghost stays = { λ first last. IsSameScript first last };

    fn called(&mut self, _params: &[Value]) -> Result<Seq<Value>, HostError> {
        match copied_values(&self.results) {
            Ok(values) => {
                self.asked = true;
                self.last = 0;
                Ok(values)
            }
            Err(_) => {
                self.asked = false;
                self.last = 1;
                Err(HostError::OutOfMemory)
            }
        }
    }
}

/// Equal values.
fn copied_values(values: &Seq<Value>) -> Result<Seq<Value>, OutOfMemory>
    ensures { IfOk result (λ copies. copies ≡ values.now) }
{
    let mut copies = values.empty_like();
    for value in values.as_slice() {
        copies.push(value.try_clone()?)?;
    }
    Ok(copies)
}
