//! Why a JSON value is no plan.
ghost use Rattle.std.specs.Prelude.{◌≡◌, ◌++◌, [], string_bytes, IfOk};
ghost use Rattle.fact_plan.specs.Fault.{Gives, IsNotMemory, fault_line, told_line, at_step, key_step, place_step, under};
ghost use Rattle.fact_plan.specs.declared.fault.PlanFault.TheVariants as fault;

use fact_wasm::{OutOfMemory, Text};
use std::alloc::{AllocError, Global};

/// Why a JSON value is no plan, with the path to the place of the fault: `plan`, and for each step a dot and the key, or
/// a dot and the place in its list in decimal.
#[derive(Drop)]
pub enum PlanFault {
    /// Memory ran out before the value was read.
    OutOfMemory,
    /// A required key is not there; the path ends with it. Or there is no key where one must be.
    Missing { path: Text },
    /// A key that the object may not have; the path ends with it.
    UnknownKey { path: Text },
    /// A value of another JSON kind, a number that is no `u64`, a list of another length, or too many keys.
    WrongKind { path: Text },
    /// A number above its range, or a text that is none of the words.
    OutOfRange { path: Text },
}

impl From<AllocError> for PlanFault {
    ghost from_gives = { λ _ e. e ≡ fault.OutOfMemory };

    fn from(_: AllocError) -> PlanFault {
        PlanFault::OutOfMemory
    }
}

impl PlanFault {
    /// The fault of a value of another JSON kind, or of a list of another length: its path has no step yet.
    pub fn wrong_kind(alloc: Global) -> PlanFault
        ensures { result ≡ PlanFault.WrongKind [] }
    {
        PlanFault::WrongKind {
            path: no_path(alloc),
        }
    }

    /// The fault of a number above its range, or of a text that is none of the words: its path has no step yet.
    pub fn out_of_range(alloc: Global) -> PlanFault
        ensures { result ≡ PlanFault.OutOfRange [] }
    {
        PlanFault::OutOfRange {
            path: no_path(alloc),
        }
    }

    /// The fault of an object that has no key: its path has no step yet.
    pub(crate) fn no_key(alloc: Global) -> PlanFault
        ensures { result ≡ PlanFault.Missing [] }
    {
        PlanFault::Missing {
            path: no_path(alloc),
        }
    }

    /// The fault of an object without a key that it must have: its path is a dot and the key.
    pub fn missing(alloc: Global, key: &str) -> Result<PlanFault, OutOfMemory>
        ensures { IfOk result (λ fault. fault ≡ PlanFault.Missing (key_step key.now)) }
    {
        let path = Text::from_string(format!(in alloc; ".{key}")?);
        Ok(PlanFault::Missing { path })
    }

    /// The fault of an object with a key that it may not have: its path is a dot and the key.
    pub fn unknown_key(alloc: Global, key: &str) -> Result<PlanFault, OutOfMemory>
        ensures { IfOk result (λ fault. fault ≡ PlanFault.UnknownKey (key_step key.now)) }
    {
        let path = Text::from_string(format!(in alloc; ".{key}")?);
        Ok(PlanFault::UnknownKey { path })
    }

    /// The same fault, with a path that begins with `front`.
    pub fn under(self, alloc: Global, front: &str) -> Result<PlanFault, OutOfMemory>
        ensures { IfOk result (λ fault. fault ≡ under front.now self) }
    {
        Ok(match self {
            PlanFault::OutOfMemory => PlanFault::OutOfMemory,
            PlanFault::Missing { path } => PlanFault::Missing {
                path: path_under(alloc, front, &path)?,
            },
            PlanFault::UnknownKey { path } => PlanFault::UnknownKey {
                path: path_under(alloc, front, &path)?,
            },
            PlanFault::WrongKind { path } => PlanFault::WrongKind {
                path: path_under(alloc, front, &path)?,
            },
            PlanFault::OutOfRange { path } => PlanFault::OutOfRange {
                path: path_under(alloc, front, &path)?,
            },
        })
    }
}

fn no_path(alloc: Global) -> Text
    ensures { result ≡ [] }
{
    Text::from_string(String::new(alloc))
}

fn path_under(alloc: Global, front: &str, path: &Text) -> Result<Text, OutOfMemory>
    ensures { IfOk result (λ longer. longer ≡ front.now ++ path.now) }
{
    let path = path.as_str();
    Ok(Text::from_string(format!(in alloc; "{front}{path}")?))
}

/// What was read in the value of a key, seen from its object: the path to a fault begins with a dot and the key.
pub fn at_key<T>(alloc: Global, key: &str, inner: Result<T, PlanFault>) -> Result<T, PlanFault>
    ensures { Gives (at_step (key_step key.now) inner) result }
{
    match inner {
        Ok(value) => Ok(value),
        Err(fault) => {
            let step = format!(in alloc; ".{key}")?;
            Err(fault.under(alloc, step.as_str())?)
        }
    }
}

/// What was read in the item at a place, counted from 0, seen from its list: the path to a fault begins with a dot and the place in decimal.
pub fn at_place<T>(alloc: Global, place: usize, inner: Result<T, PlanFault>) -> Result<T, PlanFault>
    ensures { Gives (at_step (place_step place) inner) result }
{
    match inner {
        Ok(value) => Ok(value),
        Err(fault) => {
            let step = format!(in alloc; ".{place}")?;
            Err(fault.under(alloc, step.as_str())?)
        }
    }
}

/// The line that tells a fault of `what`, which is `plan` or `value`, with its newline.
pub fn fault_line(alloc: Global, what: &str, fault: &PlanFault) -> Result<String, OutOfMemory>
    requires { IsNotMemory fault.now }
    ensures { IfOk result (λ line. string_bytes line ≡ fault_line what.now fault.now) }
{
    match fault {
        PlanFault::OutOfMemory => unreachable!(),
        PlanFault::Missing { path } => told_line(alloc, what, "Missing", path),
        PlanFault::UnknownKey { path } => told_line(alloc, what, "UnknownKey", path),
        PlanFault::WrongKind { path } => told_line(alloc, what, "WrongKind", path),
        PlanFault::OutOfRange { path } => told_line(alloc, what, "OutOfRange", path),
    }
}

fn told_line(alloc: Global, what: &str, kind: &str, path: &Text) -> Result<String, OutOfMemory>
    ensures { IfOk result (λ line. string_bytes line ≡ told_line what.now kind.now path.now) }
{
    let path = path.as_str();
    format!(in alloc; "bad {what}: {kind} at {path}\n")
}
