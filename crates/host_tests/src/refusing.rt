//! A callee that answers no values.

ghost use Rattle.std.specs.Prelude.{◌≡◌, None};

use fact_abi::Value;
use fact_host::{Callee, HostError};
use fact_wasm::Seq;

/// A callee that answers an error, whatever it is given.
#[derive(Drop)]
pub struct Refusing {
    pub error: HostError,
    /// The number of the error of the last call, 0 before it.
    pub last: u32,
}

impl Refusing {
    /// A callee that answers this error, and was not called yet.
    pub fn new(error: HostError) -> Refusing
        ensures { result.last ≡ 0 }
    {
        Refusing { error, last: 0 }
    }
}

impl Callee for Refusing {
    ghost last = { λ r. r.last };

    ghost answered = { λ r. None };

    ghost given = { λ r. None };

    ghost ready = { λ r. Unit {0} };

    ghost stays = { λ first last. last.error ≡ first.error };

    fn called(&mut self, _params: &[Value]) -> Result<Seq<Value>, HostError> {
        self.last = self.error.number();
        Err(self.error)
    }
}
