//! What a resource of the source is known to be.

ghost use Rattle.std.specs.Prelude.{◌≡◌};
ghost use Rattle.fact_builder.specs.declared.registration.Registration.TheVariants as is;

use fact_entity::{AbstractResourceIndex, ResourceIndex};

/// What a resource of the source is known to be: a resource that can have values, or one that stands for any.
#[derive(Clone, Copy, Drop)]
pub enum Registration {
    Concrete(ResourceIndex),
    Abstract(AbstractResourceIndex),
}

/// What a resource can be registered as.
pub(crate) trait Registrable: Copy {
    ghost use Rattle.fact_builder.specs.declared.registration.Registration.{Registration};

    // the registration
    ghost registration: { Self → Registration };

    /// The registration.
    fn registration(self) -> Registration
        ensures { result ≡ registration self };
}

impl Registrable for ResourceIndex {
    ghost registration = { is.Concrete };

    fn registration(self) -> Registration {
        Registration::Concrete(self)
    }
}

impl Registrable for AbstractResourceIndex {
    ghost registration = { is.Abstract };

    fn registration(self) -> Registration {
        Registration::Abstract(self)
    }
}
