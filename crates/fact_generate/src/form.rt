//! The forms of the adapters of a generated plan.

ghost use Rattle.std.specs.Prelude.{◌≡◌};
ghost use Rattle.fact_generate.specs.Forms.{adapter_form};

/// What the function of an adapter takes and gives.
#[derive(Clone, Copy)]
pub enum AdapterForm {
    /// A u32.
    Number,
    /// A char and an s8; it gives a bool.
    Chars,
    /// A record.
    Record,
    /// A string; it gives a string.
    Text,
    /// A list of u16; it gives such a list.
    List,
    /// A variant.
    Variant,
    /// Tuples of a type and a list of it, so many within one another.
    Nest(u32),
    /// 17 parameters; it gives a result of a string or an option.
    Many,
}

/// The form of the adapter of a number.
pub fn adapter_form(k: u32) -> AdapterForm
    ensures { result ≡ adapter_form k }
{
    match k % 8 {
        0 => AdapterForm::Number,
        1 => AdapterForm::Chars,
        2 => AdapterForm::Record,
        3 => AdapterForm::Text,
        4 => AdapterForm::List,
        5 => AdapterForm::Variant,
        6 => AdapterForm::Nest(1 + (k / 8) % 10),
        _ => AdapterForm::Many,
    }
}
