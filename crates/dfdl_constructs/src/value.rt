// The forms of the values of attributes.
ghost use Rattle.std.specs.Prelude.{◌≡◌};
ghost use Rattle.dfdl_constructs.specs.Values.{is_boolean, is_value};

use crate::digits::{is_number, is_one};
use crate::qualified::{is_ncname, is_qname};

// What the values of an attribute can be.
#[derive(Debug, Clone, Copy, PartialEq, Eq)]
pub(crate) enum ValueForm {
    NcName,
    QName,
    Digits,
    DigitsOrUnbounded,
    One,
    Boolean,
}

// A truth value of XML Schema's.
fn is_boolean(text: &str) -> bool
    ensures { result ≡ is_boolean text.now }
{
    text == "true" || text == "false" || text == "1" || text == "0"
}

impl ValueForm {
    // A value of this form.
    pub(crate) fn allows(self, text: &str) -> bool
        ensures { result ≡ is_value self text.now }
    {
        match self {
            ValueForm::NcName => is_ncname(text),
            ValueForm::QName => is_qname(text),
            ValueForm::Digits => is_number(text),
            ValueForm::DigitsOrUnbounded => is_number(text) || text == "unbounded",
            ValueForm::One => is_one(text),
            ValueForm::Boolean => is_boolean(text),
        }
    }
}
