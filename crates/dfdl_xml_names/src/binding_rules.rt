// Which prefixes may be declared as which namespaces.
ghost use Rattle.std.specs.Prelude.{◌≡◌, ◌==◌, chars, length};
ghost use Rattle.std.specs.Str.{bytes_eq};
ghost use Rattle.dfdl_markup.specs.Values.{declares, may_bind as may_be_bound};
ghost use Rattle.dfdl_markup.specs.Values.{xml_namespace, xmlns_namespace};
ghost use Rattle.dfdl_markup.specs.Machine.{fixed_value, may_close as may_be_closed};
ghost use Rattle.dfdl_xml_names.specs.Shown.{name_of};

use crate::name::Name;

/// A prefix that is neither `xml` nor `xmlns` may stand for this namespace.
pub fn may_bind(prefix: &str, namespace: &str) -> bool
    ensures { result ≡ may_be_bound (chars prefix.now) (chars namespace.now) }
{
    if has_none(namespace) {
        has_none(prefix)
    } else {
        !is_xml_namespace(namespace) && !is_xmlns_namespace(namespace)
    }
}

/// An attribute of this name may have this value, as far as it declares a prefix.
pub fn may_close(name: &Name, value: &str) -> bool
    ensures { result ≡ may_be_closed (declares (name_of name.now)) (fixed_value (name_of name.now))
        (chars value.now) }
{
    match name.declares() {
        None => true,
        Some(prefix) => match name.fixed_value() {
            Some(fixed) => same_text(value, fixed),
            None => may_bind(prefix, value),
        },
    }
}

// The text has no character.
fn has_none(text: &str) -> bool
    ensures { result ≡ (length (chars text.now) == 0) }
{
    text.is_empty()
}

// The texts are alike.
pub(crate) fn same_text(a: &str, b: &str) -> bool
    ensures { result ≡ bytes_eq (chars a.now) (chars b.now) }
{
    a == b
}

fn is_xml_namespace(namespace: &str) -> bool
    ensures { result ≡ bytes_eq (chars namespace.now) xml_namespace }
{
    same_text(namespace, crate::name::xml_namespace())
}

fn is_xmlns_namespace(namespace: &str) -> bool
    ensures { result ≡ bytes_eq (chars namespace.now) xmlns_namespace }
{
    same_text(namespace, crate::name::xmlns_namespace())
}
