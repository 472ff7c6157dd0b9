// Names, and names with a prefix ('Namespaces in XML 1.0').
ghost use Rattle.std.specs.Prelude.{◌≡◌, chars};
ghost use Rattle.std.specs.List.{list_all};
ghost use Rattle.dfdl_xml_chars.specs.Characters.{is_name_char};
ghost use Rattle.dfdl_constructs.specs.Values.{at_colon, begins_name, is_ncname, is_qname, local_in, prefix_in};
ghost use Rattle.dfdl_constructs.specs.Shown.{pair_if};

use dfdl_xml_chars::{is_name_char, is_name_start};

/// The parts of a qualified name.
#[derive(Debug, Clone, Copy, PartialEq, Eq)]
pub struct Qualified<'t> {
    /// The prefix, empty where there is none.
    pub prefix: &'t str,
    pub local: &'t str,
}

// The text before and behind the first colon.
fn at_colon(text: &str) -> Option<Qualified>
    ensures { pair_if result ≡ at_colon text.now }
{
    match text.split_once(':') {
        Some((prefix, local)) => Some(Qualified { prefix, local }),
        None => None,
    }
}

impl<'t> Qualified<'t> {
    /// The parts of a text, divided at its first colon.
    pub fn of(text: &'t str) -> Qualified<'t>
        ensures prefix { result.prefix.now ≡ prefix_in text.now }
        ensures local { result.local.now ≡ local_in text.now }
    {
        match at_colon(text) {
            Some(name) => name,
            None => Qualified {
                prefix: "",
                local: text,
            },
        }
    }
}

// A name may begin with the first of the characters, if there is one.
fn begins_name(text: &str) -> bool
    ensures { result ≡ begins_name (chars text.now) }
{
    match text.chars().next() {
        Some(first) => is_name_start(first),
        None => false,
    }
}

// A name may be made of the characters.
fn are_name_chars(text: &str) -> bool
    ensures { result ≡ list_all is_name_char (chars text.now) }
{
    for c in text.chars() {
        if !is_name_char(c) {
            return false;
        }
    }
    true
}

/// Whether a text is a name without a colon.
pub fn is_ncname(text: &str) -> bool
    ensures { result ≡ is_ncname text.now }
{
    begins_name(text) && are_name_chars(text)
}

/// Whether a text is such a name, or two of them with a colon between.
pub fn is_qname(text: &str) -> bool
    ensures { result ≡ is_qname text.now }
{
    match at_colon(text) {
        Some(name) => is_ncname(name.prefix) && is_ncname(name.local),
        None => is_ncname(text),
    }
}
