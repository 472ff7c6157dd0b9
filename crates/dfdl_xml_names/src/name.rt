// Names and attributes as they are written.
ghost use Rattle.std.specs.Prelude.{◌≡◌, ◌++◌, ◌∷◌, ◌^◌, ◌-◌, [], IfOk, chars, false, length, min, string_bytes, true};
ghost use Rattle.std.specs.Str.{bytes_eq};
ghost use Rattle.dfdl_markup.specs.Grammar.{name_characters};
ghost use Rattle.dfdl_markup.specs.Values.{declares, fixed_namespace, same_name, xml_prefix, xmlns_prefix, xml_namespace, xmlns_namespace};
ghost use Rattle.dfdl_markup.specs.Machine.{fixed_value};
ghost use Rattle.dfdl_markup.specs.Trees.{prefix_of, local_part};
ghost use Rattle.dfdl_xml_names.specs.Shown.{name_of, text_of, lent_text, written_bytes};

use crate::binding_rules::same_text;
use std::alloc::AllocError;

/// A name of one part, or of two with a `:` between.
#[derive(Debug, Drop)]
pub enum Name {
    Plain(String),
    Prefixed { prefix: String, part: String },
}

/// An attribute: its name as it is written, and its value.
#[derive(Debug, Drop)]
pub struct Attribute {
    pub name: Name,
    pub value: String,
}

impl Name {
    /// The prefix, or the empty text.
    #[tactic(auto, using(crate::proofs::Texts::no_characters))]
    pub fn prefix(&self) -> &str
        ensures { chars result.now ≡ prefix_of (name_of self.now) }
    {
        match self {
            Name::Plain(_) => "",
            Name::Prefixed { prefix, .. } => prefix.as_str(),
        }
    }

    /// The part behind the prefix.
    pub fn local(&self) -> &str
        ensures { chars result.now ≡ local_part (name_of self.now) }
    {
        match self {
            Name::Plain(part) | Name::Prefixed { part, .. } => part.as_str(),
        }
    }

    /// The whole name.
    pub fn text(&self) -> Result<String, AllocError>
        ensures { IfOk result (λ text. text_of text ≡ name_characters (name_of self.now)) }
    {
        match self {
            Name::Plain(part) => part.clone(),
            Name::Prefixed { prefix, part } => joined(prefix, part),
        }
    }

    /// The names are written alike.
    pub(crate) fn is_written_as(&self, other: &Name) -> Result<bool, AllocError>
        ensures { IfOk result (λ alike. alike ≡ same_name (name_of self.now) (name_of other.now)) }
    {
        if let Name::Plain(part) = self {
            if let Name::Plain(second) = other {
                return Ok(same_text(part.as_str(), second.as_str()));
            }
        }
        if self.differs(other) {
            return Ok(false);
        }
        Ok(same_text(self.text()?.as_str(), other.text()?.as_str()))
    }

    /// The names surely are not written alike, by their lengths.
    fn differs(&self, other: &Name) -> bool
        ensures { result ≡ true → same_name (name_of self.now) (name_of other.now) ≡ false }
    {
        self.size() != other.size()
    }

    /// How many bytes the whole name has, as far as a `usize` counts.
    fn size(&self) -> usize
        ensures { result ≡ min (length (written_bytes self.now)) (2 ^ 64 - 1) }
    {
        match self {
            Name::Plain(part) => part.len(),
            Name::Prefixed { prefix, part } => size_of(prefix, part),
        }
    }

    /// A copy.
    pub fn copy(&self) -> Result<Name, AllocError>
        ensures { IfOk result (λ name. name_of name ≡ name_of self.now) }
    {
        match self {
            Name::Plain(part) => Ok(Name::Plain(part.clone()?)),
            Name::Prefixed { prefix, part } => Ok(Name::Prefixed {
                prefix: prefix.clone()?,
                part: part.clone()?,
            }),
        }
    }

    /// The prefix that an attribute of this name declares, the empty one for the default namespace.
    #[tactic(auto, using(crate::proofs::Texts::no_characters))]
    pub fn declares(&self) -> Option<&str>
        ensures { lent_text result ≡ declares (name_of self.now) }
    {
        match self {
            Name::Plain(part) => {
                if is_xmlns(part.as_str()) {
                    Some("")
                } else {
                    None
                }
            }
            Name::Prefixed { prefix, part } => {
                if is_xmlns(prefix.as_str()) {
                    Some(part.as_str())
                } else {
                    None
                }
            }
        }
    }

    /// The one value that an attribute of this name may have, where it declares `xml` or `xmlns`.
    pub fn fixed_value(&self) -> Option<&'static str>
        ensures { lent_text result ≡ fixed_value (name_of self.now) }
    {
        match self.declares() {
            Some(prefix) => fixed_namespace(prefix),
            None => None,
        }
    }
}

// How many bytes the two have with a `:` between.
fn size_of(prefix: &String, part: &String) -> usize
    ensures { result ≡ min (length ((string_bytes prefix.now ++ 58 ∷ []) ++ string_bytes part.now)) (2 ^ 64 - 1) }
{
    prefix.len().saturating_add(1).saturating_add(part.len())
}

// The two with a `:` between.
fn joined(prefix: &String, part: &String) -> Result<String, AllocError>
    ensures { IfOk result (λ text. text_of text ≡ text_of prefix.now ++ 58 ∷ text_of part.now) }
{
    let size = size_of(prefix, part);
    let mut text = String::with_capacity(*prefix.allocator(), size)?;
    text.push_str(prefix)?;
    text.push(':')?;
    text.push_str(part)?;
    Ok(text)
}

/// The value that a declaration of this prefix must have, where it is `xml` or `xmlns`.
pub fn fixed_namespace(prefix: &str) -> Option<&'static str>
    ensures { lent_text result ≡ fixed_namespace (chars prefix.now) }
{
    if is_xml(prefix) {
        Some(xml_namespace())
    } else if is_xmlns(prefix) {
        Some(xmlns_namespace())
    } else {
        None
    }
}

fn is_xml(prefix: &str) -> bool
    ensures { result ≡ bytes_eq (chars prefix.now) xml_prefix }
{
    prefix == "xml"
}

pub(crate) fn xmlns() -> &'static str
    ensures { chars result.now ≡ xmlns_prefix }
{
    "xmlns"
}

pub(crate) fn is_xmlns(prefix: &str) -> bool
    ensures { result ≡ bytes_eq (chars prefix.now) xmlns_prefix }
{
    prefix == "xmlns"
}

pub(crate) fn xml_namespace() -> &'static str
    ensures { chars result.now ≡ xml_namespace }
{
    "http://www.w3.org/XML/1998/namespace"
}

pub(crate) fn xmlns_namespace() -> &'static str
    ensures { chars result.now ≡ xmlns_namespace }
{
    "http://www.w3.org/2000/xmlns/"
}
