// The open elements.
ghost use Rattle.std.specs.Prelude.{◌≡◌, ◌∷◌, [], ◌==◌, length, drop, OnOk, chars};
ghost use Rattle.dfdl_markup.specs.Values.{found};
ghost use Rattle.dfdl_markup.specs.Machine.{frame_of, scope_of, wanted};
ghost use Rattle.dfdl_xml_names.specs.Shown.{lent_text};
ghost use Rattle.dfdl_xml_names.specs.Opened.{frames_on};

use crate::element::Element;
use crate::name::fixed_namespace;
use crate::tag::StartTag;
use std::alloc::{AllocError, Global};
use std::marker::Model;

/// The open elements, the innermost last. A contract sees them the innermost first, each with all
/// bindings in scope.
#[derive(Debug, Drop)]
pub struct Frames {
    elements: Vec<Element>,
}

impl Model for Frames {
    ghost use Rattle.std.specs.Prelude.{List, []};
    ghost use Rattle.dfdl_markup.specs.Machine.{Frame};
    ghost use Rattle.dfdl_xml_names.specs.Opened.{frames_on};

    ghost Value = { List Frame };

    ghost view = { λ f. frames_on [] f.elements.items };
}

impl Frames {
    pub fn new(alloc: Global) -> Frames
        ensures { result ≡ [] }
    {
        Frames {
            elements: Vec::new(alloc),
        }
    }

    pub fn is_empty(&self) -> bool
        ensures { result ≡ (length self.now == 0) }
    {
        self.elements.is_empty()
    }

    pub fn depth(&self) -> usize
        ensures { result ≡ length self.now }
    {
        self.elements.len()
    }

    /// The name of the innermost element; the empty text where there is none.
    pub fn wanted(&self) -> &str
        ensures { chars result.now ≡ wanted self.now }
    {
        last_text(self.elements.as_slice())
    }

    /// Opens the element of a tag.
    pub fn enter(&mut self, tag: &StartTag) -> Result<(), AllocError>
        ensures { OnOk result (self.new ≡ frame_of self.old tag.now ∷ self.old) }
    {
        let declared = tag.bindings()?;
        let text = tag.name().text()?;
        self.elements.push(Element {
            name: tag.name().copy()?,
            text,
            declared,
        })?;
        Ok(())
    }

    /// Closes the innermost element.
    pub fn leave(&mut self)
        ensures { self.new ≡ drop 1 self.old }
    {
        self.elements.pop();
    }

    /// The namespace that a prefix, or the empty one, stands for inside of the innermost element; the
    /// empty one where it is undeclared.
    pub fn find(&self, prefix: &str) -> Option<&str>
        ensures { lent_text result ≡ found (scope_of self.now) (chars prefix.now) }
    {
        find_in(self.elements.as_slice(), prefix)
    }
}

// The name of the last element.
fn last_text(elements: &[Element]) -> &str
    ensures { chars result.now ≡ wanted (frames_on [] elements.now) }
{
    if elements.is_empty() {
        return "";
    }
    elements[elements.len() - 1].text.as_str()
}

// What a prefix stands for inside of the last element.
fn find_in<'a>(elements: &'a [Element], prefix: &str) -> Option<&'a str>
    ensures { lent_text result ≡ found (scope_of (frames_on [] elements.now)) (chars prefix.now) }
{
    let mut at = elements.len();
    while at > 0 {
        at -= 1;
        if let Some(namespace) = elements[at].declared.find(prefix) {
            return Some(namespace);
        }
    }
    fixed_namespace(prefix)
}
