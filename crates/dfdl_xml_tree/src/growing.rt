// A tree that grows while its document is read.
ghost use Rattle.std.specs.Prelude.{◌≡◌, ◌+◌, ◌<◌, ◌^◌, ◌++◌, ◌∷◌, [], ◌==◌, ◌&&◌, map, length, replicate, OnOk, IfOk, option_map, chars, false};
ghost use Rattle.dfdl_markup.specs.Trees.{line_read};
ghost use Rattle.dfdl_markup.specs.Building as building;
ghost use Rattle.dfdl_markup.specs.Building.{build, Stays, Opens, Closes, Reads, Refers, Enters, Adds};
ghost use Rattle.dfdl_markup.specs.Building.{Leaves, changed, changed_in, with_more_text, with_child};
ghost use Rattle.dfdl_markup.specs.Building.{nothing_built, with_node, first_of};
ghost use Rattle.dfdl_xml_tree.specs.Shown.{node_of, if_any, more_text};
ghost use Rattle.dfdl_xml_tree.specs.Held.{held_of};

use crate::element::Element;
use crate::text::Text;
use crate::tree::Tree;
use dfdl_xml_names::StartTag;
use std::alloc::{AllocError, Global};
use std::collections::VecDeque;
use std::marker::Model;

/// How many `]` are read before a character, which are text or end a CDATA section.
#[derive(Clone, Copy, Debug, PartialEq, Eq, Drop)]
pub enum Held {
    None,
    One,
    Two,
}

/// The elements so far, those of them that are open, and where their document is read.
#[derive(Drop)]
pub struct Growing {
    alloc: Global,
    elements: Vec<Element>,
    ancestors: VecDeque<u32>,
    behind_cr: bool,
    at: u64,
    opened_at: u64,
    ghost few: { length elements.items < 2 ^ 32 },
}

impl Model for Growing {
    ghost use Rattle.std.specs.Prelude.{map};
    ghost use Rattle.dfdl_markup.specs.Building as building;
    ghost use Rattle.dfdl_xml_tree.specs.Shown.{node_of};

    ghost Value = { building.Built };

    ghost view = { λ g. record {
      nodes = map node_of g.elements.items;
      ancestors = g.ancestors.items;
      behind_cr = g.behind_cr;
      at = g.at;
      opened_at = g.opened_at;
    } };
}

// Appends so many `]` and a character to a text.
fn push_more(text: &mut Text, held: Held, more: Option<char>) -> Result<(), AllocError>
    ensures { OnOk result (text.new ≡ text.old ++ more_text (held_of held) more) }
{
    match held {
        Held::None => {}
        Held::One => text.push(']')?,
        Held::Two => {
            text.push(']')?;
            text.push(']')?;
        }
    }
    match more {
        Some(c) => text.push(c),
        None => Ok(()),
    }
}

// Appends so many `]` and a character to the text of an element.
fn append(
    elements: &mut Vec<Element>,
    element: u32,
    held: Held,
    more: Option<char>,
) -> Result<(), AllocError>
    requires { element < length elements.old.items }
    ensures nodes { OnOk result (map node_of elements.new.items
        ≡ changed (with_more_text (more_text (held_of held) more)) element
        (map node_of elements.old.items)) }
    ensures count { length elements.new.items ≡ length elements.old.items }
{
    let found = &mut elements[element as usize];
    push_more(&mut found.text, held, more)?;
    Ok(())
}

// Appends a text to that of an element.
fn append_text(elements: &mut Vec<Element>, element: u32, text: &str) -> Result<(), AllocError>
    requires { element < length elements.old.items }
    ensures nodes { OnOk result (map node_of elements.new.items
        ≡ changed (with_more_text (chars text.now)) element (map node_of elements.old.items)) }
    ensures count { length elements.new.items ≡ length elements.old.items }
{
    let found = &mut elements[element as usize];
    found.text.push_str(text)?;
    Ok(())
}

// Gives an element one more child.
fn adopt(elements: &mut Vec<Element>, element: u32, child: u32) -> Result<(), AllocError>
    requires { element < length elements.old.items }
    ensures nodes { OnOk result (map node_of elements.new.items
        ≡ changed (with_child child) element (map node_of elements.old.items)) }
    ensures count { length elements.new.items ≡ length elements.old.items }
{
    let found = &mut elements[element as usize];
    found.children.push(child)?;
    Ok(())
}

// What a character of text is read as, behind a CR or not: CR LF and CR are LF.
fn line(behind_cr: bool, c: char) -> Option<char>
    ensures { if_any result ≡ line_read behind_cr c }
{
    match c {
        '\n' if behind_cr => None,
        '\r' => Some('\n'),
        _ => Some(c),
    }
}

impl Growing {
    /// Nothing is read.
    #[tactic(auto, unfolding(dfdl_markup::specs::Building::nothing_built))]
    pub fn new(alloc: Global) -> Growing
        ensures { result ≡ nothing_built }
    {
        Growing {
            alloc,
            elements: Vec::new(alloc),
            ancestors: VecDeque::new(alloc),
            behind_cr: false,
            at: 0,
            opened_at: 0,
        }
    }

    /// A character of so many bytes that does nothing to the tree.
    pub fn stays(&mut self, bytes: u64)
        requires { self.old.at + bytes < 2 ^ 64 }
        ensures { self.new ≡ build Stays bytes self.old }
    {
        self.at += bytes;
    }

    /// Markup begins.
    pub fn opens(&mut self, bytes: u64)
        requires { self.old.at + bytes < 2 ^ 64 }
        ensures { self.new ≡ build Opens bytes self.old }
    {
        self.opened_at = self.at;
        self.behind_cr = false;
        self.at += bytes;
    }

    /// A CDATA section ends.
    pub fn closes(&mut self, bytes: u64)
        requires { self.old.at + bytes < 2 ^ 64 }
        ensures { self.new ≡ build Closes bytes self.old }
    {
        self.behind_cr = false;
        self.at += bytes;
    }

    /// An end tag ends.
    pub fn leaves(&mut self, bytes: u64)
        requires { self.old.at + bytes < 2 ^ 64 }
        ensures { self.new ≡ build Leaves bytes self.old }
    {
        let _ = self.ancestors.pop_front();
        self.behind_cr = false;
        self.at += bytes;
    }

    // The number of the innermost open element.
    fn innermost(&self) -> Option<u32>
        ensures { result ≡ first_of self.now.ancestors }
    {
        self.ancestors.front().copied()
    }

    // Appends to the text of the innermost open element, if there is one.
    #[tactic(auto, using(crate::proofs::Grows::none_changed_in, crate::proofs::Grows::first_changed, crate::proofs::Grows::none_open))]
    fn append(&mut self, held: Held, more: Option<char>) -> Result<(), AllocError>
        ensures { OnOk result (self.new ≡ record {
          nodes = changed_in (with_more_text (more_text (held_of held) more)) self.old.ancestors
              self.old.nodes;
          ancestors = self.old.ancestors;
          behind_cr = self.old.behind_cr;
          at = self.old.at;
          opened_at = self.old.opened_at;
        }) }
    {
        if let Some(element) = self.innermost() {
            if (element as usize) < self.elements.len() {
                append(&mut self.elements, element, held, more)?;
            }
        }
        Ok(())
    }

    // Appends a text to that of the innermost open element, if there is one.
    #[tactic(auto, using(crate::proofs::Grows::none_changed_in, crate::proofs::Grows::first_changed, crate::proofs::Grows::none_open))]
    fn append_text(&mut self, text: &str) -> Result<(), AllocError>
        ensures { OnOk result (self.new ≡ record {
          nodes = changed_in (with_more_text (chars text.now)) self.old.ancestors self.old.nodes;
          ancestors = self.old.ancestors;
          behind_cr = self.old.behind_cr;
          at = self.old.at;
          opened_at = self.old.opened_at;
        }) }
    {
        if let Some(element) = self.innermost() {
            if (element as usize) < self.elements.len() {
                append_text(&mut self.elements, element, text)?;
            }
        }
        Ok(())
    }

    /// Whether the text read last ends in a CR.
    pub fn is_behind_cr(&self) -> bool
        ensures { result ≡ self.now.behind_cr }
    {
        self.behind_cr
    }

    /// Characters of text that are read as they stand, in so many bytes.
    pub fn reads_all(&mut self, text: &str, bytes: u64) -> Result<(), AllocError>
        requires { self.old.at + bytes < 2 ^ 64 }
        ensures { OnOk result (self.new ≡ record {
          nodes = changed_in (with_more_text (chars text.now)) self.old.ancestors self.old.nodes;
          ancestors = self.old.ancestors;
          behind_cr = false;
          at = self.old.at + bytes;
          opened_at = self.old.opened_at;
        }) }
    {
        self.append_text(text)?;
        self.behind_cr = false;
        self.at += bytes;
        Ok(())
    }

    /// A character of text, and so many `]` before it.
    pub fn reads(&mut self, held: Held, c: char, bytes: u64) -> Result<(), AllocError>
        requires { self.old.at + bytes < 2 ^ 64 }
        ensures { OnOk result (self.new ≡ build (Reads (held_of held) c) bytes self.old) }
    {
        let behind_cr = self.behind_cr && held == Held::None;
        self.append(held, line(behind_cr, c))?;
        self.behind_cr = c == '\r';
        self.at += bytes;
        Ok(())
    }

    // Gives the innermost open element, if there is one, one more child.
    #[tactic(auto, using(crate::proofs::Grows::none_changed_in, crate::proofs::Grows::first_changed, crate::proofs::Grows::none_open))]
    fn adopt(&mut self, child: u32) -> Result<(), AllocError>
        ensures count { length self.new.nodes ≡ length self.old.nodes }
        ensures adopted { OnOk result (self.new ≡ record {
          nodes = changed_in (with_child child) self.old.ancestors self.old.nodes;
          ancestors = self.old.ancestors;
          behind_cr = self.old.behind_cr;
          at = self.old.at;
          opened_at = self.old.opened_at;
        }) }
    {
        if let Some(element) = self.innermost() {
            if (element as usize) < self.elements.len() {
                adopt(&mut self.elements, element, child)?;
            }
        }
        Ok(())
    }

    // Adds the element of a start tag, and answers its number.
    fn add(&mut self, tag: StartTag) -> Result<u32, AllocError>
        ensures number { IfOk result (λ number. number ≡ length self.old.nodes) }
        ensures added { OnOk result (self.new ≡ record {
          nodes = with_node tag self.old;
          ancestors = self.old.ancestors;
          behind_cr = self.old.behind_cr;
          at = self.old.at;
          opened_at = self.old.opened_at;
        }) }
    {
        let number = self.elements.len();
        let (name, attributes, declared) = tag.into_parts();
        if number >= u32::MAX as usize || attributes.len() >= u32::MAX as usize {
            return Err(AllocError);
        }
        self.adopt(number as u32)?;
        let element = Element {
            name,
            attributes,
            declared,
            parent: self.innermost(),
            children: Vec::new(self.alloc),
            text: Text::new(self.alloc),
            at: self.opened_at,
        };
        self.elements.push(element)?;
        Ok(number as u32)
    }

    /// A start tag that closes itself ends.
    pub fn adds(&mut self, tag: StartTag, bytes: u64) -> Result<(), AllocError>
        requires { self.old.at + bytes < 2 ^ 64 }
        ensures { OnOk result (self.new ≡ build (Adds tag) bytes self.old) }
    {
        self.add(tag)?;
        self.behind_cr = false;
        self.at += bytes;
        Ok(())
    }

    /// A start tag ends.
    pub fn enters(&mut self, tag: StartTag, bytes: u64) -> Result<(), AllocError>
        requires { self.old.at + bytes < 2 ^ 64 }
        ensures { OnOk result (self.new ≡ build (Enters tag) bytes self.old) }
    {
        let number = self.add(tag)?;
        self.ancestors.push_front(number)?;
        self.behind_cr = false;
        self.at += bytes;
        Ok(())
    }

    /// The tree, where the document ends.
    pub fn finish(self) -> Tree
        ensures { result ≡ self.nodes }
    {
        Tree::new(self.elements)
    }

    /// A reference to a character ends.
    pub fn refers(&mut self, c: char, bytes: u64) -> Result<(), AllocError>
        requires { self.old.at + bytes < 2 ^ 64 }
        ensures { OnOk result (self.new ≡ build (Refers c) bytes self.old) }
    {
        self.append(Held::None, Some(c))?;
        self.behind_cr = false;
        self.at += bytes;
        Ok(())
    }
}
