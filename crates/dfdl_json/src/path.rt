// The elements that are open while an infoset is read or written, and the paths of elements in them.
ghost use Rattle.std.specs.Prelude.{◌≡◌, ◌++◌, ◌∷◌, [], IfOk, OnOk, codes, decimal, drop, length, string_bytes};
ghost use Rattle.dfdl_json.specs.Paths as paths;
ghost use Rattle.dfdl_json.specs.Paths.{step_to};

use dfdl_value::TextValue;
use std::alloc::{AllocError, Global};
use std::collections::VecDeque;
use std::marker::Model;

// The local name of an element, and its place in its array, if it is an item.
#[derive(Debug, Clone, Copy, Drop)]
struct Step<'t> {
    name: &'t str,
    place: Option<usize>,
}

/// The elements that are open, by their local names and their places in arrays, the innermost first.
#[derive(Debug, Drop)]
pub struct OpenElements<'t> {
    steps: VecDeque<Step<'t>>,
}

impl<'t> Model for OpenElements<'t> {
    ghost use Rattle.std.specs.Prelude.{ℕ, List, map};
    ghost use Rattle.dfdl_json.specs.Paths.{step_to};

    ghost Value = { List (List ℕ) };

    ghost view = { λ o. map (λ step. step_to step.name.now step.place) o.steps.items };
}

impl<'t> OpenElements<'t> {
    pub fn new(alloc: Global) -> OpenElements<'t>
        ensures { result ≡ [] }
    {
        OpenElements {
            steps: VecDeque::new(alloc),
        }
    }

    /// An element of this name begins.
    pub fn push(&mut self, name: &'t str) -> Result<(), AllocError>
        ensures { OnOk result (self.new ≡ name.now ∷ self.old) }
    {
        self.push_step(name, None)
    }

    /// An element of this name begins, which has this place in its array, if it is an item.
    pub fn push_step(&mut self, name: &'t str, place: Option<usize>) -> Result<(), AllocError>
        ensures { OnOk result (self.new ≡ step_to name.now place ∷ self.old) }
    {
        self.steps.push_front(Step { name, place })?;
        Ok(())
    }

    /// The innermost element ends.
    pub fn pop(&mut self)
        ensures { self.new ≡ drop 1 self.old }
    {
        let _step = self.steps.pop_front();
    }

    /// How many elements are open.
    pub fn depth(&self) -> usize
        ensures { result ≡ length self.now }
    {
        self.steps.len()
    }

    /// The path of the innermost element.
    pub fn path(&self, alloc: Global) -> Result<TextValue, AllocError>
        ensures { IfOk result (λ path. path ≡ paths.path_of self.now) }
    {
        let mut path = String::new(alloc);
        for at in (0..self.steps.len()).rev() {
            let step = self.steps[at];
            path.push('/')?;
            put_step(alloc, &mut path, step.name, step.place)?;
        }
        Ok(TextValue::from_string(path))
    }
}

// Puts a step behind a text.
fn put_step(
    alloc: Global,
    text: &mut String,
    name: &str,
    place: Option<usize>,
) -> Result<(), AllocError>
    ensures { OnOk result (string_bytes text.new ≡ string_bytes text.old ++ step_to name.now place) }
{
    text.push_str(name)?;
    match place {
        Some(place) => put_place(alloc, text, place),
        None => Ok(()),
    }
}

// Puts a place in an array behind a text, in brackets.
fn put_place(alloc: Global, text: &mut String, place: usize) -> Result<(), AllocError>
    ensures { OnOk result (string_bytes text.new
        ≡ string_bytes text.old ++ (codes "[" ++ (decimal place ++ codes "]"))) }
{
    text.push_str("[")?;
    text.push_str(place.to_string(alloc)?.as_str())?;
    text.push_str("]")?;
    Ok(())
}
