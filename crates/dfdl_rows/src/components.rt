// The components of a schema, with an order of them.
ghost use Rattle.std.specs.Prelude.{◌≡◌, ◌<◌, ◌↔◌, length, All, IfOk, IsTrue, false};
ghost use Rattle.dfdl_order.specs.Parts.{uses_of, IsOrder};
ghost use Rattle.dfdl_terms.specs.Rows.{AreStatements, AreWithin, IsWithin};
ghost use Rattle.dfdl_rows.specs.Components.{AreOfOne, CanHave, HasOrder, component_at, framing_in, place_at, separated_in, slots_at};
ghost use Rattle.dfdl_rows.specs.Refusals.{own_refusal};
ghost use Rattle.dfdl_rows.specs.Components.{HasBranches, HasPrimitive, HasBoxPrimitive, HasBoxQuestion, HasPrefixPrimitive, HasCalculation, HasDelimiters, HasFramingStatements, HasKeyQuestion, HasLeafQuestion, HasList, HasQuestions, HasSeparators, HasStatements};
ghost use Rattle.dfdl_rows.specs.Slots as slots;
ghost use Rattle.dfdl_rows.specs.Times.{question_of};

use crate::component::{BranchKey, Dispatch, Separated};
use crate::framing::has_framing;
use crate::times::{Times, required_times, times_of};
use crate::{Component, ContentBox, Counted, LeafLength, Refusal};
use dfdl_order::{Order, Uses};
use dfdl_report::Place;
use dfdl_terms::{Delimiter, Framing, Representations, Statements};
use std::alloc::{AllocError, Global};
use std::marker::Model;

/// The components of a schema by number: the parts of each one in schema order, what it is, the refusal
/// of its own, and where it begins.
#[derive(Drop)]
pub struct Components {
    uses: Uses,
    order: Order,
    components: Vec<Component>,
    refusals: Vec<Option<Refusal>>,
    places: Vec<Place>,
}

impl Model for Components {
    ghost use Rattle.dfdl_order.specs.Parts.{IsOrder};
    ghost use Rattle.dfdl_rows.specs.Components.{Schema, AreOfOne};

    ghost Value = { Schema };

    ghost view = { λ s. record { uses = s.uses; components = s.components.items; refusals = s.refusals.items; places = s.places.items } };

    ghost invariant = { λ s. IsOrder s.uses s.order × AreOfOne s.uses s.components.items s.refusals.items s.places.items };
}

impl Components {
    /// Components that `are_of_one` is true of, and an order of them.
    pub fn new(
        uses: Uses,
        order: Order,
        components: Vec<Component>,
        refusals: Vec<Option<Refusal>>,
        places: Vec<Place>,
    ) -> Components
        requires ordered { IsOrder uses order }
        requires of_one { AreOfOne uses components.items refusals.items places.items }
        ensures { result ≡ record { uses = uses; components = components.items; refusals = refusals.items; places = places.items } }
    {
        Components {
            uses,
            order,
            components,
            refusals,
            places,
        }
    }

    /// How many components there are.
    pub fn count(&self) -> u32
        ensures count { result ≡ length self.now.uses }
        ensures of_one { AreOfOne self.now.uses self.now.components self.now.refusals self.now.places }
    {
        self.uses.count()
    }

    /// An order in which each component stands behind its parts.
    pub fn order(&self) -> &Order
        ensures { IsOrder self.now.uses result.now }
    {
        &self.order
    }

    /// What is known of the components. The call does nothing.
    pub(crate) fn facts(&self)
        ensures ordered { HasOrder self.now.uses }
        ensures of_one { AreOfOne self.now.uses self.now.components self.now.refusals self.now.places }
    {
        let _order = self.order();
        let _count = self.count();
    }

    /// What a component is.
    pub fn component(&self, number: u32) -> &Component
        requires { number < length self.now.uses }
        ensures component { result.now ≡ component_at self.now.components number }
        ensures parts { CanHave result.now (uses_of self.now.uses number) }
    {
        &self.components[number as usize]
    }

    /// The parts of a component.
    pub fn parts(&self, number: u32) -> &[u32]
        requires { number < length self.now.uses }
        ensures parts { result.now ≡ uses_of self.now.uses number }
        ensures within { All (λ p. p < length self.now.uses) result.now }
    {
        self.uses.of(number)
    }

    /// How often each part of a component occurs in it.
    pub(crate) fn slots(&self, alloc: Global, number: u32) -> Result<Vec<Times>, AllocError>
        requires { number < length self.now.uses }
        ensures { IfOk result (λ made. made.items ≡ slots_at self.now number) }
    {
        let mut slots = Vec::new(alloc);
        for part in self.parts(number) {
            slots.push(slots_of(self.component(*part), self.parts(*part)))?;
        }
        Ok(slots)
    }

    /// The refusal of a component's own.
    pub(crate) fn refusal(&self, number: u32) -> Option<Refusal>
        requires { number < length self.now.uses }
        ensures { result ≡ own_refusal self.now number }
    {
        self.refusals[number as usize]
    }

    /// Where a component begins.
    pub(crate) fn place(&self, number: u32) -> Place
        requires { number < length self.now.uses }
        ensures { result ≡ place_at self.now.places number }
    {
        self.places[number as usize]
    }
}

/// These components, refusals and places are as many as the lists of parts, and each component can have its parts.
pub fn are_of_one(
    uses: &Uses,
    components: &[Component],
    refusals: &[Option<Refusal>],
    places: &[Place],
) -> bool
    ensures of_one { IsTrue result → AreOfOne uses.now components.now refusals.now places.now }
    ensures other { result ≡ false → AreOfOne uses.now components.now refusals.now places.now → ⊥ }
{
    let count = uses.count() as usize;
    if components.len() != count || refusals.len() != count || places.len() != count {
        return false;
    }
    let count = uses.count();
    for number in 0..count {
        if !can_have(&components[number as usize], uses.of(number)) {
            return false;
        }
    }
    true
}

// How often a component with these parts occurs in the group that it stands in.
fn slots_of(component: &Component, parts: &[u32]) -> Times
    ensures { result ≡ slots.slots_of component.now parts.now }
{
    match component {
        Component::Sequence { framing, .. } | Component::Choice { framing, .. } => {
            required_times(slots_of_group(*framing, parts))
        }
        Component::ComplexElement {
            occurs,
            counted,
            ..
        } => times_of(*occurs, *counted),
        Component::SimpleElement {
            occurs,
            counted,
            ..
        } => times_of(*occurs, *counted),
        Component::CalculatedElement { .. } => required_times(0),
        Component::Hidden => required_times(1),
    }
}

// How many slots a group with this framing has.
fn slots_of_group(framing: Framing, parts: &[u32]) -> u32
    ensures { result ≡ slots.slots_of_group framing parts.now }
{
    if parts.is_empty() && !has_framing(framing) {
        0
    } else {
        1
    }
}

// Whether a component of this kind can have these parts.
fn can_have(component: &Component, parts: &[u32]) -> bool
    ensures can { IsTrue result → CanHave component.now parts.now }
    ensures other { result ≡ false → CanHave component.now parts.now → ⊥ }
{
    match component {
        Component::Sequence { .. } => true,
        Component::Choice { dispatch, .. } => has_branches(dispatch, parts.len()),
        Component::ComplexElement { .. } => parts.len() == 1,
        Component::SimpleElement { .. } => parts.is_empty(),
        Component::CalculatedElement { .. } => parts.is_empty(),
        Component::Hidden => parts.len() == 1,
    }
}

// Whether each key of a choice leads to one of so many branches.
fn has_branches(dispatch: &Option<Dispatch>, count: usize) -> bool
    ensures has { IsTrue result → HasBranches count dispatch.now }
    ensures other { result ≡ false → HasBranches count dispatch.now → ⊥ }
{
    match dispatch {
        Some(dispatch) => have_branches(dispatch.keys.as_slice(), count),
        None => true,
    }
}

// Whether each of these keys leads to one of so many branches.
fn have_branches(keys: &[BranchKey], count: usize) -> bool
    ensures have { IsTrue result → All (λ key. key.branch < count) keys.now }
    ensures other { result ≡ false → All (λ key. key.branch < count) keys.now → ⊥ }
{
    keys.iter().all(|key| (key.branch as usize) < count)
}

/// Whether the primitives of each component are some of so many: those of simple elements and of length prefixes.
pub fn have_primitives(components: &[Component], count: u32) -> bool
    ensures have { IsTrue result → All (HasPrimitive count) components.now }
    ensures other { result ≡ false → All (HasPrimitive count) components.now → ⊥ }
{
    components
        .iter()
        .all(|component| has_primitive(component, count))
}

// Whether the primitives of a component are some of so many.
fn has_primitive(component: &Component, count: u32) -> bool
    ensures { IsTrue result ↔ HasPrimitive count component.now }
{
    match component {
        Component::Sequence { .. } | Component::Choice { .. } | Component::Hidden => true,
        Component::ComplexElement { content_box, .. } => has_box_primitive(*content_box, count),
        Component::SimpleElement {
            prim,
            length,
            tried,
            ..
        } => {
            *prim < count
                && has_prefix_primitive(*length, count)
                && has_tried_primitives(*tried, count)
        }
        Component::CalculatedElement { .. } => true,
    }
}

// Whether the primitives of the representations that are tried are some of so many.
fn has_tried_primitives(tried: Representations, count: u32) -> bool
    ensures { IsTrue result ↔ AreWithin count tried }
{
    is_within(tried.nil, count)
        && is_within(tried.empty, count)
        && is_within(tried.where_tried.empty, count)
}

// Whether a primitive, where there is one, is one of so many.
fn is_within(prim: Option<u32>, count: u32) -> bool
    ensures { IsTrue result ↔ IsWithin count prim }
{
    match prim {
        Some(prim) => prim < count,
        None => true,
    }
}

// Whether the primitive of the length prefix of a box, where it has one, is one of so many.
fn has_box_primitive(content_box: ContentBox, count: u32) -> bool
    ensures { IsTrue result ↔ HasBoxPrimitive count content_box }
{
    match content_box {
        ContentBox::Unbounded => true,
        ContentBox::Sized(_) => true,
        ContentBox::Prefixed(prefix) => prefix.prim < count,
        ContentBox::Measured(_) => true,
    }
}

// Whether the primitive of the length prefix before a simple content, where there is one, is one of so many.
fn has_prefix_primitive(own_length: LeafLength, count: u32) -> bool
    ensures { IsTrue result ↔ HasPrefixPrimitive count own_length }
{
    match own_length {
        LeafLength::Own => true,
        LeafLength::Prefixed(prefix) => prefix.prim < count,
        LeafLength::Measured(_) => true,
    }
}

/// Whether the lists of each component's initiator, terminator and separators are some of so many.
pub fn have_delimiters(components: &[Component], count: u32) -> bool
    ensures have { IsTrue result → All (HasDelimiters count) components.now }
    ensures other { result ≡ false → All (HasDelimiters count) components.now → ⊥ }
{
    components
        .iter()
        .all(|component| has_delimiters(component, count))
}

// Whether the lists of a component's initiator, terminator and separators are some of so many.
fn has_delimiters(component: &Component, count: u32) -> bool
    ensures { IsTrue result ↔ HasDelimiters count component.now }
{
    let framing = framing_in(component);
    has_list(framing.initiator, count)
        && has_list(framing.terminator, count)
        && has_separators(separated_in(component), count)
}

/// Whether the statements of each component are some of so many, its questions among them.
pub fn have_statements(components: &[Component], count: u32) -> bool
    ensures have { IsTrue result → All (HasStatements count) components.now }
    ensures other { result ≡ false → All (HasStatements count) components.now → ⊥ }
{
    components
        .iter()
        .all(|component| has_statements(component, count))
}

// Whether the statements of a component are some of so many.
fn has_statements(component: &Component, count: u32) -> bool
    ensures { IsTrue result ↔ HasStatements count component.now }
{
    has_framing_statements(framing_in(component), count)
        && has_calculation(component, count)
        && has_questions(component, count)
}

// Whether the statements of what frames the content of a component are some of so many.
fn has_framing_statements(framing: Framing, count: u32) -> bool
    ensures { IsTrue result ↔ HasFramingStatements count framing }
{
    are_statements(framing.before, count)
        && are_statements(framing.openings, count)
        && are_statements(framing.settings, count)
        && are_statements(framing.behind, count)
}

// Whether these statements are some of so many.
fn are_statements(statements: Statements, count: u32) -> bool
    ensures { IsTrue result ↔ AreStatements count statements }
{
    u64::from(statements.first) + u64::from(statements.count) <= u64::from(count)
}

// Whether the statement that calculates the value of a component, where one does, is one of so many.
fn has_calculation(component: &Component, count: u32) -> bool
    ensures { IsTrue result ↔ HasCalculation count component.now }
{
    match component {
        Component::Sequence { .. } => true,
        Component::Choice { .. } => true,
        Component::ComplexElement { .. } => true,
        Component::SimpleElement { .. } => true,
        Component::CalculatedElement { statement, .. } => *statement < count,
        Component::Hidden => true,
    }
}

// Whether the questions of a component are some of so many statements.
fn has_questions(component: &Component, count: u32) -> bool
    ensures { IsTrue result ↔ HasQuestions count component.now }
{
    match component {
        Component::Sequence { .. } => true,
        Component::Choice { dispatch, .. } => has_key_question(dispatch, count),
        Component::ComplexElement {
            content_box,
            counted,
            ..
        } => has_box_question(*content_box, count) && has_count_question(*counted, count),
        Component::SimpleElement {
            length,
            counted,
            ..
        } => { has_leaf_question(*length, count) && has_count_question(*counted, count) }
        Component::CalculatedElement { .. } => true,
        Component::Hidden => true,
    }
}

// Whether the question that tells the key of a choice, where one does, is one of so many statements.
fn has_key_question(dispatch: &Option<Dispatch>, count: u32) -> bool
    ensures { IsTrue result ↔ HasKeyQuestion count dispatch.now }
{
    match dispatch {
        Some(dispatch) => dispatch.question < count,
        None => true,
    }
}

// Whether the question that tells how long a box is, where one does, is one of so many statements.
fn has_box_question(content_box: ContentBox, count: u32) -> bool
    ensures { IsTrue result ↔ HasBoxQuestion count content_box }
{
    match content_box {
        ContentBox::Unbounded => true,
        ContentBox::Sized(_) => true,
        ContentBox::Prefixed(_) => true,
        ContentBox::Measured(measure) => measure.question < count,
    }
}

// Whether the question that tells how long a simple content is, where one does, is one of so many statements.
fn has_leaf_question(own_length: LeafLength, count: u32) -> bool
    ensures { IsTrue result ↔ HasLeafQuestion count own_length }
{
    match own_length {
        LeafLength::Own => true,
        LeafLength::Prefixed(_) => true,
        LeafLength::Measured(measure) => measure.question < count,
    }
}

// Whether the question that tells how often an element occurs, where one does, is one of so many statements.
fn has_count_question(counted: Counted, count: u32) -> bool
    ensures { IsTrue result ↔ IsWithin count (question_of counted) }
{
    match counted {
        Counted::ByBounds => true,
        Counted::Parsed => true,
        Counted::Told(question) => question < count,
    }
}

// The separators in the content of a component, where it is a sequence with some.
fn separated_in(component: &Component) -> Option<Separated>
    ensures { result ≡ separated_in component.now }
{
    match component {
        Component::Sequence { separated, .. } => *separated,
        Component::Choice { .. } => None,
        Component::ComplexElement { .. } => None,
        Component::SimpleElement { .. } => None,
        Component::CalculatedElement { .. } => None,
        Component::Hidden => None,
    }
}

// Whether the list of separators, where there are some, is one of so many.
fn has_separators(separated: Option<Separated>, count: u32) -> bool
    ensures { IsTrue result ↔ HasSeparators count separated }
{
    match separated {
        Some(own) => own.list < count,
        None => true,
    }
}

// What frames the content of a component.
fn framing_in(component: &Component) -> Framing
    ensures { result ≡ framing_in component.now }
{
    match component {
        Component::Sequence { framing, .. } => *framing,
        Component::Choice { framing, .. } => *framing,
        Component::ComplexElement { framing, .. } => *framing,
        Component::SimpleElement { framing, .. } => *framing,
        Component::CalculatedElement { framing, .. } => *framing,
        Component::Hidden => Framing::none(),
    }
}

// Whether the list of a delimiter, where there is one, is one of so many.
fn has_list(delimiter: Option<Delimiter>, count: u32) -> bool
    ensures { IsTrue result ↔ HasList count delimiter }
{
    match delimiter {
        Some(delimiter) => delimiter.list < count,
        None => true,
    }
}
