// Components are looked at one after another, in schema order, up to the first refusal.
ghost use Rattle.std.specs.Prelude.{◌≡◌, ◌<◌, ◌++◌, ◌∷◌, ◌&&◌, ◌||◌, not, [], List, ℕ, None, length, map, All, IfOk, OnOk};
ghost use denote.Ref.{Bor};
ghost use Rattle.std.specs.BTreeSet.{contains};
ghost use Rattle.std.specs.Cmp.Lexicographic.{slice_cmp};
ghost use Rattle.std.specs.Ordering.{nat_cmp};
ghost use Rattle.dfdl_rows.specs.Looking.{AreReady, HasNames, IsAdded, IsKept, IsStep, branch_tasks, closed, looks_left, names_in, opened, refusal_behind, refusal_left, stand, stand_of, turned, visits};
ghost use Rattle.dfdl_rows.specs.Refusals.{Names, is_among, own_refusal};
ghost use Rattle.dfdl_rows.specs.declared.looking.Task.TheVariants as tasks_of;

use crate::{Component, Components, Refusal};
use dfdl_report::{Place, SchemaCause};
use std::alloc::{AllocError, Global};
use std::collections::{BTreeSet, VecDeque};
use std::mem;

// What is known of components: those of which nothing comes, and the first refusal of elements.
#[derive(Clone, Copy)]
pub(crate) struct Known<'k> {
    pub(crate) idle: &'k [bool],
    pub(crate) refusals: &'k [Option<Refusal>],
}

// What is to be done next: a component is looked at, or a branch of the innermost choice is done, or all of them are.
#[derive(Clone, Copy, Drop)]
enum Task {
    Visit(u32),
    Turn,
    Close,
}

// The names of a branch so far, and those of the branches of its choice before it; outside of all choices the names so far, and none.
#[derive(Drop)]
struct Level<'c> {
    own: Vec<&'c str>,
    others: Vec<&'c str>,
}

impl<'c> Level<'c> {
    fn new(alloc: Global) -> Level<'c>
        ensures own { result.own.items ≡ [] }
        ensures others { result.others.items ≡ [] }
    {
        Level {
            own: Vec::new(alloc),
            others: Vec::new(alloc),
        }
    }
}

// What is left to be looked at; the names behind which the next component is; and those of each choice that is open, the innermost one
// first, and of what is outside of all.
#[derive(Drop)]
struct Looking<'c> {
    tasks: VecDeque<Task>,
    names: BTreeSet<&'c str>,
    level: Level<'c>,
    outer: VecDeque<Level<'c>>,
}

// The first refusal in components one after another, where none stands before them in a complex element.
pub(crate) fn first_refusal_in(
    alloc: Global,
    components: &Components,
    known: Known<'_>,
    first: &[u32],
) -> Result<Option<Refusal>, AllocError>
    requires { AreReady components.now known.idle.now known.refusals.now first.now }
    ensures { IfOk result (λ found. found ≡ refusal_behind components.now first.now []) }
{
    let mut looking = Looking {
        tasks: VecDeque::new(alloc),
        names: BTreeSet::new(alloc),
        level: Level::new(alloc),
        outer: VecDeque::new(alloc),
    };
    visit_all(&mut looking.tasks, first)?;
    looking.run(alloc, components, known)
}

// Puts these components before the other tasks.
fn visit_all(tasks: &mut VecDeque<Task>, parts: &[u32]) -> Result<(), AllocError>
    ensures { OnOk result (tasks.new.items ≡ map tasks_of.Visit parts.now ++ tasks.old.items) }
{
    for at in (0..parts.len()).rev() {
        let part = parts[at];
        tasks.push_front(Task::Visit(part))?;
    }
    Ok(())
}

// Puts the branches of a choice before the other tasks, each with its end.
fn visit_branches(tasks: &mut VecDeque<Task>, parts: &[u32]) -> Result<(), AllocError>
    ensures { OnOk result (tasks.new.items ≡ branch_tasks parts.now ++ tasks.old.items) }
{
    for at in (0..parts.len()).rev() {
        let part = parts[at];
        tasks.push_front(Task::Turn)?;
        tasks.push_front(Task::Visit(part))?;
    }
    Ok(())
}

// Puts a choice of these branches before the other tasks.
fn enter_choice(tasks: &mut VecDeque<Task>, parts: &[u32]) -> Result<(), AllocError>
    ensures { OnOk result (tasks.new.items ≡ branch_tasks parts.now ++ tasks_of.Close ∷ tasks.old.items) }
{
    tasks.push_front(Task::Close)?;
    visit_branches(tasks, parts)
}

// Takes names away.
fn hide(names: &mut BTreeSet<&str>, own: &[&str])
    ensures { (name : Bor (List ℕ)) → contains (λ x y. slice_cmp nat_cmp x.now y.now) names.new name
        ≡ (contains (λ x y. slice_cmp nat_cmp x.now y.now) names.old name && not (is_among (names_in own.now) name.now)) }
{
    for name in own {
        names.remove(*name);
    }
}

// Adds names, some of which may be there.
fn show<'c>(names: &mut BTreeSet<&'c str>, others: &[&'c str]) -> Result<(), AllocError>
    ensures { OnOk result ((name : Bor (List ℕ)) → contains (λ x y. slice_cmp nat_cmp x.now y.now) names.new name
        ≡ (contains (λ x y. slice_cmp nat_cmp x.now y.now) names.old name || is_among (names_in others.now) name.now)) }
{
    for name in others {
        names.insert(*name)?;
    }
    Ok(())
}

// A branch of the innermost choice is done: its names stand aside.
fn turn(names: &mut BTreeSet<&str>, level: &mut Level<'_>) -> Result<(), AllocError>
    ensures own { OnOk result (level.new.own.items ≡ []) }
    ensures others { OnOk result (level.new.others.items ≡ level.old.others.items ++ level.old.own.items) }
    ensures names { OnOk result ((name : Bor (List ℕ)) → contains (λ x y. slice_cmp nat_cmp x.now y.now) names.new name
        ≡ (contains (λ x y. slice_cmp nat_cmp x.now y.now) names.old name && not (is_among (names_in level.old.own.items) name.now))) }
{
    hide(names, level.own.as_slice());
    level.others.append(&mut level.own)?;
    Ok(())
}

// The innermost choice is done: the names of its branches stand behind those of the branch that it stands in.
fn join<'c>(
    names: &mut BTreeSet<&'c str>,
    inner: &mut Level<'c>,
    outer: &mut Level<'c>,
) -> Result<(), AllocError>
    ensures own { OnOk result (outer.new.own.items
        ≡ outer.old.own.items ++ (inner.old.others.items ++ inner.old.own.items)) }
    ensures others { OnOk result (outer.new.others.items ≡ outer.old.others.items) }
    ensures names { OnOk result ((name : Bor (List ℕ)) → contains (λ x y. slice_cmp nat_cmp x.now y.now) names.new name
        ≡ (contains (λ x y. slice_cmp nat_cmp x.now y.now) names.old name
        || is_among (names_in (inner.old.others.items ++ inner.old.own.items)) name.now)) }
{
    inner.others.append(&mut inner.own)?;
    show(names, inner.others.as_slice())?;
    outer.own.append(&mut inner.others)?;
    Ok(())
}

impl<'c> Looking<'c> {
    // Looks at all that is left.
    fn run(
        &mut self,
        alloc: Global,
        components: &'c Components,
        known: Known<'_>,
    ) -> Result<Option<Refusal>, AllocError>
        requires ready { AreReady components.now known.idle.now known.refusals.now (visits self.old.tasks.items) }
        requires kept { IsKept (contains (λ x y. slice_cmp nat_cmp x.now y.now) self.old.names)
            (stand_of self.old.level self.old.outer.items) }
        ensures { IfOk result (λ found. found
            ≡ refusal_left components.now self.old.tasks.items (stand_of self.old.level self.old.outer.items)) }
    {
        while let Some(task) = self.tasks.pop_front() {
            let refusal = self.step(alloc, components, known, task)?;
            if refusal.is_some() {
                return Ok(refusal);
            }
        }
        Ok(None)
    }

    // Does a task that stood before the others: a refusal, or what is left.
    fn step(
        &mut self,
        alloc: Global,
        components: &'c Components,
        known: Known<'_>,
        task: Task,
    ) -> Result<Option<Refusal>, AllocError>
        requires ready { AreReady components.now known.idle.now known.refusals.now (visits (task ∷ self.old.tasks.items)) }
        requires kept { IsKept (contains (λ x y. slice_cmp nat_cmp x.now y.now) self.old.names)
            (stand_of self.old.level self.old.outer.items) }
        ensures step { IfOk result (λ found. IsStep components.now (task ∷ self.old.tasks.items)
            (stand_of self.old.level self.old.outer.items)
            self.new.tasks.items (stand_of self.new.level self.new.outer.items)
            (contains (λ x y. slice_cmp nat_cmp x.now y.now) self.new.names) found) }
        ensures ready { OnOk result (AreReady components.now known.entry.idle.now known.entry.refusals.now (visits self.new.tasks.items)) }
        ensures less { OnOk result (looks_left components.now self.new.tasks.items
            < looks_left components.now (task ∷ self.old.tasks.items)) }
    {
        match task {
            Task::Visit(number) => self.look(alloc, components, known, number),
            Task::Turn => {
                turn(&mut self.names, &mut self.level)?;
                Ok(None)
            }
            Task::Close => {
                self.close()?;
                Ok(None)
            }
        }
    }

    // The innermost choice is done.
    fn close(&mut self) -> Result<(), AllocError>
        requires kept { IsKept (contains (λ x y. slice_cmp nat_cmp x.now y.now) self.old.names)
            (stand_of self.old.level self.old.outer.items) }
        ensures tasks { self.new.tasks.items ≡ self.old.tasks.items }
        ensures kept { OnOk result (IsKept (contains (λ x y. slice_cmp nat_cmp x.now y.now) self.new.names)
            (stand_of self.new.level self.new.outer.items)) }
        ensures stand { OnOk result (stand_of self.new.level self.new.outer.items
            ≡ closed (stand_of self.old.level self.old.outer.items)) }
    {
        if let Some(mut outer) = self.outer.pop_front() {
            join(&mut self.names, &mut self.level, &mut outer)?;
            self.level = outer;
        }
        Ok(())
    }

    // Looks at a component that stood before the others: a refusal, or its parts stand in its place.
    fn look(
        &mut self,
        alloc: Global,
        components: &'c Components,
        known: Known<'_>,
        number: u32,
    ) -> Result<Option<Refusal>, AllocError>
        requires ready { AreReady components.now known.idle.now known.refusals.now (number ∷ visits self.old.tasks.items) }
        requires kept { IsKept (contains (λ x y. slice_cmp nat_cmp x.now y.now) self.old.names)
            (stand_of self.old.level self.old.outer.items) }
        ensures step { IfOk result (λ found. IsStep components.now (tasks_of.Visit number ∷ self.old.tasks.items)
            (stand_of self.old.level self.old.outer.items)
            self.new.tasks.items (stand_of self.new.level self.new.outer.items)
            (contains (λ x y. slice_cmp nat_cmp x.now y.now) self.new.names) found) }
        ensures ready { OnOk result (AreReady components.now known.entry.idle.now known.entry.refusals.now (visits self.new.tasks.items)) }
        ensures less { OnOk result (looks_left components.now self.new.tasks.items
            < looks_left components.now (tasks_of.Visit number ∷ self.old.tasks.items)) }
    {
        if known.idle[number as usize] {
            return Ok(None);
        }
        match components.refusal(number) {
            Some(refusal) => Ok(Some(refusal)),
            None => self.open(alloc, components, known, number),
        }
    }

    // Looks at a component that is not refused by itself.
    fn open(
        &mut self,
        alloc: Global,
        components: &'c Components,
        known: Known<'_>,
        number: u32,
    ) -> Result<Option<Refusal>, AllocError>
        requires ready { AreReady components.now known.idle.now known.refusals.now (number ∷ visits self.old.tasks.items) }
        requires kept { IsKept (contains (λ x y. slice_cmp nat_cmp x.now y.now) self.old.names)
            (stand_of self.old.level self.old.outer.items) }
        requires unrefused { own_refusal components.now number ≡ None }
        ensures step { IfOk result (λ found. IsStep components.now (tasks_of.Visit number ∷ self.old.tasks.items)
            (stand_of self.old.level self.old.outer.items)
            self.new.tasks.items (stand_of self.new.level self.new.outer.items)
            (contains (λ x y. slice_cmp nat_cmp x.now y.now) self.new.names) found) }
        ensures ready { OnOk result (AreReady components.now known.entry.idle.now known.entry.refusals.now (visits self.new.tasks.items)) }
        ensures less { OnOk result (looks_left components.now self.new.tasks.items
            < looks_left components.now (tasks_of.Visit number ∷ self.old.tasks.items)) }
    {
        match components.component(number) {
            Component::Sequence { .. } => {
                visit_all(&mut self.tasks, components.parts(number))?;
                Ok(None)
            }
            Component::Choice { .. } => {
                enter_choice(&mut self.tasks, components.parts(number))?;
                self.begin(alloc)?;
                Ok(None)
            }
            Component::ComplexElement { name, .. } => {
                let inside = known.refusals[number as usize];
                let place = components.place(number);
                let names = &mut self.names;
                let own = &mut self.level.own;
                let found = add_element(names, own, name.as_str(), place, inside)?;
                Ok(found)
            }
            Component::SimpleElement { name, .. } => {
                let inside = known.refusals[number as usize];
                let place = components.place(number);
                let names = &mut self.names;
                let own = &mut self.level.own;
                let found = add_element(names, own, name.as_str(), place, inside)?;
                Ok(found)
            }
            Component::CalculatedElement { name, .. } => {
                let inside = known.refusals[number as usize];
                let place = components.place(number);
                let names = &mut self.names;
                let own = &mut self.level.own;
                let found = add_element(names, own, name.as_str(), place, inside)?;
                Ok(found)
            }
            Component::Hidden => {
                visit_all(&mut self.tasks, components.parts(number))?;
                Ok(None)
            }
        }
    }

    // A choice is begun.
    fn begin(&mut self, alloc: Global) -> Result<(), AllocError>
        ensures tasks { self.new.tasks.items ≡ self.old.tasks.items }
        ensures names { self.new.names ≡ self.old.names }
        ensures stand { OnOk result (stand_of self.new.level self.new.outer.items
            ≡ opened (stand_of self.old.level self.old.outer.items)) }
    {
        let level = mem::replace(&mut self.level, Level::new(alloc));
        self.outer.push_front(level)?;
        Ok(())
    }
}

// Adds the name of an element that begins at a place: it is refused where it was there, else by what is inside.
fn add_element<'c>(
    names: &mut BTreeSet<&'c str>,
    own: &mut Vec<&'c str>,
    name: &'c str,
    place: Place,
    inside: Option<Refusal>,
) -> Result<Option<Refusal>, AllocError>
    ensures { IfOk result (λ found. (old : Names) → HasNames (contains (λ x y. slice_cmp nat_cmp x.now y.now) names.old) old
        → IsAdded old name.now place inside (contains (λ x y. slice_cmp nat_cmp x.now y.now) names.new) own.old.items own.new.items found) }
{
    if !names.insert(name)? {
        return Ok(Some(Refusal {
            cause: SchemaCause::ElementTwice,
            place,
        }));
    }
    own.push(name)?;
    Ok(inside)
}
