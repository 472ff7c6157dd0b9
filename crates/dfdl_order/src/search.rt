// A walk through all components in depth, for two hints: the order in which it leaves them, parts first, where no
// component reaches itself; and a level for each one, the same for components that reach one another and lower for
// other parts (Tarjan's strongly connected components). No contract says so: what is made from other hints is the
// same, only more slowly.
use crate::Uses;
use std::alloc::{AllocError, Global};

// What is to be done next.
#[derive(Clone, Copy, Drop)]
enum Task {
    Enter(u32),
    Leave(u32),
}

/// What the walk found.
#[derive(Drop)]
pub(crate) struct Walk {
    // In which turn each component was entered, the highest number before.
    turns: Vec<u32>,
    // The lowest turn of the open components that each one is known to reach.
    lowest: Vec<u32>,
    // The level of each component, the highest number before it has one.
    levels: Vec<u32>,
    entered: u32,
    level: u32,
    // Components without a level, in the order in which they were entered.
    open: Vec<u32>,
    tasks: Vec<Task>,
    order: Vec<u32>,
}

/// Walks through all components.
pub(crate) fn walk_all(alloc: Global, uses: &Uses) -> Result<Walk, AllocError> {
    let count = uses.count() as usize;
    let mut walk = Walk {
        turns: vec![in alloc; u32::MAX; count]?,
        lowest: vec![in alloc; u32::MAX; count]?,
        levels: vec![in alloc; u32::MAX; count]?,
        entered: 0,
        level: 0,
        open: Vec::new(alloc),
        tasks: Vec::new(alloc),
        order: Vec::new(alloc),
    };
    for component in 0..uses.count() {
        walk.tasks.push(Task::Enter(component))?;
        walk.run(uses)?;
    }
    Ok(walk)
}

impl Walk {
    /// The components in the order in which they were left.
    pub(crate) fn order(&self) -> &[u32] {
        self.order.as_slice()
    }

    /// The level of each component.
    pub(crate) fn levels(&self) -> &[u32] {
        self.levels.as_slice()
    }

    // Does all that is to be done.
    fn run(&mut self, uses: &Uses) -> Result<(), AllocError> {
        for _ in 0..u64::MAX {
            match self.tasks.pop() {
                None => return Ok(()),
                Some(Task::Enter(component)) => self.enter(uses, component)?,
                Some(Task::Leave(component)) => self.leave(uses, component)?,
            }
        }
        Ok(())
    }

    // Goes on with the parts of a component that is seen for the first time.
    fn enter(&mut self, uses: &Uses, component: u32) -> Result<(), AllocError> {
        if component >= uses.count() || number(self.turns.as_slice(), component) != u32::MAX {
            return Ok(());
        }
        note(self.turns.as_mut_slice(), component, self.entered);
        self.entered = self.entered.saturating_add(1);
        self.open.push(component)?;
        self.tasks.push(Task::Leave(component))?;
        for part in uses.of(component) {
            self.tasks.push(Task::Enter(*part))?;
        }
        Ok(())
    }

    // Leaves a component whose parts were left. Where it reaches no component that was entered before it and is still
    // open, those that are open from it on get a level.
    fn leave(&mut self, uses: &Uses, component: u32) -> Result<(), AllocError> {
        self.order.push(component)?;
        let turn = number(self.turns.as_slice(), component);
        let lowest = self.lowest_from(uses, component, turn);
        note(self.lowest.as_mut_slice(), component, lowest);
        if lowest == turn {
            self.close(component);
        }
        Ok(())
    }

    // The lowest turn of the open components that one is known to reach.
    fn lowest_from(&self, uses: &Uses, component: u32, turn: u32) -> u32 {
        if component >= uses.count() {
            return turn;
        }
        let mut lowest = turn;
        for part in uses.of(component) {
            if number(self.levels.as_slice(), *part) == u32::MAX {
                lowest = lowest.min(self.turn_from(*part));
            }
        }
        lowest
    }

    // The lowest turn that an open part is known to reach.
    fn turn_from(&self, part: u32) -> u32 {
        number(self.lowest.as_slice(), part).min(number(self.turns.as_slice(), part))
    }

    // Gives the next level to the open components from one on.
    fn close(&mut self, component: u32) {
        let level = self.level;
        self.level = self.level.saturating_add(1);
        for _ in 0..self.open.len() {
            let Some(last) = self.open.pop() else {
                return;
            };
            note(self.levels.as_mut_slice(), last, level);
            if last == component {
                return;
            }
        }
    }
}

// The number of a component.
fn number(numbers: &[u32], component: u32) -> u32 {
    numbers.get(component as usize).copied().unwrap_or(u32::MAX)
}

// Notes a number of a component.
fn note(numbers: &mut [u32], component: u32, number: u32) {
    if let Some(place) = numbers.get_mut(component as usize) {
        *place = number;
    }
}
