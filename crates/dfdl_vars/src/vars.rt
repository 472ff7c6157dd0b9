// The variables of a run.
ghost use Rattle.std.specs.Prelude.{◌≡◌, [], ◌<◌, ◌+◌, ◌-◌, ◌↔◌, IfOk, IsErr, OnOk, OnErr, length, option_copied};
ghost use Rattle.dfdl_vars.specs.Kept.{Kept, opened, with_setting, with_read, entered, left, without_innermost, place_now, value_of, fault_now, fault_in};
ghost use Rattle.dfdl_vars.specs.Marks.{mark_of, LeadsBack, gone_back};

use crate::instances::{Change, Instance, VarFault, VarMark};
use crate::journal::{
    add_instance, forget, forget_behind, go_back, innermost, is_read_at, is_set_at, value_at,
};
use crate::keeping::{define, give, note_read, note_setting};
use crate::values::{VarDef, VarValues};
use dfdl_value::Value;
use std::alloc::{AllocError, Global};
use std::marker::Model;

/// As many instances are entered as there may be.
#[derive(Debug, Clone, Copy, PartialEq, Eq)]
pub struct Full;

/// The variables of a run, with the instances that are open.
#[derive(Drop)]
pub struct Vars {
    instances: Vec<Instance>,
    changes: Vec<Change>,
    globals: usize,
    deep: usize,
}

impl Model for Vars {
    ghost use Rattle.std.specs.Prelude.{vec_capacity};
    ghost use Rattle.dfdl_vars.specs.Kept.{Kept};
    ghost use Rattle.dfdl_vars.specs.VarsShown.{kept_as, HasRoom};

    ghost Value = { Kept };

    ghost view = { λ v. kept_as v.instances.items v.changes.items v.globals v.deep };

    ghost invariant = { λ v. HasRoom v.instances.items v.changes.items v.globals v.deep (vec_capacity v.instances) (vec_capacity v.changes) };
}

impl Vars {
    /// The variables before data is parsed, with the memory for so many instances that are entered at once. No other call takes
    /// memory.
    pub fn open(
        alloc: Global,
        definitions: &[VarDef],
        given: &VarValues,
        deep: u32,
    ) -> Result<Vars, AllocError>
        ensures { IfOk result (λ vars. vars ≡ opened definitions.now given.now deep) }
    {
        let globals = definitions.len();
        let deep = deep as usize;
        let Some(room) = globals.checked_add(deep) else {
            return Err(AllocError);
        };
        let Some(twice) = room.checked_mul(2) else {
            return Err(AllocError);
        };
        let mut instances = Vec::with_capacity(alloc, room)?;
        let changes = Vec::with_capacity(alloc, twice)?;
        define(alloc, &mut instances, definitions)?;
        give(alloc, &mut instances, given)?;
        Ok(Vars {
            instances,
            changes,
            globals,
            deep,
        })
    }

    /// The variables where none is defined. It takes no memory.
    pub fn none(alloc: Global) -> Vars
        ensures { result ≡ opened [] [] 0 }
    {
        Vars {
            instances: Vec::new(alloc),
            changes: Vec::new(alloc),
            globals: 0,
            deep: 0,
        }
    }

    /// How many variables there are. Their numbers are those below it.
    pub fn count(&self) -> usize
        ensures { result ≡ self.now.globals }
    {
        self.globals
    }

    // The place of the instance that a variable stands for.
    fn place(&self, var: u32) -> usize
        requires { var < self.now.globals }
        ensures place { result ≡ place_now self.now var }
        ensures within { result < length self.now.instances }
    {
        innermost(self.instances.as_slice(), self.globals, var as usize)
    }

    /// The value of the variable's instance, if it has one. Who uses it calls `read` too.
    pub fn value(&self, var: u32) -> Option<&Value>
        requires { var < self.now.globals }
        ensures { option_copied result ≡ value_of self.now var }
    {
        let place = self.place(var);
        value_at(self.instances.as_slice(), place)
    }

    /// The variable's instance is read.
    pub fn read(&mut self, var: u32)
        requires { var < self.old.globals }
        ensures { self.new ≡ with_read self.old (place_now self.old var) }
    {
        let place = self.place(var);
        note_read(&mut self.instances, &mut self.changes, place);
    }

    fn fault(&self, var: u32) -> Option<VarFault>
        requires { var < self.now.globals }
        ensures { result ≡ fault_now self.now var }
    {
        let place = self.place(var);
        if is_set_at(self.instances.as_slice(), place) {
            return Some(VarFault::SetTwice);
        }
        if is_read_at(self.instances.as_slice(), place) {
            return Some(VarFault::SetAfterRead);
        }
        None
    }

    /// Sets the variable's instance.
    pub fn set(&mut self, var: u32, value: Value) -> Result<(), VarFault>
        requires { var < self.old.globals }
        ensures set { OnOk result (self.new ≡ with_setting self.old (place_now self.old var) value) }
        // An instance that was set before isn't set again, nor one that was read before.
        ensures fault { fault_in result ≡ fault_now self.old var }
        ensures same { OnErr result (self.new ≡ self.old) }
        ensures globals { self.new.globals ≡ self.old.globals }
    {
        if let Some(fault) = self.fault(var) {
            return Err(fault);
        }
        let place = self.place(var);
        note_setting(&mut self.instances, &mut self.changes, place, value);
        Ok(())
    }

    /// Opens an instance of a variable, which is the one that it stands for from now on.
    pub fn enter(&mut self, var: u32, start: Option<Value>) -> Result<(), Full>
        requires { var < self.old.globals }
        ensures entered { OnOk result (self.new ≡ entered self.old var start) }
        ensures full { IsErr result ↔ (length self.old.instances ≡ self.old.globals + self.old.deep) }
        ensures same { OnErr result (self.new ≡ self.old) }
        ensures globals { self.new.globals ≡ self.old.globals }
    {
        if self.instances.len() - self.globals == self.deep {
            return Err(Full);
        }
        let instance = Instance {
            var: var as usize,
            start,
            setting: None,
            was_read: false,
        };
        add_instance(&mut self.instances, instance);
        Ok(())
    }

    /// Closes the innermost instance that was entered.
    pub fn leave(&mut self)
        requires { self.old.globals < length self.old.instances }
        ensures { self.new ≡ left self.old }
    {
        let last = self.instances.len() - 1;
        forget(&mut self.changes, last);
        self.instances.truncate(last);
    }

    /// Closes the innermost instance that was entered, if there is one.
    pub fn leave_innermost(&mut self)
        ensures left { self.new ≡ without_innermost self.old }
        ensures globals { self.new.globals ≡ self.old.globals }
    {
        if self.globals < self.instances.len() {
            self.leave();
        }
    }

    /// A place to go back to.
    pub fn mark(&self) -> VarMark
        ensures mark { result ≡ mark_of self.now }
        ensures way { LeadsBack self.now self.now }
    {
        VarMark {
            instances: self.instances.len(),
            changes: self.changes.len(),
        }
    }

    /// Goes back to a mark: each instance is open, set and read as it was there. A mark may come from any state: what is newer
    /// than it is taken back, and what is not there any more is left alone.
    pub fn undo_to(&mut self, mark: VarMark)
        ensures gone { self.new ≡ gone_back mark self.old }
        ensures back { (base : Kept) → LeadsBack base self.old → mark ≡ mark_of base → self.new ≡ base }
        ensures globals { self.new.globals ≡ self.old.globals }
    {
        let count = self.globals.max(mark.instances);
        let were_more = self.instances.len() > count;
        self.instances.truncate(count);
        go_back(&mut self.instances, &mut self.changes, mark.changes);
        forget_behind(&mut self.changes, count, were_more);
    }
}
