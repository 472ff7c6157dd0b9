// A component with a terminator begins and ends.
ghost use Rattle.std.specs.Prelude.{◌≡◌, ◌∷◌, OnOk, false, length};
ghost use Rattle.dfdl_bits.specs.Window.{Held};
ghost use Rattle.dfdl_grammar.specs.Delimiters.{closes_to, opens};
ghost use Rattle.dfdl_looks.specs.Tallies.{Tally, nothing};
ghost use Rattle.dfdl_parse.specs.Moves.{pass};
ghost use Rattle.dfdl_parse.specs.Steps.{IsFree, Moved};
ghost use Rattle.dfdl_parse.specs.Shown.{HasSameLimits, state_of};

use crate::frame::{Focus, Frame};
use crate::parser::Parser;
use dfdl_grammar::End;
use dfdl_terms::RowId;
use std::alloc::AllocError;

impl Parser {
    // A component begins inside of which a text of this list ends a content.
    pub(crate) fn begin_scope(&mut self, list: u32, body: RowId) -> Result<(), AllocError>
        ensures moved { (held : Held) (cost : Tally) → IsFree cost → OnOk result (Moved
            (pass cost held (Focus.Enter body) (Frame.Scope (length self.old.lists) ∷ self.old.stack) (opens list (state_of self.old)))
            false self.old.far self.new held 0) }
        ensures most { OnOk result (HasSameLimits self.old self.new) }
        ensures at { OnOk result (self.new.at ≡ self.old.at) }
    {
        let count = self.lists.len();
        self.stack.push(Frame::Scope { count })?;
        self.lists.push(list)?;
        self.focus = Focus::Enter(body);
        Ok(())
    }

    // A component has ended, and so many lists are open again.
    pub(crate) fn end_scope(&mut self, count: usize, end: End)
        ensures moved { (held : Held) → Moved
            (pass nothing held (Focus.Leave end) self.old.stack (closes_to count (state_of self.old))) false self.old.far self.new held 0 }
        ensures most { HasSameLimits self.old self.new }
        ensures at { self.new.at ≡ self.old.at }
    {
        self.lists.close_to(count);
        self.focus = Focus::Leave(end);
    }
}
