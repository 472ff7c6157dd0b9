// The stack of the machine.
ghost use Rattle.std.specs.Prelude.{◌≡◌, [], ◌∷◌, IfSome, IfNone, OnOk, IfOk, IsTrue, ◌↔◌, reverse};
ghost use Rattle.dfdl_parse.specs.Machines.{is_none};

use crate::frame::Frame;
use std::alloc::{AllocError, Global};
use std::marker::Model;

/// Frames, the innermost first.
#[derive(Drop)]
pub struct Stack {
    frames: Vec<Frame>,
}

impl Model for Stack {
    ghost use Rattle.std.specs.Prelude.{List, reverse};
    ghost use Rattle.dfdl_parse.specs.declared.frame.Frame.{Frame};

    ghost Value = { List Frame };

    ghost view = { λ s. reverse s.frames.items };
}

impl Stack {
    /// No frames, with the memory for so many. More are taken as they are needed.
    pub fn open(alloc: Global, room: usize) -> Result<Stack, AllocError>
        ensures { IfOk result (λ stack. stack ≡ []) }
    {
        Ok(Stack {
            frames: Vec::with_capacity(alloc, room)?,
        })
    }

    pub(crate) fn push(&mut self, frame: Frame) -> Result<(), AllocError>
        ensures { OnOk result (self.new ≡ frame ∷ self.old) }
    {
        self.frames.push(frame)?;
        Ok(())
    }

    pub(crate) fn pop(&mut self) -> Option<Frame>
        ensures some { IfSome result (λ frame. self.old ≡ frame ∷ self.new) }
        ensures none { IfNone result (self.old ≡ []) }
        ensures kept { IfNone result (self.new ≡ []) }
    {
        self.frames.pop()
    }

    pub(crate) fn is_empty(&self) -> bool
        ensures empty { IsTrue result ↔ (self.now ≡ []) }
        ensures none { result ≡ is_none self.now }
    {
        self.frames.is_empty()
    }
}
