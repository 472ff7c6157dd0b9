// The content of an element without a box begins and ends, and how long the open element is.
ghost use Rattle.std.specs.Prelude.{◌≡◌, ◌-◌, ◌∷◌, OnOk, Some, false};
ghost use Rattle.dfdl_bits.specs.Window.{Held};
ghost use Rattle.dfdl_region.specs.Nodes.{with_lengths};
ghost use Rattle.dfdl_grammar.specs.declared.end.End.TheVariants.{Done};
ghost use Rattle.dfdl_grammar.specs.Spans.{with_span};
ghost use Rattle.dfdl_looks.specs.Tallies.{Tally, nothing};
ghost use Rattle.dfdl_parse.specs.Moves.{pass};
ghost use Rattle.dfdl_parse.specs.Steps.{IsFree, Moved};
ghost use Rattle.dfdl_parse.specs.Shown.{HasSameLimits, state_of};

use crate::frame::{Focus, Frame};
use crate::parser::Parser;
use dfdl_grammar::End;
use dfdl_region::Lengths;
use dfdl_terms::RowId;
use std::alloc::AllocError;

impl Parser {
    // The content of the open element begins, which has no box.
    pub(crate) fn begin_span(&mut self, body: RowId) -> Result<(), AllocError>
        ensures moved { (held : Held) (cost : Tally) → IsFree cost → OnOk result (Moved
            (pass cost held (Focus.Enter body) (Frame.Spanning self.old.at ∷ self.old.stack) (state_of self.old))
            false self.old.far self.new held 0) }
        ensures most { OnOk result (HasSameLimits self.old self.new) }
        ensures at { OnOk result (self.new.at ≡ self.old.at) }
    {
        self.stack.push(Frame::Spanning { from: self.at })?;
        self.focus = Focus::Enter(body);
        Ok(())
    }

    // The content of the open element is done, which has no box and began at this bit.
    pub(crate) fn end_span(&mut self, from: u64)
        ensures moved { (held : Held) → Moved
            (pass nothing held (Focus.Leave Done) self.old.stack (with_span (self.old.at - from) (self.old.at - from) (state_of self.old)))
            false self.old.far self.new held 0 }
        ensures most { HasSameLimits self.old self.new }
        ensures at { self.new.at ≡ self.old.at }
    {
        let length = self.at.saturating_sub(from);
        self.tell_lengths(length, length);
        self.focus = Focus::Leave(End::Done);
    }

    // The content of the open element has so many bits, and so many has its value.
    pub(crate) fn tell_lengths(&mut self, content: u64, value: u64)
        ensures { self.new ≡ record self.old {
          region = record self.old.region {
            nodes = with_lengths self.old.region.nodes self.old.inside (Some (record { content = content; value = value }));
          };
        } }
    {
        let lengths = Lengths { content, value };
        self.region.set_lengths(self.inside, Some(lengths));
    }
}
