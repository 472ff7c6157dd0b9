// What is found in an infoset: its events in schema order, and the refusal that counts.
ghost use Rattle.std.specs.Prelude.{◌≡◌, [], None, OnOk};
ghost use Rattle.dfdl_json.specs.Answers.{Answers};
ghost use Rattle.dfdl_json.specs.Found.{noted};
ghost use Rattle.dfdl_json.specs.Paths.{path_of};
ghost use Rattle.dfdl_json.specs.Infosets.{Says, Refuses, unless_refused};

use crate::fault::InfosetFault;
use crate::path::OpenElements;
use dfdl_report::InfosetCause;
use dfdl_terms::Event;
use dfdl_value::TextValue;
use std::alloc::{AllocError, Global};
use std::marker::Model;

// A refusal, and how many elements stand around what is refused.
#[derive(Drop)]
struct Placed {
    level: usize,
    cause: InfosetCause,
    path: TextValue,
}

// The events so far, and the refusal that counts so far.
#[derive(Drop)]
pub(crate) struct Found {
    events: Vec<Event>,
    refused: Option<Placed>,
}

impl Model for Found {
    ghost use Rattle.std.specs.Prelude.{option_map};
    ghost use Rattle.dfdl_json.specs.Found.{Found as Shown};

    ghost Value = { Shown };

    ghost view = { λ f. record {
      events = f.events.items;
      refused = option_map (λ p. record { level = p.level; refusal = record { cause = p.cause; path = p.path } }) f.refused;
    } };
}

impl Found {
    pub(crate) fn new(alloc: Global) -> Found
        ensures { result ≡ record { events = []; refused = None } }
    {
        Found {
            events: Vec::new(alloc),
            refused: None,
        }
    }

    // An event comes.
    pub(crate) fn say(&mut self, event: Event) -> Result<(), AllocError>
        ensures { OnOk result (self.new ≡ noted self.old (Says event)) }
    {
        self.events.push(event)?;
        Ok(())
    }

    // What so many elements stand around is refused, and the path of the innermost open element is told.
    pub(crate) fn refuse(
        &mut self,
        alloc: Global,
        level: usize,
        cause: InfosetCause,
        around: &OpenElements<'_>,
    ) -> Result<(), AllocError>
        ensures { OnOk result (self.new ≡ noted self.old
            (Refuses (record { level = level; refusal = record { cause = cause; path = path_of around.now } }))) }
    {
        if let Some(first) = &self.refused
            && first.level <= level
        {
            return Ok(());
        }
        let path = around.path(alloc)?;
        self.refused = Some(Placed { level, cause, path });
        Ok(())
    }

    // The refusal, if there is one, else the events.
    pub(crate) fn answer(self) -> Result<Vec<Event>, InfosetFault>
        ensures { Answers (λ events. events.items) (unless_refused self.refused self.events) result }
    {
        let Found { events, refused } = self;
        match refused {
            None => Ok(events),
            Some(Placed { cause, path, .. }) => Err(InfosetFault::Bad { cause, path }),
        }
    }
}
