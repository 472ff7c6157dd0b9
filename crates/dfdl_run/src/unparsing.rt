// The unparsing of an infoset.
ghost use Rattle.std.specs.Prelude.{◌≡◌, ◌⊎◌, Err, IfOk};
ghost use Rattle.dfdl_terms.specs.Rows.{HasElementLast, HasPlainRows};
ghost use Rattle.dfdl_pieces.specs.Whole.{AreWholeFields};
ghost use Rattle.dfdl_run.specs.Meaning.{laid_answer, unparse_end};
ghost use Rattle.dfdl_run.specs.declared.stop.Stop.TheVariants.{OutOfMemory};

use crate::answer::Answer;
use crate::stop::Stop;
use dfdl_json::{InfosetFault, events_of_json};
use dfdl_pieces::{Unparsed, unparse as laid};
use dfdl_report::UnparseCause;
use dfdl_terms::Terms;
use std::alloc::Global;

// The answer of what was laid.
fn answer_of(unparsed: Unparsed) -> Answer
    ensures { result ≡ laid_answer unparsed }
{
    let Unparsed { pieces, missing } = unparsed;
    match missing {
        None => Answer::Unparsed { pieces },
        Some(path) => Answer::NotUnparsed {
            pieces,
            cause: UnparseCause::WrongOccurrences,
            path,
        },
    }
}

// What unparsing the text of an infoset comes to.
pub(crate) fn unparse(alloc: Global, terms: &Terms, text: &[u8]) -> Result<Answer, Stop>
    requires element { HasElementLast terms.now }
    requires whole { AreWholeFields terms.now }
    requires plain { HasPlainRows terms.now.rows }
    ensures { (result ≡ Err OutOfMemory) ⊎ (result ≡ unparse_end terms.now text.now) }
{
    let events = match events_of_json(alloc, terms, text) {
        Ok(events) => events,
        Err(InfosetFault::Bad { cause, path }) => return Ok(Answer::NoInfoset { cause, path }),
        Err(InfosetFault::OutOfMemory) => return Err(Stop::OutOfMemory),
    };
    match laid(alloc, terms, &events) {
        Ok(unparsed) => Ok(answer_of(unparsed)),
        Err(_) => Err(Stop::OutOfMemory),
    }
}
