// What a run comes to, before anything is written.
ghost use Rattle.std.specs.Prelude.{◌≡◌, ◌<◌, ◌+◌, ◌^◌, map, string_bytes};
ghost use Rattle.dfdl_compile.specs.Settling.{Free};
ghost use Rattle.dfdl_terms.specs.Rows.{HasElementLast, HasPlainRows};
ghost use Rattle.dfdl_pieces.specs.Whole.{AreWholeFields};
ghost use Rattle.dfdl_run.specs.Decided.{Decided, IsReadEnd};
ghost use Rattle.dfdl_run.specs.Sources.{source_stop};
ghost use Rattle.dfdl_run.specs.declared.command.Verb.TheVariants.{Parse, Unparse};

use crate::answer::Answer;
use crate::command::{Verb, command_of};
use crate::loading::{limit, load_terms};
use crate::parsing::parse;
use crate::reading::parsed;
use crate::stop::Stop;
use crate::unparsing::unparse;
use dfdl_edge::{Files, Patterns, Source, SourceFault, read_to_limit};
use dfdl_report::LimitCause;
use dfdl_terms::Terms;
use std::alloc::Global;
use std::marker::Brand;
use std::sync::ledger::Blank;

/// The most bytes that are read of the source.
pub const MOST_INPUT: u64 = 1 << 30;

// What stops a run whose source is not read to its end.
fn stop_of(fault: SourceFault) -> Stop
    ensures { result ≡ source_stop fault }
{
    match fault {
        SourceFault::Failed => Stop::SourceFailed,
        SourceFault::TooLarge => limit(LimitCause::Input, MOST_INPUT),
        SourceFault::OutOfMemory => Stop::OutOfMemory,
    }
}

// What the source comes to as data, which are parsed while they are read.
fn parse_source<S: Source>(alloc: Global, source: &mut S, terms: &Terms) -> Result<Answer, Stop>
    ensures { IsReadEnd Parse terms.now (S.seen source.old) (S.seen source.new) result }
{
    match parsed::<S, Brand>(alloc, source, terms, MOST_INPUT, Blank::new(1)) {
        Ok(feeding) => parse(alloc, terms, &feeding),
        Err(fault) => Err(stop_of(fault)),
    }
}

// What the source comes to as an infoset, which is read whole.
fn unparse_source<S: Source>(alloc: Global, source: &mut S, terms: &Terms) -> Result<Answer, Stop>
    requires element { HasElementLast terms.now }
    requires whole { AreWholeFields terms.now }
    requires plain { HasPlainRows terms.now.rows }
    ensures { IsReadEnd Unparse terms.now (S.seen source.old) (S.seen source.new) result }
{
    match read_to_limit(alloc, source, MOST_INPUT) {
        Ok(bytes) => unparse(alloc, terms, &bytes),
        Err(fault) => Err(stop_of(fault)),
    }
}

// What the source comes to.
fn read_answer<S: Source>(
    alloc: Global,
    source: &mut S,
    verb: Verb,
    terms: &Terms,
) -> Result<Answer, Stop>
    requires element { HasElementLast terms.now }
    requires whole { verb ≡ Unparse → AreWholeFields terms.now }
    requires plain { verb ≡ Unparse → HasPlainRows terms.now.rows }
    ensures { IsReadEnd verb terms.now (S.seen source.old) (S.seen source.new) result }
{
    match verb {
        Verb::Parse => parse_source(alloc, source, terms),
        Verb::Unparse => unparse_source(alloc, source, terms),
    }
}

// What a run comes to.
pub(crate) fn decide<S: Source, F: Files, P: Patterns>(
    alloc: Global,
    words: &[String],
    files: &mut F,
    source: &mut S,
    patterns: &mut P,
) -> Result<Answer, Stop>
    ensures { (free : Free) × Decided (map string_bytes words.now) free
        (record {
          files = F.seen files.old;
          source = S.seen source.old;
          patterns = record { faults = P.faults patterns.old; last = P.last_refused patterns.old };
        })
        (record {
          files = F.seen files.new;
          source = S.seen source.new;
          patterns = record { faults = P.faults patterns.new; last = P.last_refused patterns.new };
        }) result }
{
    let command = match command_of(words) {
        Ok(command) => command,
        Err(at) => return Err(usage(at)),
    };
    match load_terms(alloc, files, patterns, command.verb, command.schema) {
        Ok(terms) => read_answer(alloc, source, command.verb, &terms),
        Err(stop) => Err(stop),
    }
}

// What stops a run where no command goes on at this word, counted from 0.
fn usage(at: usize) -> Stop
    requires { at < 2 ^ 63 }
    ensures { result ≡ Stop.Usage (at + 1) }
{
    Stop::Usage {
        word: at as u64 + 1,
    }
}
