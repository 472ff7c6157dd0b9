// The top call.
ghost use Rattle.std.specs.Prelude.{◌≡◌, map, string_bytes};
ghost use Rattle.dfdl_run.specs.Run.{IsRun};

use crate::Chooser;
use crate::deciding::decide;
use crate::delivery::finish;
use dfdl_documents::laws::loading_is_one;
use dfdl_edge::{Files, Patterns, Sink, Source};
use dfdl_expression_tree::laws::texts_are_read;
use std::alloc::Global;

/// One run of the program: the words of the command, the files, the data on `source`, the answer on
/// `out` and the notes. The patterns of lengths are built by `patterns`. The result is the exit status.
pub fn run<S: Source, K: Sink, N: Sink, F: Files, C: Chooser, P: Patterns>(
    alloc: Global,
    words: &[String],
    files: &mut F,
    source: &mut S,
    out: &mut K,
    notes: &mut N,
    chooser: &mut C,
    patterns: &mut P,
) -> u8
    ensures run { IsRun (map string_bytes words.now)
        (record {
          inputs = record {
            files = F.seen files.old;
            source = S.seen source.old;
            patterns = record { faults = P.faults patterns.old; last = P.last_refused patterns.old };
          };
          outputs = record { out = K.seen out.old; notes = N.seen notes.old };
        })
        (record {
          inputs = record {
            files = F.seen files.new;
            source = S.seen source.new;
            patterns = record { faults = P.faults patterns.new; last = P.last_refused patterns.new };
          };
          outputs = record { out = K.seen out.new; notes = N.seen notes.new };
        }) result }

    // Nothing is chosen.
    ensures chooser { chooser.new ≡ chooser.old }
{
    loading_is_one();
    texts_are_read();
    let _ = chooser;
    let end = decide(alloc, words, files, source, patterns);
    finish(alloc, out, notes, &end)
}
