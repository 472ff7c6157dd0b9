// The writing of an end.
ghost use Rattle.std.specs.Prelude.{◌≡◌, IfOk, IsOk, OnOk, OnErr, IsErr, IsTrue, string_bytes};
ghost use Rattle.dfdl_edge.specs.Faults.{Rose};
ghost use Rattle.dfdl_edge.specs.Sink.{Adds, AddsFront};
ghost use Rattle.dfdl_pieces.specs.Pieces.{joined};
ghost use Rattle.dfdl_run.specs.Answer.{answer_bytes, is_written, note_of, status_of, written_of};
ghost use Rattle.dfdl_run.specs.Expects.{Tells};
ghost use Rattle.dfdl_run.specs.Finished.{Finished, Writes};

use crate::answer::Answer;
use crate::stop::Stop;
use dfdl_edge::{Failed, Sink};
use dfdl_pieces::PieceList;
use dfdl_report::{Status, line};
use std::alloc::{AllocError, Global};

// Writes pieces, each at once.
fn write_pieces<K: Sink>(out: &mut K, pieces: &PieceList) -> Result<(), Failed>
    ensures ok { OnOk result (Adds (K.seen out.old).taken (joined pieces.now) (K.seen out.new).taken) }
    ensures err { OnErr result (AddsFront (K.seen out.old).taken (joined pieces.now) (K.seen out.new).taken) }
    ensures cause { IsErr result → Rose (K.seen out.old).faults (K.seen out.new).faults }
    ensures still { IsOk result → (K.seen out.new).faults ≡ (K.seen out.old).faults }
{
    for piece in pieces.as_slice() {
        let written = out.write(piece.as_slice());
        if written.is_err() {
            return written;
        }
    }
    Ok(())
}

// Writes what an answer writes to `out`.
fn write_answer<K: Sink>(out: &mut K, answer: &Answer) -> Result<(), Failed>
    ensures ok { OnOk result (Adds (K.seen out.old).taken (answer_bytes answer.now) (K.seen out.new).taken) }
    ensures err { OnErr result (AddsFront (K.seen out.old).taken (answer_bytes answer.now) (K.seen out.new).taken) }
    ensures cause { IsErr result → Rose (K.seen out.old).faults (K.seen out.new).faults }
    ensures still { IsOk result → (K.seen out.new).faults ≡ (K.seen out.old).faults }
    ensures writes { IsErr result → IsTrue (is_written answer.now) }
{
    match answer {
        Answer::Done { line } => out.write(line.as_str().as_bytes()),
        Answer::LeftOver { line, .. } => out.write(line.as_str().as_bytes()),
        Answer::Unparsed { pieces } => write_pieces(out, pieces),
        Answer::NotUnparsed { pieces, .. } => write_pieces(out, pieces),
        _ => Ok(()),
    }
}

// Writes what is written to `out` at an end.
fn write_end<K: Sink>(out: &mut K, end: &Result<Answer, Stop>) -> Result<(), Failed>
    ensures ok { OnOk result (Adds (K.seen out.old).taken (written_of end.now) (K.seen out.new).taken) }
    ensures err { OnErr result (AddsFront (K.seen out.old).taken (written_of end.now) (K.seen out.new).taken) }
    ensures cause { IsErr result → Rose (K.seen out.old).faults (K.seen out.new).faults }
    ensures still { IsOk result → (K.seen out.new).faults ≡ (K.seen out.old).faults }
    ensures writes { IsErr result → Writes end.now }
{
    match end {
        Ok(answer) => write_answer(out, answer),
        Err(_) => Ok(()),
    }
}

// Tells a line on the notes. A failure of the notes changes nothing else.
fn tell<N: Sink>(notes: &mut N, note: &str)
    ensures { Tells note.now (N.seen notes.old) (N.seen notes.new) }
{
    if note.is_empty() {
        return;
    }
    let _ = notes.write(note.as_bytes());
}

// The exit status of an end.
fn number_of(end: &Result<Answer, Stop>) -> u8
    ensures { result ≡ status_of end.now }
{
    match end {
        Ok(answer) => answer.status().number(),
        Err(stop) => stop.status().number(),
    }
}

// The line on the notes of an end.
fn line_of(alloc: Global, end: &Result<Answer, Stop>) -> Result<String, AllocError>
    ensures { IfOk result (λ note. string_bytes note ≡ note_of end.now) }
{
    match end {
        Ok(answer) => answer.note(alloc),
        Err(stop) => stop.note(alloc),
    }
}

// Writes an end and tells its note. The exit status is that of the end, or of a failed write.
fn deliver<K: Sink, N: Sink>(
    out: &mut K,
    notes: &mut N,
    end: &Result<Answer, Stop>,
    note: &str,
) -> u8
    requires { note.now ≡ note_of end.now }
    ensures { Finished end.now (record { out = K.seen out.old; notes = N.seen notes.old })
        (record { out = K.seen out.new; notes = N.seen notes.new }) result }
{
    if write_end(out, end).is_err() {
        tell(notes, line::of_sink());
        return Status::SinkFailed.number();
    }
    tell(notes, note);
    number_of(end)
}

// Ends a run so. The note is made before anything is written.
pub(crate) fn finish<K: Sink, N: Sink>(
    alloc: Global,
    out: &mut K,
    notes: &mut N,
    end: &Result<Answer, Stop>,
) -> u8
    ensures { Finished end.now (record { out = K.seen out.old; notes = N.seen notes.old })
        (record { out = K.seen out.new; notes = N.seen notes.new }) result }
{
    match line_of(alloc, end) {
        Ok(note) => deliver(out, notes, end, note.as_str()),
        Err(_) => {
            tell(notes, line::of_memory());
            Status::OutOfMemory.number()
        }
    }
}
