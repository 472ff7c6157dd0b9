// What parsed data come to.
ghost use Rattle.std.specs.Prelude.{◌≡◌, ◌⊎◌, ◌+◌, ◌*◌, ◌^◌, ◌≤◌, ℕ, List, nat_le, if◌then◌else◌, Err, IfOk, Ok, string_bytes};
ghost use Rattle.dfdl_run.specs.Fed.{HasCome, HasEnded};
ghost use Rattle.dfdl_run.specs.Meaning.{parse_end};
ghost use Rattle.dfdl_run.specs.Said.{said_of, test_in};
ghost use Rattle.dfdl_terms.specs.Messages.{message_of};
ghost use Rattle.dfdl_run.specs.declared.answer.Answer.TheVariants.{Done, LeftOver};
ghost use Rattle.dfdl_run.specs.declared.stop.Stop.TheVariants.{OutOfMemory};

use crate::answer::Answer;
use crate::feeding::Feeding;
use crate::loading::limit;
use crate::stop::Stop;
use dfdl_grammar::laws::documents_have_texts;
use dfdl_json::line_of;
use dfdl_parse::Outcome;
use dfdl_report::ParseCause;
use dfdl_terms::Terms;
use dfdl_value::TextValue;
use std::alloc::{AllocError, Global};

// The answer where a document was read up to a bit, of so many bytes of data.
fn answer_of(line: TextValue, bit: u64, bytes: u64) -> Answer
    requires { bytes ≤ 2 ^ 60 }
    ensures { result ≡ (if nat_le (bit + 8) (8 * bytes) then LeftOver line bit else Done line) }
{
    let left = (8 * bytes).saturating_sub(bit);
    if left >= 8 {
        Answer::LeftOver { line, bit }
    } else {
        Answer::Done { line }
    }
}

// What data come to of which the session has taken all.
pub(crate) fn parse(alloc: Global, terms: &Terms, feeding: &Feeding<'_>) -> Result<Answer, Stop>
    requires few { feeding.now.count ≤ 2 ^ 60 }
    requires come { HasCome terms.now feeding.now }
    ensures { (bytes : List ℕ) → HasEnded terms.now feeding.now bytes
        → (result ≡ Err OutOfMemory) ⊎ (result ≡ parse_end terms.now bytes) }
{
    let session = &feeding.session;
    let _rows = terms.rows();
    documents_have_texts();
    match session.outcome() {
        Outcome::Done => match line_of(alloc, terms, session.nodes(), session.text()) {
            Ok(line) => Ok(answer_of(line, session.position(), feeding.count)),
            Err(_) => Err(Stop::OutOfMemory),
        },
        Outcome::Failed { cause, bit } => match session.path(alloc) {
            Ok(path) => failed(alloc, terms, cause, bit, path),
            Err(_) => Err(Stop::OutOfMemory),
        },
        Outcome::Limit { cause, quantity } => Err(limit(cause, quantity)),
        Outcome::Variable { cause, bit } => match session.path(alloc) {
            Ok(path) => Ok(Answer::Variable {
                cause,
                bit,
                path: TextValue::from_string(path),
            }),
            Err(_) => Err(Stop::OutOfMemory),
        },
        Outcome::Open | Outcome::OutOfMemory => Err(Stop::OutOfMemory),
    }
}

// The answer of a processing error, with what the schema says of the test that fails.
fn failed(
    alloc: Global,
    terms: &Terms,
    cause: ParseCause,
    bit: u64,
    path: String,
) -> Result<Answer, Stop>
    ensures { (result ≡ Err OutOfMemory) ⊎ (result ≡ Ok (Answer.Failed cause bit (string_bytes path) (said_of terms.now cause))) }
{
    match said(alloc, terms, cause) {
        Ok(message) => Ok(Answer::Failed {
            cause,
            bit,
            path: TextValue::from_string(path),
            message,
        }),
        Err(_) => Err(Stop::OutOfMemory),
    }
}

// What the schema says of the test that fails, if one does.
fn said(alloc: Global, terms: &Terms, cause: ParseCause) -> Result<Option<TextValue>, AllocError>
    ensures { IfOk result (λ message. message ≡ said_of terms.now cause) }
{
    match test_in(cause) {
        Some(test) => message_of(alloc, terms, test),
        None => Ok(None),
    }
}

// What the schema says of the test of a number, if it says anything.
fn message_of(alloc: Global, terms: &Terms, test: u32) -> Result<Option<TextValue>, AllocError>
    ensures { IfOk result (λ message. message ≡ message_of terms.now test) }
{
    match terms.message(test) {
        Some(message) => Ok(Some(TextValue::from_str(alloc, message)?)),
        None => Ok(None),
    }
}

// The number of the test that fails, if one does.
fn test_in(cause: ParseCause) -> Option<u32>
    ensures { result ≡ test_in cause }
{
    match cause {
        ParseCause::AssertionFalse { test } => Some(test),
        ParseCause::DiscriminatorFalse { test } => Some(test),
        _ => None,
    }
}
