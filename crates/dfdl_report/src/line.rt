// The lines of standard error.
ghost use Rattle.std.specs.Prelude.{◌≡◌, IfOk, string_bytes};
ghost use Rattle.dfdl_report.specs.Lines.{document_line};
ghost use Rattle.dfdl_report.specs.Lines.{files_line, infoset_line, left_over_line, limit_line, memory_line};
ghost use Rattle.dfdl_report.specs.Lines.{fault_line, parse_line, schema_line, sink_line, source_line, test_line, unparse_fault_line, unparse_line, usage_line};
ghost use Rattle.dfdl_report.specs.Lines.{variable_line};

use crate::cause::{
    DocCause, InfosetCause, LimitCause, ParseCause, SchemaCause, UnparseCause, VariableCause,
};
use std::alloc::{AllocError, Global};

/// A processing error that began at this bit, in the element of this path.
pub fn of_parse(
    alloc: Global,
    cause: ParseCause,
    bit: u64,
    path: &str,
) -> Result<String, AllocError>
    ensures { IfOk result (λ line. string_bytes line ≡ parse_line cause bit path.now) }
{
    let number = cause.number();
    let text = cause.text();
    format!(in alloc; "error P{number} at bit {bit} in {path}: {text}\n")
}

/// A test that fails at this bit, in the element of this path, with what the schema says of it.
pub fn of_test(
    alloc: Global,
    cause: ParseCause,
    bit: u64,
    path: &str,
    message: &str,
) -> Result<String, AllocError>
    ensures { IfOk result (λ line. string_bytes line ≡ test_line cause bit path.now message.now) }
{
    let number = cause.number();
    let text = cause.text();
    format!(in alloc; "error P{number} at bit {bit} in {path}: {text}: {message}\n")
}

/// An expression at this bit, in the element of this path, that has no value for the reason of a number.
pub fn of_fault(
    alloc: Global,
    cause: ParseCause,
    bit: u64,
    path: &str,
    fault: u8,
) -> Result<String, AllocError>
    ensures { IfOk result (λ line. string_bytes line ≡ fault_line cause bit path.now fault) }
{
    let number = cause.number();
    let text = cause.text();
    format!(in alloc; "error P{number} at bit {bit} in {path}: {text} (E{fault})\n")
}

/// A variable that is set at this bit, in the element of this path, and can't be.
pub fn of_variable(
    alloc: Global,
    cause: VariableCause,
    bit: u64,
    path: &str,
) -> Result<String, AllocError>
    ensures { IfOk result (λ line. string_bytes line ≡ variable_line cause bit path.now) }
{
    let number = cause.number();
    let text = cause.text();
    format!(in alloc; "error V{number} at bit {bit} in {path}: {text}\n")
}

/// An unparse error in the element of this path.
pub fn of_unparse(alloc: Global, cause: UnparseCause, path: &str) -> Result<String, AllocError>
    ensures { IfOk result (λ line. string_bytes line ≡ unparse_line cause path.now) }
{
    let number = cause.number();
    let text = cause.text();
    format!(in alloc; "error U{number} in {path}: {text}\n")
}

/// An expression in the element of this path that has no value when unparsing, for the reason of a number.
pub fn of_unparse_fault(
    alloc: Global,
    cause: UnparseCause,
    path: &str,
    fault: u8,
) -> Result<String, AllocError>
    ensures { IfOk result (λ line. string_bytes line ≡ unparse_fault_line cause path.now fault) }
{
    let number = cause.number();
    let text = cause.text();
    format!(in alloc; "error U{number} in {path}: {text} (E{fault})\n")
}

/// A refusal of a schema, at this byte of the document of this name.
pub fn of_schema(
    alloc: Global,
    cause: SchemaCause,
    document: &str,
    at: u64,
) -> Result<String, AllocError>
    ensures { IfOk result (λ line. string_bytes line ≡ schema_line cause document.now at) }
{
    let number = cause.number();
    let text = cause.text();
    format!(in alloc; "error C{number} at {document}:{at}: {text}\n")
}

/// A refusal of the document of this name, at this byte.
pub fn of_document(
    alloc: Global,
    cause: DocCause,
    document: &str,
    at: u64,
) -> Result<String, AllocError>
    ensures { IfOk result (λ line. string_bytes line ≡ document_line cause document.now at) }
{
    let number = cause.number();
    let text = cause.text();
    format!(in alloc; "error X{number} at {document}:{at}: {text}\n")
}

/// A refusal of an infoset in the element of this path.
pub fn of_infoset(alloc: Global, cause: InfosetCause, path: &str) -> Result<String, AllocError>
    ensures { IfOk result (λ line. string_bytes line ≡ infoset_line cause path.now) }
{
    let number = cause.number();
    let text = cause.text();
    format!(in alloc; "error I{number} in {path}: {text}\n")
}

/// Words that are no command from this word on, counted from 1.
pub fn of_usage(alloc: Global, word: u64) -> Result<String, AllocError>
    ensures { IfOk result (λ line. string_bytes line ≡ usage_line word) }
{
    format!(in alloc; "usage: word {word}\n")
}

/// Data that is left from this bit on.
pub fn of_left_over(alloc: Global, bit: u64) -> Result<String, AllocError>
    ensures { IfOk result (λ line. string_bytes line ≡ left_over_line bit) }
{
    format!(in alloc; "left over data at bit {bit}\n")
}

/// A limit that was reached, with its number in force.
pub fn of_limit(alloc: Global, cause: LimitCause, quantity: u64) -> Result<String, AllocError>
    ensures { IfOk result (λ line. string_bytes line ≡ limit_line cause quantity) }
{
    let number = cause.number();
    format!(in alloc; "limit L{number} of {quantity} reached\n")
}

/// The file of this name was not loaded.
pub fn of_files(alloc: Global, name: &str) -> Result<String, AllocError>
    ensures { IfOk result (λ line. string_bytes line ≡ files_line name.now) }
{
    format!(in alloc; "files failed: {name}\n")
}

/// A call on the source failed.
pub fn of_source() -> &'static str
    ensures { result.now ≡ source_line }
{
    "source failed\n"
}

/// A call on a sink failed.
pub fn of_sink() -> &'static str
    ensures { result.now ≡ sink_line }
{
    "sink failed\n"
}

/// Memory was not to be had. The line takes none.
pub fn of_memory() -> &'static str
    ensures { result.now ≡ memory_line }
{
    "out of memory\n"
}
