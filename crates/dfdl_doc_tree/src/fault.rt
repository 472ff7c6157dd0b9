// Why bytes give no tree.
ghost use Rattle.std.specs.Prelude.{◌≡◌, ◌<◌, ◌≤◌, length};
ghost use Rattle.dfdl_report.specs.Causes.{document_number};
ghost use Rattle.dfdl_markup.specs.Documents.{cause_number, is_document_type};
ghost use Rattle.dfdl_doc_tree.specs.Shown.{rule_number};
ghost use Rattle.dfdl_doc_tree.specs.declared.fault.DocFault.TheVariants.{OutOfMemory};

use crate::rule::Rule;
use dfdl_report::DocCause;
use std::alloc::AllocError;

/// Why bytes give no tree.
#[derive(Clone, Copy, Debug, PartialEq, Eq)]
pub enum DocFault {
    /// The bytes are no document: at this byte none can go on, by this cause.
    Bad { cause: DocCause, at: u64 },
    /// There is no memory for the tree, or it has 2^32 - 1 elements, roots or attributes of one
    /// element.
    OutOfMemory,
}

impl From<AllocError> for DocFault {
    ghost from_gives = { λ _ e. e ≡ OutOfMemory };

    fn from(_error: AllocError) -> DocFault {
        DocFault::OutOfMemory
    }
}

/// A document type declaration begins two bytes before this place.
fn is_document_type(bytes: &[u8], at: usize) -> bool
    requires { at ≤ length bytes.now }
    ensures { result ≡ is_document_type bytes.now at }
{
    at >= 2 && bytes[at - 2..].starts_with(b"<!DOCTYPE")
}

/// The cause that a broken rule is told as.
pub fn cause_of(bytes: &[u8], at: usize, rule: Rule) -> DocCause
    requires { at ≤ length bytes.now }
    ensures { document_number result ≡ cause_number bytes.now at (rule_number rule) }
{
    match rule {
        Rule::Utf8 => DocCause::NotUtf8,
        Rule::Allowed | Rule::Referred => DocCause::CharacterNotAllowed,
        Rule::Syntax if is_document_type(bytes, at) => DocCause::DocumentType,
        Rule::Syntax => DocCause::Malformed,
        Rule::EndTag => DocCause::EndTagMismatch,
        Rule::Attribute => DocCause::AttributeTwice,
        Rule::Entity => DocCause::UnknownReference,
        Rule::Prefix => DocCause::PrefixNotDeclared,
        Rule::Encoding => DocCause::EncodingRefused,
        Rule::Root => DocCause::OneRoot,
        Rule::Depth => DocCause::TooDeep,
        Rule::End => DocCause::DocumentEnds,
    }
}
