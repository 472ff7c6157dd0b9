// The tree of a document's bytes.
ghost use Rattle.std.specs.Prelude.{◌≡◌, ◌≤◌, List, IfOk, drop, length};
ghost use Rattle.dfdl_report.specs.Causes.{document_number};
ghost use Rattle.dfdl_markup.specs.Trees.{Node};
ghost use Rattle.dfdl_markup.specs.Documents.{IsRefusedBy, IsTreeOf};
ghost use Rattle.dfdl_doc_tree.specs.Faults.{IfBad, IsFaultOf};

use crate::fault::{DocFault, cause_of};
use crate::reader::Reader;
use crate::rule::{Refusal, Rule};
use dfdl_markup::laws::documents_are_read;
use dfdl_xml_tree::Tree;
use std::alloc::Global;

/// The fault that a refusal at this place is.
fn fault_of(bytes: &[u8], at: usize, refusal: Refusal) -> DocFault
    requires { at ≤ length bytes.now }
    ensures { IsFaultOf bytes.now at refusal result }
{
    match refusal {
        Refusal::Broken(rule) => DocFault::Bad {
            cause: cause_of(bytes, at, rule),
            at: at as u64,
        },
        Refusal::OutOfMemory => DocFault::OutOfMemory,
    }
}

/// The bytes from this place on.
#[tactic(auto, using(std::proofs::lemmas::List::take_rest))]
fn from_place(bytes: &[u8], at: usize) -> &[u8]
    requires { at ≤ length bytes.now }
    ensures { result.now ≡ drop at bytes.now }
{
    &bytes[at..]
}

/// The tree of a document's bytes.
pub fn read(alloc: Global, bytes: &[u8]) -> Result<Tree, DocFault>
    ensures tree { IfOk result (λ tree. IsTreeOf bytes.now tree) }
    ensures only { (nodes : List Node) → IsTreeOf bytes.now nodes → IfOk result (λ tree. tree ≡ nodes) }
    ensures refused { IfBad result (λ cause at. IsRefusedBy bytes.now at (document_number cause)) }
{
    documents_are_read();
    let mut reader = Reader::new(alloc);
    let mut at = 0;
    while at < bytes.len() {
        match reader.read_on(from_place(bytes, at)) {
            Ok(count) => at += count,
            Err(refusal) => return Err(fault_of(bytes, at, refusal)),
        }
    }
    if reader.accepts() {
        Ok(reader.finish())
    } else {
        let refusal = Refusal::Broken(Rule::End);
        Err(fault_of(bytes, bytes.len(), refusal))
    }
}
