// The target namespaces of documents.
ghost use Rattle.std.specs.Prelude.{◌≡◌, ◌<◌, ◌^◌, suc, length, option_copied};
ghost use Rattle.dfdl_components.specs.Namespaces.{AreIncluders, includer_of, namespace_of, own_namespace};

use dfdl_constructs::plain;
use dfdl_documents::Documents;

/// The target namespace that a document has itself.
pub(crate) fn own_namespace(documents: &Documents, document: u32) -> Option<&str>
    requires { document < length documents.now }
    ensures { option_copied result ≡ own_namespace documents.now document }
{
    let tree = documents.tree(document as usize);
    if tree.count() == 0 {
        return None;
    }
    plain(tree, 0, "targetNamespace")
}

// The first document that includes another.
fn includer_of(documents: &Documents, includers: &[Option<u32>], document: u32) -> Option<u32>
    requires includers { AreIncluders documents.now includers.now }
    requires within { document < length documents.now }
    ensures { result ≡ includer_of documents.now document }
{
    let _ = documents;
    includers[document as usize]
}

/// The target namespace of a document, empty where it has none, by the first document that includes
/// each one.
pub(crate) fn namespace_of<'d>(
    documents: &'d Documents,
    includers: &[Option<u32>],
    document: u32,
) -> &'d str
    requires few { length documents.now < 2 ^ 32 }
    requires includers { AreIncluders documents.now includers.now }
    requires within { document < length documents.now }
    ensures { result.now ≡ namespace_of documents.now document }
{
    let mut outer = document;
    for _ in 0..documents.count() + 1 {
        if let Some(namespace) = own_namespace(documents, outer) {
            return namespace;
        }
        let Some(includer) = includer_of(documents, includers, outer) else {
            return "";
        };
        outer = includer;
    }
    ""
}
