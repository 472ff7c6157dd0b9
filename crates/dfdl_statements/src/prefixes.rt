// The names in an expression whose prefixes aren't declared.
ghost use Rattle.std.specs.Prelude.{◌≡◌, ◌<◌, length, option_map, IfSome};
ghost use Rattle.std.specs.List.{list_any};
ghost use Rattle.dfdl_expression_types.specs.Words as words;
ghost use Rattle.dfdl_statements.specs.Unbound as spec;

use dfdl_expression_tree::{Leaf, Node, Span, Tree, Unary};
use dfdl_expression_types::{Statics, word};

// A prefix is declared.
fn is_declared(statics: &Statics<'_>, prefix: &[u8]) -> bool
    ensures { result ≡ spec.is_declared statics.now prefix.now }
{
    match str::from_utf8(prefix) {
        Ok(prefix) => statics.prefixes.contains_key(prefix),
        Err(_) => false,
    }
}

// A prefix may stand before a name: it is declared, or it is that of functions, which needs no declaration.
fn is_known(statics: &Statics<'_>, prefix: &[u8]) -> bool
    ensures { result ≡ spec.is_known statics.now prefix.now }
{
    prefix == "fn".as_bytes() || is_declared(statics, prefix)
}

// The place of the first colon of a name.
fn colon_of(name: &[u8]) -> Option<usize>
    ensures place { result ≡ words.colon_of name.now }
    ensures within { IfSome result (λ place. place < length name.now) }
{
    name.iter().position(|b| *b == b':')
}

// The prefix of a name, if it has one.
fn prefix_of(name: &[u8]) -> Option<&[u8]>
    ensures { option_map (λ p. p.now) result ≡ words.prefix_of name.now }
{
    match colon_of(name) {
        Some(colon) => Some(&name[..colon]),
        None => None,
    }
}

// A name has a prefix that may not stand there.
fn is_unbound(statics: &Statics<'_>, name: &[u8]) -> bool
    ensures { result ≡ spec.is_unbound statics.now name.now }
{
    match prefix_of(name) {
        Some(prefix) => !is_known(statics, prefix),
        None => false,
    }
}

// The place of the name of a node, if it has one.
fn name_in(node: Node) -> Option<Span>
    ensures { result ≡ spec.name_in node }
{
    match node {
        Node::Leaf(leaf) => name_in_leaf(leaf),
        Node::Unary(unary, _) => name_in_unary(unary),
        Node::Binary(_, _, _) | Node::Choice(_, _, _) => None,
    }
}

fn name_in_leaf(leaf: Leaf) -> Option<Span>
    ensures { result ≡ spec.name_in_leaf leaf }
{
    match leaf {
        Leaf::Variable(name) => Some(name),
        Leaf::Number(_) | Leaf::Text(_) | Leaf::Context | Leaf::Root | Leaf::NoArguments => None,
    }
}

fn name_in_unary(unary: Unary) -> Option<Span>
    ensures { result ≡ spec.name_in_unary unary }
{
    match unary {
        Unary::Child(name) | Unary::Call(name) => Some(name),
        Unary::Here | Unary::Parent | Unary::Negative => None,
    }
}

// A node of the tree of a text has such a name.
fn is_unbound_in(statics: &Statics<'_>, text: &[u8], node: Node) -> bool
    ensures { result ≡ spec.is_unbound_in statics.now text.now node }
{
    match name_in(node) {
        Some(name) => is_unbound(statics, word(text, name)),
        None => false,
    }
}

/// A name in an expression has a prefix that isn't declared.
pub(crate) fn names_unbound(statics: &Statics<'_>, text: &str, tree: &Tree) -> bool
    ensures { result ≡ list_any (spec.is_unbound_in statics.now text.now) tree.now.nodes.items }
{
    for node in tree.nodes.as_slice() {
        if is_unbound_in(statics, text.as_bytes(), *node) {
            return true;
        }
    }
    false
}
