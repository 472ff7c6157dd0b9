ghost use Rattle.std.specs.Prelude.{◌≡◌, IfOk, IfErr, MatchOption, Some, None};
ghost use Rattle.dfdl_expression_text.specs.Expressions.{IsFaultOf};
ghost use Rattle.dfdl_expression_tree.specs.Numbering.{planted};
ghost use Rattle.dfdl_expression_tree.specs.Readings.{HasTokens, HasTree};

use crate::building::cells_of;
use crate::lexing::tokens_of;
use crate::node::{Node, Tree};
use crate::numbering::nodes_of;
use crate::token::Token;
use dfdl_expression_text::{ExpressionFault, check};
use std::alloc::{AllocError, Global};

/// The tokens of a text that is an expression, in their order; the text is UTF-8, and places are numbers of bytes.
///
/// `Malformed` has the number of the first byte at which no expression can go on, as that of dfdl_expression_text's `check`.
pub fn tokens(alloc: Global, text: &str) -> Result<Vec<Token>, ExpressionFault>
    ensures tokens { IfOk result (λ tokens. HasTokens text.now tokens.items) }
    ensures place { IfErr result (λ fault. IsFaultOf text.now fault) }
{
    check(alloc, text)?;
    Ok(tokens_of(alloc, text.as_bytes())?)
}

/// The nodes of the tree of these tokens, if they are those of an expression.
fn planted(alloc: Global, tokens: &[Token]) -> Result<Option<Vec<Node>>, AllocError>
    ensures { IfOk result (λ nodes. MatchOption nodes (planted tokens.now ≡ None) (λ found. planted tokens.now ≡ Some found.items)) }
{
    match cells_of(alloc, tokens)? {
        Some(cells) => nodes_of(alloc, &cells),
        None => Ok(None),
    }
}

/// The syntax tree of a text that is an expression.
///
/// Its leaves have the places of what is written, as numbers of bytes of the text, which is UTF-8. `Malformed` has the number of the
/// first byte at which no expression can go on, as that of dfdl_expression_text's `check`.
pub fn parse(alloc: Global, text: &str) -> Result<Tree, ExpressionFault>
    ensures tree { IfOk result (λ tree. HasTree text.now tree.nodes.items) }
    ensures place { IfErr result (λ fault. IsFaultOf text.now fault) }
{
    let tokens = tokens(alloc, text)?;
    match planted(alloc, &tokens)? {
        Some(nodes) => Ok(Tree { nodes }),
        None => unreachable!(),
    }
}
