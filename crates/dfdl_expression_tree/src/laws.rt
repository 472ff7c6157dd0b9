// What the definitions say of trees, as laws. The calls do nothing.
ghost use Rattle.std.specs.Prelude.{◌≡◌, ℕ, List, [], ◌∷◌, Option};
ghost use Rattle.dfdl_expression_text.specs.Expressions.{ReadsBytes};
ghost use Rattle.dfdl_expression_tree.specs.declared.token.Operator.TheVariants.{Plus, Minus, Times};
ghost use Rattle.dfdl_expression_tree.specs.declared.node.Binary.TheVariants.{Operation};
ghost use Rattle.dfdl_expression_tree.specs.TokenLists.{Lie};
ghost use Rattle.dfdl_expression_tree.specs.Trees.{Formula, Two, Link, link, chained};
ghost use Rattle.dfdl_expression_tree.specs.Chains.{Groups};
ghost use Rattle.dfdl_expression_tree.specs.Readings.{ReadsTexts, tokens_of, tree_of};

use dfdl_expression_text::laws::texts_are_decided;

/// A chain's operators that bind more strongly stand below those that bind more weakly, and of one strength the earlier ones below
/// the later ones; there is one such tree.
pub fn chains_are_grouped_by_strength()
    ensures grouped { (first : Formula) (links : List Link) → Groups first links (chained first links) }
    ensures only { (first : Formula) (links : List Link) (t : Formula) → Groups first links t → t ≡ chained first links }
{}

/// `a - b - c` is `(a - b) - c`, and `a + b * c` is `a + (b * c)`.
pub fn small_chains()
    ensures left { (a b c : Formula) → chained a (link Minus b ∷ link Minus c ∷ []) ≡ Two (Operation Minus) (Two (Operation Minus) a b) c }
    ensures strong { (a b c : Formula) → chained a (link Plus b ∷ link Times c ∷ []) ≡ Two (Operation Plus) a (Two (Operation Times) b c) }
{}

/// However a text is read as an expression, its tokens are the same, and its tree is.
pub fn a_text_has_one_tree()
    ensures tokens { (bytes : List ℕ) (m n : ℕ) (first : ReadsBytes m bytes) (second : ReadsBytes n bytes)
        → tokens_of first ≡ tokens_of second }
    ensures tree { (bytes : List ℕ) (m n : ℕ) (first : ReadsBytes m bytes) (second : ReadsBytes n bytes)
        → tree_of first ≡ tree_of second }
{}

/// The tokens of a text stand in it one behind the other, none of them is empty, and each is told by its own bytes.
pub fn tokens_lie_in_their_text()
    ensures { (bytes : List ℕ) (count : ℕ) (reads : ReadsBytes count bytes) → Lie bytes 0 (tokens_of reads) }
{}

/// There is a function that reads each text as the tree that it has, or as no expression.
pub fn texts_are_read()
    ensures { (read : List ℕ → Option Formula) × ReadsTexts read }
{
    texts_are_decided();
}
