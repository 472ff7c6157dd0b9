// What the machine that builds a tree tells of the characters and bytes of a document, as laws. The
// calls do nothing.
#![tactic(auto)]

ghost use Rattle.std.specs.Prelude.{◌≡◌, ◌<◌, ℕ, List, true, false, Ok, Err, length, take, get_or};
ghost use Rattle.dfdl_layers.specs.Causes.{IsRefused};
ghost use Rattle.dfdl_layers.specs.Bytes.{Inside};
ghost use Rattle.dfdl_layers.specs.Tellers.{run};
ghost use Rattle.dfdl_markup.specs.Building.{Reader, build_start, build_step};
ghost use Rattle.dfdl_markup.specs.Building.{read_accepts, read_start, read_step};
ghost use Rattle.dfdl_markup.specs.Documents.{IsRefusedBy, IsTreeOf, KeepsRules};
ghost use Rattle.dfdl_markup.specs.Grammar.{Document};
ghost use Rattle.dfdl_markup.specs.Machine.{start, step};
ghost use Rattle.dfdl_markup.specs.Rules.{IsDocument};
ghost use Rattle.dfdl_markup.specs.Trees.{Node, document_nodes};

/// Where the reader refuses a byte, no document goes on, and the rule that it tells is the one that
/// is broken there; where the bytes end too early for it, no document ends; and where it accepts
/// them they are a document with the tree that it has built, and have no other.
pub fn documents_are_read()
    ensures refused { (bytes : List ℕ) (at : ℕ) (i : Inside Reader) (rule : ℕ) → at < length bytes
        → run read_step read_start (take at bytes) ≡ Ok i
        → read_step i (get_or bytes at 0) ≡ Err rule
        → IsRefused KeepsRules 13 bytes at rule }
    ensures ends { (bytes : List ℕ) (i : Inside Reader) → run read_step read_start bytes ≡ Ok i
        → read_accepts i ≡ false → IsRefused KeepsRules 13 bytes (length bytes) 13 }
    ensures tree { (bytes : List ℕ) (i : Inside Reader) → run read_step read_start bytes ≡ Ok i
        → read_accepts i ≡ true → IsTreeOf bytes i.state.built.nodes }
    ensures only { (bytes : List ℕ) (i : Inside Reader) → run read_step read_start bytes ≡ Ok i
        → read_accepts i ≡ true → (nodes : List Node) → IsTreeOf bytes nodes
        → nodes ≡ i.state.built.nodes }
{}

/// The tree that is built while the characters of a document are read is the document's.
pub fn tree_is_built()
    ensures { (document : Document) (characters : List ℕ) → IsDocument 13 document characters
        → (r : Reader) → run build_step build_start characters ≡ Ok r
        → r.built.nodes ≡ document_nodes document }
{}

/// The machine with the tree goes on as the machine alone does, and tells the same rules.
pub fn built_runs()
    ensures goes { (characters : List ℕ) (r : Reader)
        → run build_step build_start characters ≡ Ok r → run step start characters ≡ Ok r.state }
    ensures tells { (characters : List ℕ) (rule : ℕ)
        → run build_step build_start characters ≡ Err rule
        → run step start characters ≡ Err rule }
{}

/// A refusal has one place and one cause, and what is refused has no tree.
pub fn refusals_are_one()
    ensures one { (bytes : List ℕ) (a b n m : ℕ) → IsRefusedBy bytes a n → IsRefusedBy bytes b m
        → (a ≡ b) × (n ≡ m) }
    ensures no_tree { (bytes : List ℕ) (at n : ℕ) (nodes : List Node) → IsRefusedBy bytes at n
        → IsTreeOf bytes nodes → ⊥ }
{}
