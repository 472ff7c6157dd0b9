// What the definitions come to, as laws. The calls do nothing.
ghost use Rattle.std.specs.Prelude.{◌≡◌, ◌⊎◌, ℕ, List, Some, None};
ghost use Rattle.dfdl_edge.specs.Files.{FilesSeen};
ghost use Rattle.dfdl_markup.specs.Documents.{IsTreeOf};
ghost use Rattle.dfdl_markup.specs.Trees.{Node};
ghost use Rattle.dfdl_documents.specs.declared.fault.DocumentsFault.{DocumentsFault};
ghost use Rattle.dfdl_documents.specs.Documents.{SchemaDocument};
ghost use Rattle.dfdl_documents.specs.Loading.{AreLoaded};
ghost use Rattle.dfdl_documents.specs.Faults.{EndsBy, Request};
ghost use Rattle.dfdl_documents.specs.Told.{AreTold, IsDue, IsUntold};

use dfdl_markup::laws::{documents_are_read, refusals_are_one};

/// The bytes of a document have one tree.
pub fn trees_are_one()
    ensures { (bytes : List ℕ) (a b : List Node) → IsTreeOf bytes a → IsTreeOf bytes b → a ≡ b }
{
    documents_are_read();
    refusals_are_one();
}

/// Where it is told what files are, a schema has one list of documents, or one fault is due; and
/// the loading answers the one or the other, unless a load fails or memory is wanted.
pub fn loading_is_one()
    ensures documents { (files : FilesSeen) (asked : Request) (a b : List SchemaDocument)
        → AreLoaded files asked.most asked.schemas asked.first a
        → AreLoaded files asked.most asked.schemas asked.first b → AreTold files b → a ≡ b }
    ensures no_fault_due { (files : FilesSeen) (asked : Request) (a : List SchemaDocument)
        (due : DocumentsFault) → AreLoaded files asked.most asked.schemas asked.first a
        → IsDue files asked due → ⊥ }
    ensures no_fault { (before after : FilesSeen) (asked : Request) (fault : DocumentsFault)
        (b : List SchemaDocument) → EndsBy before after asked fault
        → AreLoaded before asked.most asked.schemas asked.first b → AreTold before b
        → IsUntold fault }
    ensures fault_due { (before after : FilesSeen) (asked : Request) (fault due : DocumentsFault)
        → EndsBy before after asked fault → IsDue before asked due
        → (fault ≡ due) ⊎ IsUntold fault }
{
    trees_are_one();
    refusals_are_one();
}
