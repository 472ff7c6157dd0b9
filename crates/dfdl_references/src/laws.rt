// Laws of the definitions that the contracts cite. The calls do nothing.
ghost use Rattle.std.specs.Prelude.{◌≡◌, ℕ, List, true};
ghost use Rattle.dfdl_markup.specs.Trees.{Node};
ghost use Rattle.dfdl_scope.specs.Table.{is_property};
ghost use Rattle.dfdl_properties.specs.Own.{format_given_at, given_at};
ghost use Rattle.dfdl_references.specs.Agreeing.{IsWrittenAt};
ghost use Rattle.dfdl_references.specs.Writers.{own_writer, writer_in};

/// What a component or a format gives by itself is the value that the writer of the property writes, and where it gives none
/// there is no writer.
#[tactic(auto, using(crate::proofs::Agreement::own_agrees, crate::proofs::Agreement::format_agrees))]
pub fn writers_write_what_is_given()
    ensures own { (nodes : List Node) (name : List ℕ) (component : ℕ) → is_property name ≡ true
        → IsWrittenAt nodes name (given_at nodes component name) (own_writer nodes name component) }
    ensures format { (nodes : List Node) (name : List ℕ) (format : ℕ) → is_property name ≡ true
        → IsWrittenAt nodes name (format_given_at nodes format name) (writer_in nodes name format) }
{}
