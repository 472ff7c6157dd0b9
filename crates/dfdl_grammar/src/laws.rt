// Laws of the definitions that the contracts cite. The calls do nothing.
ghost use Rattle.std.specs.Prelude.{◌≡◌, ◌<◌, ℕ, Bool, List, All};
ghost use Rattle.dfdl_report.specs.declared.cause.ParseCause.{ParseCause};
ghost use Rattle.dfdl_looks.specs.Tallies.{Tally};
ghost use Rattle.dfdl_terms.specs.Rows.{IsPrimitive, NamesWithin, Nests, Table, named_by};
ghost use Rattle.dfdl_vars.specs.Marks.{LeadsBack};
ghost use Rattle.dfdl_region.specs.Texts.{HaveTexts};
ghost use Rattle.dfdl_grammar.specs.declared.instead.Instead.{Instead};
ghost use Rattle.dfdl_grammar.specs.declared.limits.Limits.{Limits};
ghost use Rattle.dfdl_grammar.specs.Delimiters.{markup};
ghost use Rattle.dfdl_grammar.specs.Documents.{document_from, front_at};
ghost use Rattle.dfdl_grammar.specs.Trees.{AreRead, HasLeaves, IsTree};
ghost use Rattle.dfdl_grammar.specs.declared.end.End.TheVariants.{Done, Failed};
ghost use Rattle.dfdl_grammar.specs.Elements.{attempted};
ghost use Rattle.dfdl_grammar.specs.Marks.{AreSame, IsAgain, back, marked, pointed};
ghost use Rattle.dfdl_grammar.specs.Outcomes.{Outcome, spend, then_do};
ghost use Rattle.dfdl_grammar.specs.Rows.{below, meaning};
ghost use Rattle.dfdl_grammar.specs.States.{Input, State};

/// A row has its own meaning below each that stands above it, and what was spent before a row is spent before what
/// follows it.
pub fn rows_mean()
    ensures below { (input : Input) (table : Table) (above id : ℕ) (s : State) → id < above
        → below input table above id s ≡ meaning input table id s }
    ensures spent { (t : Tally) (o : Outcome) (next : State → Outcome) → then_do (spend t o) next ≡ spend t (then_do o next) }
{}

/// Where a representation of an element fails, going back gives the state at the mark, whatever it did meanwhile: the bit, the
/// box's end, the elements, the bytes of values, the element that is open and what it has, the lists that are, what is kept of the
/// variables, where that is sound at the mark, and the marks, of which more may be resolved. So it is where a row fails at a point of
/// uncertainty, as a branch of a choice does, or a time of an element that is tried. A row that is done or fails leaves the marks and
/// the lists as they were, but for points that it resolves. What is kept of the variables is sound at the front of a document, and
/// stays so behind each row.
pub fn going_back_restores()
    ensures restored { (input : Input) (table : Table) (id body : ℕ) (complex : Bool) (instead : Instead) (s : State)
        (cause : ParseCause) (bit : ℕ) → LeadsBack s.variables s.variables
        → (attempted input id complex (meaning input table body) instead (marked s)).end ≡ Failed cause bit
        → IsAgain (marked s) (back (attempted input id complex (meaning input table body) instead (marked s)).state) }
    ensures tried { (input : Input) (table : Table) (id : ℕ) (initiated : Bool) (s : State) (cause : ParseCause) (bit : ℕ)
        → LeadsBack s.variables s.variables → (meaning input table id (pointed initiated s)).end ≡ Failed cause bit
        → IsAgain (pointed initiated s) (back (meaning input table id (pointed initiated s)).state) }
    ensures done { (input : Input) (table : Table) (id : ℕ) (s : State) → (meaning input table id s).end ≡ Done
        → AreSame (meaning input table id s).state.marks s.marks }
    ensures failed { (input : Input) (table : Table) (id : ℕ) (s : State) (cause : ParseCause) (bit : ℕ)
        → (meaning input table id s).end ≡ Failed cause bit → AreSame (meaning input table id s).state.marks s.marks }
    ensures closed { (input : Input) (table : Table) (id : ℕ) (s : State) → (meaning input table id s).end ≡ Done
        → markup (meaning input table id s).state ≡ markup s }
    ensures closed_failed { (input : Input) (table : Table) (id : ℕ) (s : State) (cause : ParseCause) (bit : ℕ)
        → (meaning input table id s).end ≡ Failed cause bit → markup (meaning input table id s).state ≡ markup s }
    ensures front { (table : Table) (start : ℕ) → LeadsBack (front_at table start).variables (front_at table start).variables }
    ensures sound { (input : Input) (table : Table) (id : ℕ) (s : State) → LeadsBack s.variables s.variables
        → LeadsBack (meaning input table id s).state.variables (meaning input table id s).state.variables }
{}

/// The elements of a document are a tree: each begins inside of an earlier one, but the first, and each is one of the
/// schema's elements, wherever the document begins and whatever the data come to.
pub fn documents_are_trees()
    ensures { (limits : Limits) (table : Table) (start : ℕ) (bytes : List ℕ) → IsTree table (document_from limits table start bytes).state.nodes }
{}

/// Where a document is done, each of its elements is read.
pub fn documents_are_read()
    ensures { (limits : Limits) (table : Table) (start : ℕ) (bytes : List ℕ) → Nests table.rows → All (NamesWithin (named_by table)) table.rows
        → HasLeaves table → (document_from limits table start bytes).end ≡ Done → AreRead (document_from limits table start bytes).state.nodes }
{}

/// The bytes of the values of a document's elements are among the bytes of its text, and those of its strings are UTF-8,
/// whatever the data come to, where the texts are so that stand for values in the table.
pub fn documents_have_texts()
    ensures { (limits : Limits) (table : Table) (start : ℕ) (bytes : List ℕ) → All (λ byte. byte < 256) bytes
        → All IsPrimitive table.primitives → HaveTexts (document_from limits table start bytes).state.nodes (document_from limits table start bytes).state.text }
{}
