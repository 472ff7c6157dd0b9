// Laws of the definitions. The calls do nothing.
ghost use Rattle.std.specs.Prelude.{◌≡◌, Bool, true, false, Some, List};
ghost use Rattle.std.specs.List.{AllByRecursion};
ghost use Rattle.dfdl_separators.specs.Courses.{Agrees, AsksSeparator, IsOpen, course, is_verdict, with_separator};
ghost use Rattle.dfdl_separators.specs.Groups.{subject, here_of, move_at, group_after};
ghost use Rattle.dfdl_separators.specs.Runs.{Coming, IsRequired, IsOptional, LetsEnd, StandOrFail, verdict_on, behind_slot, verdicts};
ghost use Rattle.dfdl_separators.specs.Verdicts.{Facts, verdict, is_taken};
ghost use Rattle.dfdl_separators.specs.declared.course.Known.{Known};
ghost use Rattle.dfdl_separators.specs.declared.course.Known.TheVariants.{Occurred};
ghost use Rattle.dfdl_separators.specs.declared.moves.SlotMove.TheVariants.{EndArray, Parse};
ghost use Rattle.dfdl_separators.specs.declared.moves.SlotSeen.{SlotSeen};
ghost use Rattle.dfdl_separators.specs.declared.moves.SlotSeen.TheVariants.{Separator, Ended};
ghost use Rattle.dfdl_separators.specs.declared.progress.Progress.{Progress};
ghost use Rattle.dfdl_separators.specs.declared.verdict.Here.{Here};
ghost use Rattle.dfdl_separators.specs.declared.verdict.SlotRule.{SlotRule};
ghost use Rattle.dfdl_separators.specs.declared.verdict.Tried.{Tried};

/// The course of a slot gives the verdict as soon as all facts such as are known have it, and no sooner: while it asks, the
/// verdict still depends on what it asks for.
pub fn asks_what_counts()
    ensures settled { (here : Here) (known : Known) (facts : Facts) → Agrees here known facts
        → is_verdict (course here known) ≡ true → course here known ≡ verdict here facts }
    ensures asked { (here : Here) (known : Known) (facts : Facts) → Agrees here known facts
        → is_verdict (course here known) ≡ false → IsOpen here known }
{}

/// What is told after a question is known of the slot that was asked about, beside what was known of it.
pub fn answers_add_up()
    ensures separator { (group : Progress) (seen : SlotSeen) (rule : SlotRule) (known : Known) (found : Bool)
        → subject group seen ≡ Some (rule, known) → AsksSeparator (move_at group seen)
        → subject (group_after group seen) (Separator found) ≡ Some (rule, with_separator known found) }
    ensures occurrence { (group : Progress) (seen : SlotSeen) (rule : SlotRule) (known : Known) (tried : Tried)
        → subject group seen ≡ Some (rule, known) → move_at group seen ≡ Parse
        → subject (group_after group seen) (Ended tried.moved tried.empty tried.failure tried.resolved)
        ≡ Some (rule, Occurred tried) }
    ensures same { (group : Progress) (seen : SlotSeen) (rule : SlotRule) (known : Known)
        → subject group seen ≡ Some (rule, known) → is_verdict (move_at group seen) ≡ false
        → here_of (group_after group seen) rule ≡ here_of group rule }
{}

/// In a group of required slots alone each slot stands, or fails the group: its separator is missing, or its occurrence failed.
pub fn required_slots()
    ensures { (group : Progress) (comings : List Coming) → AllByRecursion IsRequired comings
        → StandOrFail comings (verdicts group comings) }
{}

/// Under `trailingEmpty` and `trailingEmptyStrict`, behind an optional slot that isn't there no slot is, but of kind parsed.
pub fn none_behind_absent()
    ensures { (group : Progress) (coming : Coming) (comings : List Coming) → LetsEnd group.policy → IsOptional coming
        → verdict_on group coming ≡ EndArray → AllByRecursion (λ later. later.parsed ≡ false) comings
        → AllByRecursion (λ move. is_taken move ≡ false) (verdicts (behind_slot group coming) comings) }
{}
