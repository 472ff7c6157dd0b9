// Laws of the definitions that the contracts cite. The calls do nothing.
ghost use Rattle.std.specs.Prelude.{◌≡◌, ◌≤◌, ℕ, Bool, List, map};
ghost use Rattle.dfdl_bits.specs.declared.window.Seen.{Seen as AnySeen};
ghost use Rattle.dfdl_bits.specs.Window.{Held, seen_at};
ghost use Rattle.dfdl_looks.specs.Looks.{Agrees, seen_in};
ghost use Rattle.dfdl_looks.specs.Asks.{AsksFrom, Told, ask};
ghost use Rattle.dfdl_looks.specs.Tallies.{Tally};
ghost use Rattle.dfdl_delims.specs.Lists.{Opened};
ghost use Rattle.dfdl_forms.specs.declared.text.PadForm.{PadForm as AnyPadForm};
ghost use Rattle.dfdl_text_string.specs.Padding.{trimmed, trimmed_from};
ghost use Rattle.dfdl_escapes.specs.declared.character.Character.{Character as AnyCharacter};
ghost use Rattle.dfdl_escapes.specs.declared.form.Form.{Form as AnyForm};
ghost use Rattle.dfdl_escapes.specs.declared.form.Stand.{Stand as AnyStand};
ghost use Rattle.dfdl_escapes.specs.Contents.{ArePassed, Content, IsContent, IsStep, MovesOn, content_at, rest_of};
ghost use Rattle.dfdl_escapes.specs.Steps.{Step, step_at};
ghost use Rattle.dfdl_escapes.specs.Trims.{only_escaped, trimmed_content, trimmed_content_from, unescaped};

/// Each look of a step, and of a content, is where the scan stands or behind it.
pub fn steps_begin()
    ensures step { (test : List ℕ → Bool) (lists : List Opened) (form : AnyForm) (at : AnyStand)
        → AsksFrom at.byte (step_at test lists form at) }
    ensures content { (test : List ℕ → Bool) (lists : List Opened) (form : AnyForm) (at : AnyStand)
        → AsksFrom at.byte (content_at test lists form at) }
{
    dfdl_delims::laws::texts_begin();
}

/// A step that gives a character or passes a mark goes on behind at least one byte, in the box.
pub fn steps_move()
    ensures { (look : ℕ → AnySeen) (test : List ℕ → Bool) (lists : List Opened) (form : AnyForm) (at : AnyStand) (step : Step)
        → IsStep look test lists form at step → MovesOn form at step }
{}

/// Steps one after the other give the content, and a content is given by such steps.
pub fn steps_give_contents()
    ensures given { (look : ℕ → AnySeen) (test : List ℕ → Bool) (lists : List Opened) (form : AnyForm) (at last : AnyStand)
        (characters : List AnyCharacter) (ends : Step) (t : Tally) → IsContent look test lists form at characters last ends
        → (ask look (content_at test lists form at) t).reached ≡ Told (record { characters = characters; last = last; ends = ends }) }
    ensures back { (look : ℕ → AnySeen) (test : List ℕ → Bool) (lists : List Opened) (form : AnyForm) (at : AnyStand) (content : Content) (t : Tally)
        → (ask look (content_at test lists form at) t).reached ≡ Told content
        → IsContent look test lists form at content.characters content.last content.ends }
{}

/// What is left of a content behind steps that were taken comes to what the whole comes to.
pub fn contents_go_on()
    ensures { (look : ℕ → AnySeen) (test : List ℕ → Bool) (lists : List Opened) (form : AnyForm) (begin last : AnyStand)
        (before read : List AnyCharacter) (t u : Tally) → ArePassed look test lists form begin before last read
        → (ask look (rest_of test lists form before begin) t).reached ≡ (ask look (rest_of test lists form read last) u).reached }
{}

/// Steps over a window are steps over all data of which the window holds a part.
pub fn steps_stay()
    ensures { (held : Held) (whole : List ℕ) (test : List ℕ → Bool) (lists : List Opened) (form : AnyForm) (begin last : AnyStand)
        (before read : List AnyCharacter) → Agrees held whole → held.base ≤ begin.byte
        → ArePassed (seen_at held) test lists form begin before last read
        → ArePassed (seen_in whole held.size held.base) test lists form begin before last read }
{
    dfdl_delims::laws::texts_begin();
}

/// Where nothing is escaped a content is trimmed as the text of its characters is.
pub fn contents_without_escapes_are_trimmed_as_texts()
    ensures content { (form : AnyPadForm) (text : List ℕ) → trimmed_content form (map unescaped text) ≡ map unescaped (trimmed form text) }
    ensures begin { (form : AnyPadForm) (text : List ℕ) → trimmed_content_from form (map unescaped text) ≡ trimmed_from form text }
{}

/// Trimming takes no escaped character off.
pub fn escaped_characters_stay()
    ensures { (form : AnyPadForm) (characters : List AnyCharacter) → only_escaped (trimmed_content form characters) ≡ only_escaped characters }
{}
