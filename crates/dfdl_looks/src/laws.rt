// Laws of the definitions that the contracts cite, said of programs that answer numbers. The calls do nothing.
ghost use Rattle.std.specs.Prelude.{◌≡◌, ◌<◌, ◌≤◌, ◌+◌, ℕ, List, false, length, max};
ghost use Rattle.dfdl_bits.specs.Window.{Held, end_of, seen_at};
ghost use Rattle.dfdl_bits.specs.declared.window.Seen.{Seen as AnySeen};
ghost use Rattle.dfdl_looks.specs.Asks.{Ask, AsksFrom, Missing, and_then, ask, go_on, look_at};
ghost use Rattle.dfdl_looks.specs.Looks.{Agrees, seen_in};
ghost use Rattle.dfdl_looks.specs.Tallies.{Tally, nothing, plus};

/// What a program comes to over a window is what it comes to over all data of which the window holds a part, unless a
/// byte hasn't come. Then the data that have come, taken as whole, end in the program, and it looks past them. While
/// the end of the data isn't told, none is found.
pub fn looks_resume()
    ensures same { (held : Held) (whole : List ℕ) (program : Ask ℕ) (t : Tally) → Agrees held whole → AsksFrom held.base program
        → ((ask (seen_at held) program t).reached ≡ Missing → ⊥)
        → ask (seen_at held) program t ≡ ask (seen_in whole held.size held.base) program t }
    ensures missed { (held : Held) (whole : List ℕ) (program : Ask ℕ) (t : Tally) → Agrees held whole → AsksFrom held.base program
        → length whole ≡ end_of held → t.tail ≡ 0 → (ask (seen_at held) program t).reached ≡ Missing
        → ((ask (seen_in whole held.size held.base) program t).tally.tail ≡ (ask (seen_at held) program t).tally.looks)
        × (length whole < (ask (seen_in whole held.size held.base) program t).tally.far) }
    ensures kept { (held : Held) (program : Ask ℕ) (t : Tally) → held.ended ≡ false → AsksFrom held.base program
        → ((ask (seen_at held) program t).tally.tail ≡ t.tail)
        × ((ask (seen_at held) program t).tally.far ≤ max t.far (end_of held)) }
{}

/// Costs are added up, however the parts are grouped.
pub fn costs_add_up()
    ensures grouped { (a b c : Tally) → plus (plus a b) c ≡ plus a (plus b c) }
    ensures front { (t : Tally) → plus nothing t ≡ t }
{}

/// Each look of a stretch of bytes is at its first byte or behind it.
pub fn stretches_begin()
    ensures { (count k ends : ℕ) (go : List ℕ → ℕ) → AsksFrom k (look_at count k ends go) }
{}

/// A program that goes on by what another one answers is read as the one and then the other, from its tally on, and its
/// looks lie where those of both do.
pub fn programs_go_on()
    ensures read { (look : ℕ → AnySeen) (program : Ask ℕ) (go : ℕ → Ask ℕ) (t : Tally)
        → ask look (and_then program go) t ≡ go_on look go (ask look program t).reached (ask look program t).tally }
    ensures begin { (low : ℕ) (program : Ask ℕ) (go : ℕ → Ask ℕ) → AsksFrom low program
        → ((n : ℕ) → AsksFrom low (go n)) → AsksFrom low (and_then program go) }
{}
