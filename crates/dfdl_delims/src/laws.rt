// Laws of the definitions that the contracts cite. The calls do nothing.
ghost use Rattle.std.specs.Prelude.{◌≡◌, ◌↔◌, ℕ, ◌+◌, ◌/◌, ◌<◌, ◌⊎◌, Bool, List, [], if◌then◌else◌, length};
ghost use Rattle.dfdl_bits.specs.declared.window.Seen.{Seen as AnySeen};
ghost use Rattle.dfdl_bits.specs.declared.window.Seen.TheVariants.{Byte};
ghost use Rattle.dfdl_looks.specs.Asks.{Answer, AsksFrom, Told, ask};
ghost use Rattle.dfdl_looks.specs.Tallies.{Tally, saw_byte};
ghost use Rattle.dfdl_delims.specs.Deciding.{goes_on};
ghost use Rattle.dfdl_delims.specs.Firsts.{BeginsNone};
ghost use Rattle.dfdl_delims.specs.Lists.{Decides, Opened, innermost};
ghost use Rattle.dfdl_delims.specs.Longest.{NoText, better, longest_at};
ghost use Rattle.dfdl_delims.specs.Registers.{Holds, IsFull, Register, units_in, units_of};
ghost use Rattle.dfdl_forms.specs.declared.literals.Piece.{Piece as AnyPiece};

/// Of which bytes a text of some lists is longer, a test tells.
pub fn longer_texts_are_decided()
    ensures { (lists : List Opened) → Decides lists (goes_on lists) }
{}

/// Each look at a text is at its first byte or behind it.
pub fn texts_begin()
    ensures { (test : List ℕ → Bool) (lists : List Opened) (stop k : ℕ) → AsksFrom k (longest_at test lists stop k) }
{}

/// Where no list is open nothing is looked at, and nothing is found.
pub fn no_list_has_texts()
    ensures { (test : List ℕ → Bool) (stop k : ℕ) → Decides [] test → longest_at test [] stop k ≡ Answer NoText }
{}

/// At a byte of the data, in the box, with which no text begins, nothing is found but a text of no byte, in one look where some text
/// has a byte, and in none else.
pub fn other_bytes_begin_no_text()
    ensures { (look : ℕ → AnySeen) (test : List ℕ → Bool) (lists : List Opened) (stop k byte : ℕ) (t : Tally) → Decides lists test → k < stop / 8
        → look k ≡ Byte byte → BeginsNone lists byte
        → ask look (longest_at test lists stop k) t
        ≡ record { reached = Told (better (innermost lists []) 0 NoText); tally = if test [] then saw_byte k t else t } }
{}

/// How full a register is, by the lists that it holds.
pub fn lists_fill_registers()
    ensures { (register : Register) (lists : List Opened) (literals : List (List AnyPiece)) → Holds register lists
        → IsFull register literals ↔ ((register.lists < length lists + 1) ⊎ (register.units < units_in lists + units_of literals)) }
{}
