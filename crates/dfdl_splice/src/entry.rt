// The entries of a table, and what is told of a list of them.
ghost use Rattle.std.specs.Prelude.{◌≡◌, ◌↔◌, ℕ, ◌^◌, ◌<◌, IsTrue, List, length, slice_index_or};
ghost use Rattle.dfdl_splice.specs.Splicing.{Fits};
ghost use Rattle.dfdl_splice.specs.Entries.{slots, has, slot_of, ends_has, begins_has, IsFor, IsWithin, Rising, piece_of, joined_with, one_or_both};
ghost use Rattle.dfdl_splice.specs.declared.entry.Entry.{Entry};

/// A piece that is awaited, or pieces that are put.
#[derive(Clone, Copy)]
pub(crate) enum Entry {
    /// The number of a piece whose bits are awaited, and how many these are where that is fixed.
    Awaits { piece: u32, bits: Option<u64> },
    /// The number of the first of some pieces that are put, and where their bits lie in a buffer.
    Known { piece: u32, begin: u64, count: u64 },
}

impl Entry {
    // The number of its piece, the first one.
    pub(crate) fn piece(&self) -> u32
        ensures { result ≡ piece_of self.now }
    {
        match *self {
            Entry::Awaits { piece, .. } => piece,
            Entry::Known { piece, .. } => piece,
        }
    }

    // Whether the piece of this number is awaited at it, and so many bits fit it.
    pub(crate) fn awaits(&self, number: u32, size: u64) -> bool
        ensures { IsTrue result ↔ IsFor self.now number size }
    {
        match *self {
            Entry::Awaits { piece, bits } => piece == number && fits(bits, size),
            Entry::Known { .. } => false,
        }
    }

    // 1 where it has bits.
    pub(crate) fn known(&self) -> usize
        ensures { (bits : List ℕ) → result ≡ has (slot_of bits self.now) }
    {
        match *self {
            Entry::Awaits { .. } => 0,
            Entry::Known { .. } => 1,
        }
    }

    // Both as one, where both have bits.
    pub(crate) fn joined(self, next: Entry) -> Option<Entry>
        requires first { IsWithin (2 ^ 62) self }
        requires next { IsWithin (2 ^ 62) next }
        ensures { joined_with self next ≡ one_or_both result self next }
    {
        match self {
            Entry::Awaits { .. } => None,
            Entry::Known {
                piece,
                begin,
                count,
            } => match next {
                Entry::Awaits { .. } => None,
                Entry::Known { count: more, .. } => Some(Entry::Known {
                    piece,
                    begin,
                    count: count + more,
                }),
            },
        }
    }
}

// Whether so many bits fit a piece.
fn fits(fixed: Option<u64>, count: u64) -> bool
    ensures { IsTrue result ↔ Fits fixed count }
{
    match fixed {
        Some(fixed) => fixed == count,
        None => true,
    }
}

/// The place of the entry of this number among entries whose numbers rise.
pub(crate) fn find(entries: &[Entry], piece: u32) -> usize
    requires { (next : ℕ) × Rising 0 entries.now next }
    ensures { (i : ℕ) (any : Entry) → i < length entries.now → piece_of (slice_index_or entries.now i any) ≡ piece → result ≡ i }
{
    let mut low = 0;
    let mut high = entries.len();
    while low + 1 < high {
        let middle = low + (high - low) / 2;
        if entries[middle].piece() <= piece {
            low = middle;
        } else {
            high = middle;
        }
    }
    low
}

// 1 where the last of the entries has bits.
pub(crate) fn ends_known(entries: &[Entry]) -> usize
    ensures { (bits : List ℕ) → result ≡ ends_has (slots bits entries.now) }
{
    let count = entries.len();
    if count == 0 {
        return 0;
    }
    entries[count - 1].known()
}

// 1 where the first of the entries has bits.
pub(crate) fn begins_known(entries: &[Entry]) -> usize
    ensures { (bits : List ℕ) → result ≡ begins_has (slots bits entries.now) }
{
    if entries.len() == 0 {
        return 0;
    }
    entries[0].known()
}
