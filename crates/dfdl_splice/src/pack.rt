// Entries that are written anew, those that stand side by side joined.
ghost use Rattle.std.specs.Prelude.{◌≡◌, ◌+◌, ◌*◌, ◌^◌, ◌<◌, ◌≤◌, [], ◌++◌, length, take, drop, vec_capacity};
ghost use Rattle.dfdl_splice.specs.Entries.{slots, stretch_of, bits_in, IsWithin, AreWithin, entry_bits, moved_to, kept_with, Packing};

use crate::buffer::Buffer;
use crate::entry::Entry;

/// Writes the entries from the head on at the front, and their bits into another buffer. Those that have bits and stand side by
/// side become one.
pub(crate) fn pack(entries: &mut Vec<Entry>, head: usize, arena: &Buffer, spare: &mut Buffer)
    requires head { head ≤ length entries.old.items }
    requires order { arena.now.order ≡ spare.old.order }
    requires empty { spare.old.bits ≡ [] }
    requires bound { spare.old.room < 2 ^ 40 }
    requires within { AreWithin (length arena.now.bits) (drop head entries.old.items) }
    requires bits { bits_in (stretch_of (slots arena.now.bits (drop head entries.old.items))) ≤ 8 * spare.old.room }
    ensures packed { Packing (drop head entries.old.items) arena.now.bits entries.new.items [] spare.new.bits }
    ensures order { spare.new.order ≡ spare.old.order }
    ensures room { spare.new.room ≡ spare.old.room }
    ensures capacity { vec_capacity entries.new ≡ vec_capacity entries.old }
{
    let mut kept = 0;
    for at in head..entries.len() {
        let entry = moved(entries[at], arena, spare);
        kept = keep(entries, kept, entry);
    }
    entries.truncate(kept);
}

// Puts the bits of an entry behind those of another buffer.
fn moved(entry: Entry, arena: &Buffer, spare: &mut Buffer) -> Entry
    requires order { arena.now.order ≡ spare.old.order }
    requires within { IsWithin (length arena.now.bits) entry }
    requires room { length spare.old.bits + length (entry_bits arena.now.bits entry) ≤ 8 * spare.old.room }
    ensures entry { result ≡ moved_to (length spare.old.bits) entry }
    ensures bits { spare.new ≡ record spare.old { bits = spare.old.bits ++ entry_bits arena.now.bits entry } }
{
    match entry {
        Entry::Awaits { .. } => entry,
        Entry::Known {
            piece,
            begin,
            count,
        } => {
            let place = spare.len();
            spare.append_from(arena, begin, count);
            Entry::Known {
                piece,
                begin: place,
                count,
            }
        }
    }
}

// Writes an entry behind the first ones, and answers how many these are then.
fn keep(entries: &mut Vec<Entry>, kept: usize, entry: Entry) -> usize
    requires room { kept < length entries.old.items }
    requires within { AreWithin (2 ^ 62) (take kept entries.old.items) }
    requires entry { IsWithin (2 ^ 62) entry }
    ensures kept { take result entries.new.items ≡ kept_with (take kept entries.old.items) entry }
    ensures few { result ≤ kept + 1 }
    ensures rest { drop (kept + 1) entries.new.items ≡ drop (kept + 1) entries.old.items }
    ensures len { length entries.new.items ≡ length entries.old.items }
    ensures capacity { vec_capacity entries.new ≡ vec_capacity entries.old }
{
    if kept == 0 {
        entries[0] = entry;
        return 1;
    }
    match entries[kept - 1].joined(entry) {
        Some(both) => {
            entries[kept - 1] = both;
            kept
        }
        None => {
            entries[kept] = entry;
            kept + 1
        }
    }
}
