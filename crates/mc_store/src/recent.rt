//! `Recent`: the container in which a hashed store keeps its entries.
ghost use Rattle.std.specs.Prelude.{◌≡◌, ◌++◌, ◌∷◌, ◌<◌, ◌≤◌, ◌^◌, [], ℕ, List, Option, length, drop, slice_get, IfSome, IfNone, IfErr, OnOk, OnErr};
ghost use Rattle.std.specs.Option.{option_copied, option_copied_mut, option_map};
ghost use Rattle.std.specs.Borrow.{sem};
ghost use Rattle.std.specs.Map.{lookup, lookup_entry, remove_entry};
ghost use Rattle.std.specs.Str.{bytes_eq};
ghost use Rattle.mc_table.specs.Tables.{put_entry};
ghost use Rattle.mc_store.specs.declared.epoch_entries.EpochEntry.{EpochEntry};
ghost use Rattle.mc_store.specs.Epochs.{Entries};
ghost use Rattle.mc_store.specs.Lends.{lends_held};
ghost use Rattle.mc_store.specs.Recents.{written};

use crate::epoch_entries::EpochEntry;
use mc_table::Hint;
use mc_text::Key;

/// Entries by key, the most recently used first.
///
/// A key is looked up by its bytes. Most calls that look one up take a hint of its entry's slot, which affects only the speed. Only
/// [`Recent::put`] takes memory.
pub trait Recent {
    /// The entries, most recent first.
    ghost entries: { Self → Entries };

    /// The most entries, if there is such a number. No call changes it.
    ghost room: { Self → Option ℕ };

    /// The container with the key's entry in front, and another value under the key.
    ghost lent: { Self → List ℕ → EpochEntry → Self };

    /// Returns the number of entries.
    fn len(&self) -> usize
        ensures len { result ≡ length (entries self.now) }
        ensures fits { result < 2 ^ 63 }
        ensures room { IfSome (room self.now) (λ most. result ≤ most) };

    /// Returns the value of the key, and a hint of its entry's slot, which is right until an entry is removed. The order stays.
    fn find(&self, key: &[u8], hint: Hint) -> Option<(Hint, &EpochEntry)>
        ensures { option_map (λ found. found.1.now) result ≡ lookup (bytes_eq key.now) (entries self.now) };

    /// Returns the value of the first entry.
    fn front(&self) -> Option<&EpochEntry>
        ensures { option_copied result ≡ option_map (λ entry. entry.1) (slice_get (entries self.now) 0) };

    /// Returns the value of the key, to write to, and moves its entry to the front.
    fn get_mut(&mut self, key: &[u8], hint: Hint) -> Option<&mut EpochEntry>
        ensures* writes_back { sem 𝓛 (lends_held Self.row self.entry result (λ held. lent self.old key.now held)) }
        ensures value { option_copied_mut result ≡ lookup (bytes_eq key.now) (entries self.old) };

    /// Returns whether [`Recent::prefetch`] prefetches: several entries are found faster together than each by itself.
    fn prefetches(&self) -> bool {
        false
    }

    /// Prefetches the entries of keys: writes a hint for each key. A hint may be wrong, and [`Hint::none`] says that no slot was found. It is
    /// worth its time if [`Recent::prefetches`]. A container without slots leaves the hints as they are. The returned byte is made of what
    /// was read, and only keeps the loads alive.
    fn prefetch(&self, _keys: &[&[u8]], _hints: &mut [Hint]) -> u8 {
        0
    }

    /// Removes and returns the entry of the key.
    fn pop_entry(&mut self, key: &[u8], hint: Hint) -> Option<(Key, EpochEntry)>
        ensures value { result ≡ lookup_entry (bytes_eq key.now) (entries self.old) }
        ensures entries { entries self.new ≡ remove_entry (bytes_eq key.now) (entries self.old) }
        ensures room { room self.new ≡ room self.old };

    /// Returns the hint that is right for the first entry; [`Hint::none`] if no slot is known.
    fn first_hint(&self) -> Hint {
        Hint::none()
    }

    /// Removes and returns the first entry.
    fn pop_mru(&mut self) -> Option<(Key, EpochEntry)>
        ensures entries { entries self.new ≡ drop 1 (entries self.old) }
        ensures room { room self.new ≡ room self.old };

    /// Removes and returns the last entry.
    fn pop_lru(&mut self) -> Option<(Key, EpochEntry)>
        ensures last { IfSome result (λ last. entries self.old ≡ entries self.new ++ last ∷ []) }
        ensures empty { IfNone result ((entries self.old ≡ []) × (entries self.new ≡ [])) }
        ensures room { room self.new ≡ room self.old };

    /// Inserts a value under a key, in front. The old value of the key is dropped.
    ///
    /// If there is no memory, `Err` returns the key and the value, and nothing has changed.
    fn put(&mut self, key: Key, held: EpochEntry) -> Result<(), (Key, EpochEntry)>
        requires { IfSome (room self.old) (λ most. length (entries self.old) < most) }
        ensures ok { OnOk result (entries self.new ≡ put_entry bytes_eq key held (entries self.old)) }
        ensures back { IfErr result (λ back. back ≡ (key, held)) }
        ensures err { OnErr result (entries self.new ≡ entries self.old) }
        ensures room { room self.new ≡ room self.old };

    /// Removes all entries, one by one.
    fn clear(&mut self)
        ensures entries { entries self.new ≡ [] }
        ensures room { room self.new ≡ room self.old };

    /// The entries, with the key's in front.
    ghost lent_entries: { (s : Self) (key : List ℕ) (held : EpochEntry) → entries (lent s key held) ≡ written key (entries s) held };

    /// A write to a value does not change the room.
    ghost lent_room: { (s : Self) (key : List ℕ) (held : EpochEntry) → room (lent s key held) ≡ room s };
}
