//! The table.

ghost use Rattle.std.specs.Prelude.{◌≡◌, ℕ, ◌≤◌, ◌↔◌, [], OnOk, OnErr, IfOk, IsOk, IsErr, IsTrue, IsFalse, IsSomeAnd};
ghost use Rattle.std.specs.List.{IsDistinct};
ghost use Rattle.std.specs.Map.{keys_of};
ghost use Rattle.std.specs.Map.Iter.{deref_pair};
ghost use Rattle.std.specs.Option.{option_copied, option_map};
ghost use Rattle.lua_table.specs.Table as table;
ghost use Rattle.lua_table.specs.Table.{IsLeastBorder};

use crate::Position;
use crate::border::Border;
use crate::places::Places;
use love_base::Memory;
use std::alloc::Global;
use std::hash::Hash;
use std::marker::Model;

/// The refusal of [`Table::next`]: the key was never set.
#[derive(Clone, Copy, Debug, PartialEq, Eq)]
pub struct NoSuchKey;

/// A Lua table (Lua 5.1 manual §2.2) without its metatable.
#[derive(Debug, Drop)]
pub struct Table<K: Position + Hash, V> {
    places: Places<K, V>,
    border: Border,
}

impl<K: Position + Hash, V> Model for Table<K, V> {
    ghost use Rattle.std.specs.List.{IsDistinct};
    ghost use Rattle.std.specs.Map.{keys_of};
    ghost use Rattle.lua_table.specs.Gaps.{IsBordered};
    ghost use Rattle.lua_table.specs.Table.{Places};

    ghost Value = { Places K V };

    ghost view = { λ t. t.places };

    ghost invariant = { λ t. IsDistinct K.eq (keys_of t.places)
        × IsBordered K.eq K.at_position t.places t.border.reached t.border.gaps };
}

impl<K: Position + Hash + Drop, V: Drop> Table<K, V> {
    /// A table without keys. Takes no memory.
    pub fn new(alloc: Global) -> Self
        ensures { result ≡ [] }
    {
        Table {
            places: Places::new(alloc),
            border: Border::new(alloc),
        }
    }

    /// The value of `key`; `None` where it has none. Takes no memory, expected constant time.
    #[inline]
    pub fn get(&self, key: &K) -> Option<&V>
        ensures { option_copied result ≡ table.get K.eq self.now key.now }
    {
        self.places.get(key)
    }

    /// Gives `key` a value. A key that was set before keeps its place and takes no memory, a new
    /// one goes last.
    ///
    /// Expected time in the logarithm of the count of keys at most, on average over all calls.
    ///
    /// # Errors
    ///
    /// [`Memory`] where there is no room for a new key. The table is then as it was.
    #[inline]
    pub fn set(&mut self, key: K, value: V) -> Result<(), Memory>
        ensures ok { OnOk result (self.new ≡ table.set K.eq self.old key value) }
        ensures refused { OnErr result (self.new ≡ self.old) }
        ensures placed { IsTrue (table.has_place K.eq self.old key) → IsOk result }
        ensures distinct { IsDistinct K.eq (keys_of self.new) }
    {
        match key.position() {
            Some(n) => {
                let end = self.border.make_room(&self.places, n)?;
                self.places.set(key, value)?;
                self.border.fill(n);
                self.border.reach(&self.places, end);
            }
            None => self.places.set(key, value)?,
        }
        Ok(())
    }

    /// Takes the value of `key` away, if it has one. The key keeps its place. Takes no memory,
    /// expected time in the logarithm of the count of keys at most.
    #[inline]
    pub fn clear_key(&mut self, key: &K)
        ensures cleared { self.new ≡ table.clear_key K.eq self.old key.now }
        ensures distinct { IsDistinct K.eq (keys_of self.new) }
    {
        self.places.clear(key);
        match key.position() {
            Some(n) => self.border.empty(n),
            None => {}
        }
    }

    /// The first pair with a value, or the first one after the place of a key (Lua 5.1 manual §5.1,
    /// `next`).
    ///
    /// Takes no memory. Expected constant time, and time in the count of the cleared places that it
    /// passes.
    ///
    /// # Errors
    ///
    /// [`NoSuchKey`] where the key was never set.
    #[inline]
    pub fn next(&self, after: Option<&K>) -> Result<Option<(&K, &V)>, NoSuchKey>
        ensures pair { IfOk result (λ pair.
            table.next K.eq self.now (option_copied after.entry)
            ≡ Ok (option_map deref_pair pair)) }
        ensures unknown { IsErr result
            ↔ IsSomeAnd after.entry (λ key. IsFalse (table.has_place K.eq self.now key.now)) }
    {
        let start = match after {
            None => 0,
            Some(key) => self.places.index_behind(key).ok_or(NoSuchKey)?,
        };
        Ok(self.places.first_from(start))
    }

    /// The least border (Lua 5.1 manual §2.5.5). Takes no memory, constant time.
    #[inline]
    pub fn border(&self) -> u64
        ensures border { result ≡ table.border K.eq K.at_position self.now }
        ensures least { IsLeastBorder K.eq K.at_position self.now result }
        ensures distinct { IsDistinct K.eq (keys_of self.now) }
    {
        self.border.least()
    }
}
