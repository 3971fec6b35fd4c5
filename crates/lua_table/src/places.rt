//! The places of a table: each key with its value, or with none where it was cleared.

ghost use Rattle.std.specs.Prelude.{◌≡◌, ◌+◌, ◌^◌, ◌<◌, ◌≤◌, [], length, drop, is_some, IfSome, IfNone, IsTrue, IsFalse, IsOk, OnOk, OnErr, Some, Ok};
ghost use Rattle.std.specs.Map.Iter.{deref_pair};
ghost use Rattle.std.specs.Option.{option_map, option_copied};
ghost use Rattle.lua_table.specs.Table as table;

use crate::Position;
use crate::keys::Keys;
use love_base::Memory;
use std::alloc::Global;
use std::hash::Hash;
use std::marker::Model;

#[derive(Debug, Drop)]
pub(crate) struct Places<K: Position + Hash, V> {
    keys: Keys<K>,
    values: Vec<Option<V>>,
}

impl<K: Position + Hash, V> Model for Places<K, V> {
    ghost use Rattle.std.specs.Prelude.{◌≡◌, length};
    ghost use Rattle.std.specs.List.{zip};
    ghost use Rattle.lua_table.specs.Table.{Places};

    ghost Value = { Places K V };

    ghost view = { λ p. zip p.keys p.values.items };

    ghost invariant = { λ p. length p.keys ≡ length p.values.items };
}

impl<K: Position + Hash, V> Places<K, V> {
    pub(crate) fn new(alloc: Global) -> Self
        ensures { result ≡ [] }
    {
        Places {
            keys: Keys::new(alloc),
            values: Vec::new(alloc),
        }
    }

    #[inline]
    pub(crate) fn len(&self) -> usize
        ensures len { result ≡ length self.now }
        ensures small { result < 2 ^ 63 }
    {
        self.keys.len()
    }

    // Whether a key has a place.
    #[inline]
    pub(crate) fn has(&self, key: &K) -> bool
        ensures { result ≡ table.has_place K.eq self.now key.now }
    {
        self.keys.find(key).is_some()
    }

    // The value of a key, where it has one.
    #[inline]
    pub(crate) fn get(&self, key: &K) -> Option<&V>
        ensures { option_copied result ≡ table.get K.eq self.now key.now }
    {
        match self.keys.find(key) {
            Some(place) => self.values[place].as_ref(),
            None => None,
        }
    }

    // Gives a key a value, at its place or at the end.
    #[inline]
    pub(crate) fn set(&mut self, key: K, value: V) -> Result<(), Memory>
    where
        K: Drop,
        V: Drop,
        ensures ok { OnOk result (self.new ≡ table.set K.eq self.old key value) }
        ensures refused { OnErr result (self.new ≡ self.old) }
        ensures placed { IsTrue (table.has_place K.eq self.old key) → IsOk result }
    {
        match self.keys.find(&key) {
            Some(place) => {
                self.values[place] = Some(value);
                Ok(())
            }
            None => self.add(key, value),
        }
    }

    // Gives a new key the last place.
    #[inline(never)]
    fn add(&mut self, key: K, value: V) -> Result<(), Memory>
    where
        K: Drop,
        V: Drop,
        requires { IsFalse (table.has_place K.eq self.old key) }
        ensures ok { OnOk result (self.new ≡ table.set K.eq self.old key value) }
        ensures refused { OnErr result (self.new ≡ self.old) }
    {
        self.values.push(Some(value))?;
        if let Err(refused) = self.keys.add(key) {
            let _value = self.values.pop();
            return Err(refused);
        }
        Ok(())
    }

    // Takes the value of a key away, if it has one.
    #[inline]
    pub(crate) fn clear(&mut self, key: &K)
    where
        V: Drop,
        ensures { self.new ≡ table.clear_key K.eq self.old key.now }
    {
        let Some(place) = self.keys.find(key) else {
            return;
        };
        self.values[place] = None;
    }

    // The index behind the place of a key, where it has one.
    #[inline]
    pub(crate) fn index_behind(&self, key: &K) -> Option<usize>
        ensures within { IfSome result (λ n. n ≤ length self.now) }
        ensures found { IfSome result (λ n.
            table.next_after K.eq self.now key.now ≡ Ok (table.first (drop n self.now))) }
        ensures known { is_some result ≡ table.has_place K.eq self.now key.now }
    {
        // An index and its successor fit: there are fewer than 2^63 places.
        let _count = self.keys.len();
        Some(self.keys.find(key)? + 1)
    }

    // The pair at an index, where the key there has a value.
    #[inline]
    fn pair_at(&self, index: usize) -> Option<(&K, &V)>
        requires { index < length self.now }
        ensures value { IfSome result (λ pair.
            table.first (drop index self.now) ≡ Some (deref_pair pair)) }
        ensures cleared { IfNone result
            (table.first (drop index self.now) ≡ table.first (drop (index + 1) self.now)) }
    {
        match self.values[index].as_ref() {
            Some(value) => Some((self.keys.get(index), value)),
            None => None,
        }
    }

    // The first pair with a value from an index on.
    #[inline]
    pub(crate) fn first_from(&self, start: usize) -> Option<(&K, &V)>
        requires { start ≤ length self.now }
        ensures { option_map deref_pair result ≡ table.first (drop start self.now) }
    {
        for index in start..self.len() {
            if let Some(pair) = self.pair_at(index) {
                return Some(pair);
            }
        }
        None
    }
}
