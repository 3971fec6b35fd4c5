//! The keys of a table, each at its place, and how a key's place is found.

ghost use Rattle.std.specs.Prelude.{◌≡◌, ℕ, ◌+◌, ◌^◌, ◌<◌, ◌≤◌, [], ◌∷◌, ◌++◌, List, length, slice_get, vec_len, Some, None, IfSome, OnOk, OnErr, ◌==◌, if◌then◌else◌};
ghost use Rattle.std.specs.Map.{lookup};
ghost use Rattle.lua_table.specs.Places.{place_at, index_of, unlisted, AreFound};

use crate::Position;
use crate::key_hasher::KeyHasher;
use indexmap::IndexMap;
use love_base::Memory;
use std::alloc::Global;
use std::hash::{BuildHasherDefault, Hash};
use std::marker::Model;

// So many of the first keys are found by comparing them: a small table needs no index.
const FIRST_COUNT: usize = 8;

// A place is kept in 32 bits, of which 0 says that there is none.
const MOST_PLACES: usize = 0xffff_ffff;

type Hashed<K> = IndexMap<K, u32, BuildHasherDefault<KeyHasher>>;

// Keys in the order of their places. A key whose position was at most about twice the count of keys
// stands in a list by its position, and a later one in a map; a key among the first ones that isn't
// listed stands in neither.
#[derive(Debug, Drop)]
pub(crate) struct Keys<K: Position + Hash> {
    keys: Vec<K>,
    // For the position n, at n - 1, its place and 1, or 0.
    listed: Vec<u32>,
    hashed: Hashed<K>,
    // Whether some key with a position isn't listed.
    astray: bool,
}

impl<K: Position + Hash> Model for Keys<K> {
    ghost use Rattle.std.specs.Prelude.{List};
    ghost use Rattle.lua_table.specs.Places.{AreFound};

    ghost Value = { List K };

    ghost view = { λ k. k.keys.items };

    ghost invariant = { λ k. AreFound K.eq K.position_of k.astray k.listed.items k.hashed.entries k.keys.items };
}

impl<K: Position + Hash> Keys<K> {
    pub(crate) fn new(alloc: Global) -> Self
        ensures { result ≡ [] }
    {
        Keys {
            keys: Vec::new(alloc),
            listed: Vec::new(alloc),
            hashed: IndexMap::with_hasher(alloc, BuildHasherDefault::new()),
            astray: false,
        }
    }

    #[inline]
    pub(crate) fn len(&self) -> usize
        ensures len { result ≡ length self.now }
        ensures small { result < 2 ^ 63 }
    {
        self.keys.len()
    }

    #[inline]
    pub(crate) fn get(&self, place: usize) -> &K
        requires { place < length self.now }
        ensures { slice_get self.now place ≡ Some result.now }
    {
        &self.keys[place]
    }

    // The place of a key, where it has one.
    #[inline]
    pub(crate) fn find(&self, key: &K) -> Option<usize>
        ensures place { result ≡ index_of K.eq key.now self.now }
        ensures within { IfSome result (λ place. place < length self.now) }
    {
        self.looked_up(key)
    }

    #[inline]
    fn looked_up(&self, key: &K) -> Option<usize>
        ensures { result ≡ index_of K.eq key.now self.now }
    {
        if let Some(n) = key.position() {
            let listed = listed_place(&self.listed, n);
            if listed.is_some() || !self.astray {
                return listed;
            }
        }
        unlisted_place(&self.keys, &self.hashed, key)
    }

    // Gives a new key the last place.
    pub(crate) fn add(&mut self, key: K) -> Result<(), Memory>
    where
        K: Drop,
        requires absent { index_of K.eq key self.old ≡ None }
        ensures ok { OnOk result (self.new ≡ self.old ++ key ∷ []) }
        ensures refused { OnErr result (self.new ≡ self.old) }
    {
        let place = self.keys.len();
        if place >= MOST_PLACES {
            return Err(Memory);
        }
        self.keys.push(key)?;
        if let Err(refused) = enter(
            &mut self.listed,
            &mut self.hashed,
            &mut self.astray,
            key,
            place,
        ) {
            let _key = self.keys.pop();
            return Err(refused);
        }
        Ok(())
    }
}

// The place that the list has for a position.
#[inline]
fn listed_place(listed: &[u32], n: u64) -> Option<usize>
    ensures { result ≡ place_at listed.now n }
{
    if n == 0 || n > listed.len() as u64 {
        return None;
    }
    match listed[(n - 1) as usize] {
        0 => None,
        place => Some((place - 1) as usize),
    }
}

// The place of a key that isn't listed.
#[inline(never)]
fn unlisted_place<K: Position + Hash>(keys: &[K], hashed: &Hashed<K>, key: &K) -> Option<usize>
    ensures { result ≡ unlisted K.eq hashed.now.entries keys.now key.now }
{
    if !hashed.is_empty()
        && let Some(place) = hashed.get(key)
    {
        return Some(*place as usize);
    }
    index_among(&keys[..keys.len().min(FIRST_COUNT)], key)
}

// The index of the first of the keys that is equal.
fn index_among<K: Position>(keys: &[K], key: &K) -> Option<usize>
    ensures { result ≡ index_of K.eq key.now keys.now }
{
    for index in 0..keys.len() {
        if *key == keys[index] {
            return Some(index);
        }
    }
    None
}

// The position at which a new key is to be listed, if it is: where the list has it already or it is
// at most about twice the count of keys, so that the list has no more than about two numbers a key.
#[inline]
fn listed_position<K: Position>(key: &K, place: usize, listed: usize) -> Option<u64>
    ensures position { IfSome result (λ n. K.position_of key.now ≡ Some n) }
    ensures one { IfSome result (λ n. 1 ≤ n) }
{
    match key.position() {
        Some(n) if n > 0 && (n <= listed as u64 || n / 2 <= place as u64) => Some(n),
        Some(_) => None,
        None => None,
    }
}

// Enters the place of a new key, the last one, so that it's found there.
fn enter<K: Position + Hash + Drop>(
    listed: &mut Vec<u32>,
    hashed: &mut Hashed<K>,
    astray: &mut bool,
    key: K,
    place: usize,
) -> Result<(), Memory>
    requires small { place + 1 < 2 ^ 32 }
    ensures ok { OnOk result ((keys : List K) → length keys ≡ place → index_of K.eq key keys ≡ None
        → AreFound K.eq K.position_of astray.old listed.old.items hashed.old.entries keys
        → AreFound K.eq K.position_of astray.new listed.new.items hashed.new.entries (keys ++ key ∷ [])) }
    ensures refused { OnErr result ((keys : List K)
        → AreFound K.eq K.position_of astray.old listed.old.items hashed.old.entries keys
        → AreFound K.eq K.position_of astray.new listed.new.items hashed.new.entries keys) }
{
    if let Some(n) = listed_position(&key, place, listed.len()) {
        list_place(listed, n, place)?;
        return Ok(());
    }
    if key.position().is_some() {
        *astray = true;
    }
    if place < FIRST_COUNT {
        return Ok(());
    }
    hash_place(hashed, key, place)?;
    Ok(())
}

// Enters the place of the key at a position.
#[inline]
fn list_place(listed: &mut Vec<u32>, n: u64, place: usize) -> Result<(), Memory>
    requires one { 1 ≤ n }
    requires small { place + 1 < 2 ^ 32 }
    ensures ok { OnOk result ((m : ℕ) →
        place_at listed.new.items m ≡ (if m == n then Some place else place_at listed.old.items m)) }
    ensures refused { OnErr result ((m : ℕ) → place_at listed.new.items m ≡ place_at listed.old.items m) }
{
    lengthen(listed, n as usize)?;
    listed[(n - 1) as usize] = place as u32 + 1;
    Ok(())
}

// Makes the list reach a position.
#[inline]
fn lengthen(listed: &mut Vec<u32>, n: usize) -> Result<(), Memory>
    ensures reached { OnOk result (n ≤ vec_len listed.new) }
    ensures same { (m : ℕ) → place_at listed.new.items m ≡ place_at listed.old.items m }
{
    let len = listed.len();
    if n <= len {
        return Ok(());
    }
    if n - len == 1 {
        listed.push(0)?;
        return Ok(());
    }
    listed.resize(n, 0)?;
    Ok(())
}

// Enters the place of a key by its hash.
fn hash_place<K: Position + Hash + Drop>(
    hashed: &mut Hashed<K>,
    key: K,
    place: usize,
) -> Result<(), Memory>
    requires small { place + 1 < 2 ^ 32 }
    ensures ok { OnOk result ((k : K) →
        lookup (K.eq k) hashed.new.entries
        ≡ (if K.eq key k then Some place else lookup (K.eq k) hashed.old.entries)) }
    ensures refused { OnErr result (hashed.new.entries ≡ hashed.old.entries) }
{
    hashed.insert(key, place as u32)?;
    Ok(())
}
