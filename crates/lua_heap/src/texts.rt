//! Interned strings: each text once, in one arena.

ghost use Rattle.std.specs.Prelude.{◌≡◌, ℕ, ◌+◌, ◌<◌, [], ◌∷◌, ◌++◌, length, slice_get, Some, IfSome, IfOk, OnOk, OnErr, IsNone};
ghost use Rattle.lua_heap.specs.Texts.{interned, AreOnce, text_hash, IsEntered};

use indexmap::IndexMap;
use love_base::Memory;
use std::alloc::Global;
use std::hash::{FoldHasher, Hasher};
use std::marker::Model;

// Where a text stands in the arena.
#[derive(Clone, Copy, Debug)]
struct Span {
    start: usize,
    end: usize,
}

// Texts by their places. Contracts see them as the list of the texts, none of which stands twice.
#[derive(Debug, Drop)]
pub(crate) struct Texts {
    arena: Vec<u8>,
    spans: Vec<Span>,
    // For each hash the place of the first text that has it, and the places of all later ones.
    first: IndexMap<u64, usize>,
    later: Vec<usize>,
}

impl Model for Texts {
    ghost use Rattle.std.specs.Prelude.{List};
    ghost use Rattle.lua_tree.specs.Tree.{Bytes};
    ghost use Rattle.lua_heap.specs.Texts.{spanned, AreTexts};

    ghost Value = { List Bytes };

    ghost view = { λ t. spanned t.arena.items t.spans.items };

    ghost invariant = { λ t. AreTexts t.arena.items t.spans.items t.first.entries t.later.items };
}

// The hash of a text, in time linear in its length.
#[inline]
fn hash_of(text: &[u8]) -> u64
    ensures { result ≡ text_hash text.now }
{
    let mut hasher = FoldHasher::default();
    hasher.write(text);
    hasher.finish()
}

// Puts a text at the end of the arena.
fn append(arena: &mut Vec<u8>, spans: &mut Vec<Span>, text: &[u8]) -> Result<(), Memory>
    ensures arena { OnOk result (arena.new.items ≡ arena.old.items ++ text.now) }
    ensures spans { OnOk result (spans.new.items ≡ spans.old.items ++ record {
      start = length arena.old.items;
      end = length arena.old.items + length text.now;
    } ∷ []) }
    ensures arena_refused { OnErr result (arena.new.items ≡ arena.old.items) }
    ensures spans_refused { OnErr result (spans.new.items ≡ spans.old.items) }
{
    let start = arena.len();
    arena.extend_from_slice(text)?;
    let end = arena.len();
    if spans.push(Span { start, end }).is_err() {
        arena.truncate(start);
        return Err(Memory);
    }
    Ok(())
}

// Enters the place of a text by its hash.
fn enter(
    first: &mut IndexMap<u64, usize>,
    later: &mut Vec<usize>,
    hash: u64,
    place: usize,
) -> Result<(), Memory>
    ensures entered { OnOk result (IsEntered first.old.entries later.old.items
        first.new.entries later.new.items hash place) }
    ensures first_refused { OnErr result (first.new.entries ≡ first.old.entries) }
    ensures later_refused { OnErr result (later.new.items ≡ later.old.items) }
{
    if first.get(&hash).is_some() {
        later.push(place)?;
        return Ok(());
    }
    first.insert(hash, place)?;
    Ok(())
}

// The place of a text among some places.
fn find_later(texts: &Texts, later: &[usize], text: &[u8]) -> Option<usize>
    requires within { (k place : ℕ) → slice_get later.now k ≡ Some place
        → place < length texts.now }
    ensures found { IfSome result (λ place. slice_get texts.now place ≡ Some text.now) }
    ensures absent { IsNone result → (k place : ℕ) → slice_get later.now k ≡ Some place
        → slice_get texts.now place ≡ Some text.now → ⊥ }
{
    for place in later {
        let other = texts.get(*place);
        if other == text {
            return Some(*place);
        }
    }
    None
}

impl Texts {
    pub(crate) fn new(alloc: Global) -> Texts
        ensures { result ≡ [] }
    {
        Texts {
            arena: Vec::new(alloc),
            spans: Vec::new(alloc),
            first: IndexMap::new(alloc),
            later: Vec::new(alloc),
        }
    }

    pub(crate) fn len(&self) -> usize
        ensures { result ≡ length self.now }
    {
        self.spans.len()
    }

    // The text at a place.
    #[inline]
    pub(crate) fn get(&self, place: usize) -> &[u8]
        requires { place < length self.now }
        ensures text { slice_get self.now place ≡ Some result.now }
        ensures once { AreOnce self.now }
    {
        let span = self.spans[place];
        &self.arena[span.start..span.end]
    }

    // The place of a text, where it has one.
    fn find(&self, text: &[u8], hash: u64) -> Option<usize>
        requires { hash ≡ text_hash text.now }
        ensures found { IfSome result (λ place. slice_get self.now place ≡ Some text.now) }
        ensures absent { IsNone result
            → (place : ℕ) → slice_get self.now place ≡ Some text.now → ⊥ }
        ensures once { AreOnce self.now }
    {
        let first = *self.first.get(&hash)?;
        let other = self.get(first);
        if other == text {
            return Some(first);
        }
        find_later(self, &self.later, text)
    }

    // Gives a new text the place behind the others.
    #[inline(never)]
    fn add(&mut self, text: &[u8], hash: u64) -> Result<usize, Memory>
        requires hash { hash ≡ text_hash text.now }
        requires absent { (place : ℕ) → slice_get self.old place ≡ Some text.now → ⊥ }
        ensures place { IfOk result (λ place. slice_get self.new place ≡ Some text.now) }
        ensures texts { OnOk result (self.new ≡ interned self.old text.now) }
        ensures refused { OnErr result (self.new ≡ self.old) }
        ensures once { AreOnce self.new }
    {
        let place = self.spans.len();
        let start = self.arena.len();
        append(&mut self.arena, &mut self.spans, text)?;
        if let Err(refused) = enter(&mut self.first, &mut self.later, hash, place) {
            let _span = self.spans.pop();
            self.arena.truncate(start);
            return Err(refused);
        }
        Ok(place)
    }

    // The place of a text, which is a new one at the end where it had none.
    #[inline]
    pub(crate) fn intern(&mut self, text: &[u8]) -> Result<usize, Memory>
        ensures place { IfOk result (λ place. slice_get self.new place ≡ Some text.now) }
        ensures texts { OnOk result (self.new ≡ interned self.old text.now) }
        ensures refused { OnErr result (self.new ≡ self.old) }
        ensures once { AreOnce self.new }
    {
        let hash = hash_of(text);
        match self.find(text, hash) {
            Some(place) => Ok(place),
            None => self.add(text, hash),
        }
    }
}
