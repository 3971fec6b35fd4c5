use crate::{NoSuchKey, Position, Table};
use std::alloc::{AllocError, Global};
use std::test::Fail;

// Keys as a Lua state has them: most of them have no position.
#[derive(Clone, Copy, Debug, PartialEq, Eq, Hash)]
enum Key {
    Flag(bool),
    Whole(i64),
    Text(u32),
}

use Key::{Flag, Text, Whole};

const LAST: i64 = 99_999_999_999_999;

impl Position for Key {
    ghost use Rattle.std.specs.Prelude.{◌≡◌, ℕ, ◌≤◌, ◌&&◌, Option, None, Some, pos, negsuc, nat_le, if◌then◌else◌};
    ghost use Rattle.lua_table.specs.declared.tests.Key.TheVariants.{Flag, Whole, Text};
    ghost use Rattle.std.proofs.Common.{rules};
    ghost use Rattle.std.proofs.lemmas.Grind.{common_steps};

    ghost last_position = { 99999999999999 };

    ghost at_position = { λ n.
        if nat_le 1 n && nat_le n 99999999999999 then Some (Whole (pos n)) else None };

    ghost position_of = { elim [
      | Flag b ↦ None
      | Whole z ↦ elim z [
        | pos n ↦ (if nat_le 1 n && nat_le n 99999999999999 then Some n else None)
        | negsuc n ↦ None
      ]
      | Text t ↦ None
    ] };

    fn at(n: u64) -> Option<Self> {
        if n == 0 || n > LAST as u64 {
            None
        } else {
            Some(Key::Whole(n as i64))
        }
    }

    fn position(&self) -> Option<u64> {
        match *self {
            Key::Whole(n) if n > 0 && n <= LAST => Some(n as u64),
            _ => None,
        }
    }

    ghost equal_is_same = { Prim.search rules };

    ghost numbered = { Prim.search (rules, common_steps) };

    ghost inverse = { Prim.search (rules, common_steps) };
}

#[derive(Clone, Copy, Debug)]
enum Step {
    Set(Key, u32),
    Clear(Key),
}

// Whether the step was taken: only want of memory hinders it.
fn took(table: &mut Table<Key, u32>, step: Step) -> bool {
    match step {
        Step::Set(key, value) => table.set(key, value).is_ok(),
        Step::Clear(key) => {
            table.clear_key(&key);
            true
        }
    }
}

// The border after a step, which was taken.
fn border_after(table: &mut Table<Key, u32>, step: Step) -> Option<u64> {
    if took(table, step) {
        Some(table.border())
    } else {
        None
    }
}

// A table with values at the positions up to a number.
fn filled_to(alloc: Global, count: u32) -> Option<Table<Key, u32>> {
    let mut table = Table::new(alloc);
    for n in 0..count {
        if !took(&mut table, Step::Set(Whole(n as i64 + 1), 1)) {
            return None;
        }
    }
    Some(table)
}

#[test]
fn the_border_is_the_count_up_to_the_first_gap(rt: HostRuntime) {
    let mut table = Table::new(rt.alloc());
    assert_eq!(rt; table.border(), 0);
    for (step, border) in [
        (Step::Set(Whole(1), 10), 1),
        (Step::Set(Whole(2), 20), 2),
        (Step::Set(Whole(4), 40), 2),
        (Step::Set(Whole(3), 30), 4),
        (Step::Clear(Whole(2)), 1),
        (Step::Clear(Whole(9)), 1),
        (Step::Set(Whole(2), 21), 4),
        (Step::Set(Whole(0), 1), 4),
        (Step::Set(Text(5), 1), 4),
        (Step::Set(Whole(-1), 1), 4),
        (Step::Clear(Whole(0)), 4),
        (Step::Clear(Whole(4)), 3),
        (Step::Clear(Whole(1)), 0),
    ] {
        assert_eq!(rt;
            border_after(&mut table, step),
            Some(border),
            "after {step:?}"
        );
    }
}

#[test]
fn positions_come_in_any_order(rt: HostRuntime) {
    for (positions, borders) in [
        // falling
        ([5i64, 4, 3, 2, 1], [0u64, 0, 0, 0, 5]),
        // from the middle
        ([3, 2, 4, 1, 5], [0, 0, 0, 4, 5]),
        // the first one last
        ([2, 3, 4, 5, 1], [0, 0, 0, 0, 5]),
        // in pairs
        ([2, 1, 4, 3, 5], [0, 2, 2, 4, 5]),
    ] {
        let mut table = Table::new(rt.alloc());
        for at in 0..5 {
            let step = Step::Set(Whole(positions[at]), 1);
            assert_eq!(rt;
                border_after(&mut table, step),
                Some(borders[at]),
                "{positions:?}: after {step:?}"
            );
        }
    }
}

// Gaps on both sides of the ends of blocks and of what there was room for.
#[test]
fn a_closed_gap_shows_the_next(rt: HostRuntime) {
    let mut table = filled_to(rt.alloc(), 5_000).expect(&rt, "memory");
    for (step, border) in [
        (Step::Clear(Whole(4_097)), 4_096),
        (Step::Clear(Whole(64)), 63),
        (Step::Clear(Whole(65)), 63),
        (Step::Clear(Whole(5_000)), 63),
        (Step::Set(Whole(64), 2), 64),
        (Step::Set(Whole(65), 2), 4_096),
        (Step::Set(Whole(4_097), 2), 4_999),
        (Step::Set(Whole(5_000), 2), 5_000),
        (Step::Clear(Whole(4_096)), 4_095),
        (Step::Clear(Whole(1)), 0),
        (Step::Set(Whole(1), 2), 4_095),
        (Step::Set(Whole(5_001), 2), 4_095),
        (Step::Set(Whole(4_096), 2), 5_001),
    ] {
        assert_eq!(rt;
            border_after(&mut table, step),
            Some(border),
            "after {step:?}"
        );
    }
}

#[test]
fn a_key_keeps_its_place(rt: HostRuntime) {
    let mut table = Table::new(rt.alloc());
    for step in [
        Step::Set(Whole(1), 10),
        Step::Set(Whole(2), 20),
        Step::Set(Whole(3), 30),
        Step::Set(Text(0), 1),
        Step::Clear(Whole(2)),
        Step::Set(Text(0), 5),
        Step::Set(Flag(true), 6),
    ] {
        assert!(rt; took(&mut table, step), "{step:?}");
    }
    assert_eq!(rt; table.get(&Whole(2)), None);
    assert_eq!(rt; table.next(Some(&Whole(1))), Ok(Some((&Whole(3), &30))));
    assert_eq!(rt; table.next(Some(&Whole(2))), Ok(Some((&Whole(3), &30))));
    assert!(rt; took(&mut table, Step::Set(Whole(2), 7)));
    for (after, next) in [
        (None, Ok(Some((&Whole(1), &10)))),
        (Some(&Whole(1)), Ok(Some((&Whole(2), &7)))),
        (Some(&Whole(2)), Ok(Some((&Whole(3), &30)))),
        (Some(&Whole(3)), Ok(Some((&Text(0), &5)))),
        (Some(&Text(0)), Ok(Some((&Flag(true), &6)))),
        (Some(&Flag(true)), Ok(None)),
        (Some(&Flag(false)), Err(NoSuchKey)),
        (Some(&Whole(9)), Err(NoSuchKey)),
    ] {
        assert_eq!(rt; table.next(after), next, "after {after:?}");
    }
}

type Pairs = Vec<(Key, Option<u32>)>;

// The step on a plain list of pairs.
fn took_plainly(pairs: &mut Pairs, step: Step) -> Result<(), AllocError> {
    let (key, value) = match step {
        Step::Set(key, value) => (key, Some(value)),
        Step::Clear(key) => (key, None),
    };
    for pair in pairs.iter_mut() {
        if pair.0 == key {
            pair.1 = value;
            return Ok(());
        }
    }
    if value.is_some() {
        pairs.push((key, value))?;
    }
    Ok(())
}

fn value_in(pairs: &Pairs, key: Key) -> Option<u32> {
    for pair in pairs {
        if pair.0 == key {
            return pair.1;
        }
    }
    None
}

// The count of values at 1, 2, 3 and so on, which here ends at 40.
fn plain_border(pairs: &Pairs) -> u64 {
    let mut border = 0;
    for n in 0..40u64 {
        if value_in(pairs, Whole(n as i64 + 1)).is_none() {
            break;
        }
        border = n + 1;
    }
    border
}

// Whether the table walks over the pairs with values, in their order, and has these values at their
// keys.
fn walks_as(table: &Table<Key, u32>, pairs: &Pairs) -> bool {
    let mut after = None;
    for (key, value) in pairs {
        if table.get(key) != value.as_ref() {
            return false;
        }
        if let Some(value) = value {
            if table.next(after) != Ok(Some((key, value))) {
                return false;
            }
            after = Some(key);
        }
    }
    table.next(after) == Ok(None)
}

// The keys 1 to 40 and seven others.
fn key_of(n: u64) -> Key {
    match n {
        0 => Flag(false),
        1 => Flag(true),
        2 => Text(1),
        3 => Whole(0),
        4 => Whole(-40),
        5 => Whole(LAST),
        6 => Whole(LAST + 1),
        n => Whole((n % 40 + 1) as i64),
    }
}

// Three sets to a clear, on keys and with values that a linear congruence scatters.
fn step_of(seed: u64) -> Step {
    let key = key_of((seed >> 33) % 47);
    let value = ((seed >> 17) & 0xffff) as u32;
    if seed >> 62 == 0 {
        Step::Clear(key)
    } else {
        Step::Set(key, value)
    }
}

#[test]
fn a_table_is_a_plain_list_of_pairs(rt: HostRuntime) -> Result<(), Fail> {
    let mut table = Table::new(rt.alloc());
    let mut pairs = Vec::new(rt.alloc());
    let mut seed = 2026u64;
    for at in 0..2_000 {
        seed = seed
            .wrapping_mul(6_364_136_223_846_793_005)
            .wrapping_add(1_442_695_040_888_963_407);
        let step = step_of(seed);
        assert!(rt; took(&mut table, step), "step {at}");
        took_plainly(&mut pairs, step)?;
        assert!(rt; walks_as(&table, &pairs), "step {at}: {step:?}");
        assert_eq!(rt; table.border(), plain_border(&pairs), "step {at}: {step:?}");
    }
    assert_eq!(rt; pairs.len(), 47);
    Ok(())
}

// Keys 1 to 3 and no others.
#[derive(Clone, Copy, Debug, PartialEq, Eq, Hash)]
struct Few(u8);

impl Position for Few {
    ghost use Rattle.std.specs.Prelude.{◌≡◌, ◌≤◌, ◌&&◌, None, Some, nat_le, if◌then◌else◌};
    ghost use Rattle.std.proofs.Common.{rules};
    ghost use Rattle.std.proofs.lemmas.Grind.{common_steps};

    ghost last_position = { 3 };

    ghost at_position = { λ n. if nat_le 1 n && nat_le n 3 then Some (record { 0 = n }) else None };

    ghost position_of = { λ key. if nat_le 1 key.0 && nat_le key.0 3 then Some key.0 else None };

    fn at(n: u64) -> Option<Self> {
        if n == 0 || n > 3 {
            None
        } else {
            Some(Few(n as u8))
        }
    }

    fn position(&self) -> Option<u64> {
        if self.0 == 0 || self.0 > 3 {
            None
        } else {
            Some(self.0 as u64)
        }
    }

    ghost equal_is_same = { Prim.search rules };

    ghost numbered = { Prim.search (rules, common_steps) };

    ghost inverse = { Prim.search (rules, common_steps) };
}

#[test]
fn the_border_ends_at_the_last_position(rt: HostRuntime) {
    let mut table = Table::new(rt.alloc());
    for (key, border) in [
        (Few(4), 0),
        (Few(2), 0),
        (Few(3), 0),
        (Few(1), 3),
        (Few(0), 3),
    ] {
        assert!(rt; table.set(key, 1).is_ok(), "{key:?}");
        assert_eq!(rt; table.border(), border, "after {key:?}");
    }
    assert_eq!(rt; table.next(Some(&Few(3))), Ok(Some((&Few(1), &1))));
}

// How many of the bits from the lowest on are set before the first that isn't.
fn first_gap(bits: u64) -> u64 {
    let mut count = 0u64;
    for bit in 0..63u64 {
        if bits >> bit & 1 == 0 {
            break;
        }
        count = bit + 1;
    }
    count
}

// Fills the seven positions behind `before`, all of which are empty, in the order of this number,
// and says whether the border was right after each.
fn fills_in_order(
    alloc: Global,
    table: &mut Table<Key, u32>,
    before: u32,
    order: usize,
) -> Result<bool, AllocError> {
    let mut left = Vec::new(alloc);
    for n in 0..7u64 {
        left.push(n)?;
    }
    let mut order = order;
    let mut filled = 0u64;
    let mut right = true;
    for _ in 0..7 {
        let count = left.len();
        if count == 0 {
            break;
        }
        let n = left.remove(order % count) % 7;
        order /= count;
        filled |= 1 << n;
        right = right
            && took(table, Step::Set(Whole(before as i64 + n as i64 + 1), 1))
            && table.border() == before as u64 + first_gap(filled).min(7);
    }
    Ok(right)
}

// Whether the seven positions behind `before`, once taken away, close in the order of this number.
fn closes_in_order(
    alloc: Global,
    table: &mut Table<Key, u32>,
    before: u32,
    order: usize,
) -> Result<bool, AllocError> {
    let mut right = true;
    for n in 0..7 {
        let step = Step::Clear(Whole(before as i64 + n + 1));
        right = right && border_after(table, step) == Some(before as u64);
    }
    Ok(right && fills_in_order(alloc, table, before, order)?)
}

#[test]
fn positions_fill_in_every_order(rt: HostRuntime) -> Result<(), Fail> {
    for order in 0..5_040 {
        let mut table = Table::new(rt.alloc());
        assert!(rt;
            fills_in_order(rt.alloc(), &mut table, 0, order)?,
            "{order}"
        );
    }
    Ok(())
}

#[test]
fn gaps_close_in_every_order(rt: HostRuntime) -> Result<(), Fail> {
    // The seven stand across the end of a block.
    let before = 60;
    let mut table = filled_to(rt.alloc(), before + 7).expect(&rt, "memory");
    for order in 0..5_040 {
        assert!(rt;
            closes_in_order(rt.alloc(), &mut table, before, order)?,
            "{order}"
        );
    }
    Ok(())
}

// Keys that are refused once where a request for memory is.
#[test]
fn a_refused_set_changes_nothing(rt: HostRuntime) -> Result<(), Fail> {
    let mut pairs = Vec::with_capacity(rt.alloc(), 200)?;
    let mut table = Table::new(rt.alloc());
    for n in 0..200u32 {
        let key = match n % 4 {
            0 => Whole(n as i64 * 1_000),
            1 => Text(n),
            _ => Whole(n as i64),
        };
        let step = Step::Set(key, 1);
        if !took(&mut table, step) {
            assert!(rt; walks_as(&table, &pairs), "{step:?}");
            assert_eq!(rt; table.border(), plain_border(&pairs), "{step:?}");
            assert!(rt; took(&mut table, step), "{step:?}");
        }
        took_plainly(&mut pairs, step)?;
        assert!(rt; walks_as(&table, &pairs), "{step:?}");
    }
    Ok(())
}

#[test]
fn a_table_shows_its_places(rt: HostRuntime) -> Result<(), Fail> {
    let mut table = Table::new(rt.alloc());
    assert!(rt; took(&mut table, Step::Set(Whole(1), 10)));
    let text = format!(in rt.alloc(); "{table:?}")?;
    assert_eq!(rt;
        text.as_str(),
        "Table { places: Places { keys: Keys { keys: [Whole(1)], listed: [1], hashed: {}, \
         astray: false }, values: [Some(10)] }, border: Border { reached: 1, gaps: Gaps { \
         flags: [false, false, false, false, false, false, false, false], \
         tree: [4294967295, 4294967295], alloc: Global } } }"
    );
    Ok(())
}
