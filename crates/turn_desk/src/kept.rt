//! The slots that a seat keeps lie in a row, of which it reaches the first alone. Turning the row
//! is no step: it changes no word and no view.
ghost use Rattle.std.specs.Prelude.{◌≡◌, ◌+◌, ◌<◌, ◌≤◌, ◌++◌, length, take, drop, remove, slice_index, vec_len, vec_capacity, Contains};

use atomic_table::Seat;

// The place of an object among those that are kept. The last is looked at first, since sections
// that lie in one another are left in that order.
pub(crate) fn place_of(kept: &[u32], object: u32) -> usize
    requires { Contains kept.now object }
    ensures within { result < length kept.now }
    ensures found { slice_index kept.now result ≡ object }
{
    let mut place = kept.len();
    while place > 0 {
        place -= 1;
        if kept[place] == object {
            return place;
        }
    }
    unreachable!()
}

// Takes what is at a place out of those that are kept.
pub(crate) fn forget(kept: &mut Vec<u32>, place: usize)
    requires { place < vec_len kept.old }
    ensures items { kept.new.items ≡ remove kept.old.items place }
    ensures len { vec_len kept.old ≡ vec_len kept.new + 1 }
    ensures capacity { vec_capacity kept.new ≡ vec_capacity kept.old }
{
    if place + 1 == kept.len() {
        let _last = kept.pop();
    } else {
        kept.remove(place);
    }
}

// Turns the row so that what was the n-th slot, counted from 0, is the first.
pub(crate) fn turn_by<S, V>(seat: &mut Seat<S, V>, n: usize)
    requires { n ≤ length seat.old.me.1 }
    ensures same { (seat.new.table_id ≡ seat.old.table_id) × (seat.new.id ≡ seat.old.id)
        × (seat.new.me.0 ≡ seat.old.me.0) }
    ensures turned { seat.new.me.1 ≡ drop n seat.old.me.1 ++ take n seat.old.me.1 }
{
    for _ in 0..n {
        seat.turn();
    }
}
