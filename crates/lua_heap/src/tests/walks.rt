use crate::tests::{number, set, table, text};
use crate::{Heap, Value};
use love_base::Memory;

// Whether the pair behind a key of a table is this one; without one, whether there is none.
fn has_next(heap: &Heap, base: &Value, after: &Value, pair: Option<(&Value, &Value)>) -> bool {
    if !heap.is_made(*base) || !heap.is_made(*after) {
        return false;
    }
    let Value::Table(id) = *base else {
        return false;
    };
    match (heap.next(id, *after), pair) {
        (Ok(Some((key, value))), Some((wanted, held))) => key == *wanted && value == *held,
        (Ok(None), None) => true,
        _ => false,
    }
}

// Whether a key was never set in a table.
fn is_unknown(heap: &Heap, base: &Value, key: &Value) -> bool {
    if !heap.is_made(*base) || !heap.is_made(*key) {
        return false;
    }
    match *base {
        Value::Table(id) => heap.next(id, *key).is_err(),
        _ => false,
    }
}

#[test]
fn pairs_have_their_order(rt: HostRuntime) -> Result<(), Memory> {
    let mut heap = Heap::new(rt.alloc())?;
    let t = &table(&mut heap);
    let x = &text(&mut heap, b"x");
    let y = &text(&mut heap, b"y");
    let one = &number(1);
    let seven = &number(7);
    assert!(rt; set(&mut heap, t, x, one));
    assert!(rt; set(&mut heap, t, seven, y));
    assert!(rt; set(&mut heap, t, y, t));
    assert!(rt; set(&mut heap, t, seven, &Value::Nil));
    assert!(rt; has_next(&heap, t, &Value::Nil, Some((x, one))));
    assert!(rt; has_next(&heap, t, x, Some((y, t))));
    assert!(rt; has_next(&heap, t, seven, Some((y, t))));
    assert!(rt; has_next(&heap, t, y, None));
    assert!(rt; is_unknown(&heap, t, one));
    Ok(())
}
