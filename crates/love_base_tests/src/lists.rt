use love_base::{List, Memory, Text};
use std::alloc::Global;
use std::test::Fail;

// The items in reverse order, by the calls of a list alone.
fn reversed<T: Clone + Drop>(alloc: Global, items: &List<T>) -> Result<List<T>, Fail> {
    let mut backwards = List::new(alloc);
    for place in 0..items.len() {
        if let Some(item) = items.get(items.len() - 1 - place) {
            match backwards.push(item.clone()?) {
                Ok(()) => {}
                Err((_, memory)) => return Err(memory.into()),
            }
        }
    }
    Ok(backwards)
}

// The numbers, put in one after the other.
fn grown(alloc: Global, numbers: &[u32]) -> Option<List<u32>> {
    let mut list = List::new(alloc);
    for number in numbers {
        if list.push(*number).is_err() {
            return None;
        }
    }
    Some(list)
}

// Whether the list tells the numbers of itself, in each of its ways.
fn tells(list: &List<u32>, numbers: &[u32]) -> bool {
    for at in [0, 1, 2, 3, usize::MAX] {
        if list.get(at) != numbers.get(at) {
            return false;
        }
    }
    list.len() == numbers.len()
        && list.is_empty() == numbers.is_empty()
        && list.as_slice() == numbers
}

#[test]
fn a_list_grows_at_its_end(rt: HostRuntime) -> Result<(), Fail> {
    for numbers in [[].as_slice(), &[7], &[7, 8, 9]] {
        let list = grown(rt.alloc(), numbers).ok_or("memory")?;
        assert!(rt; tells(&list, numbers), "{numbers:?}");
    }
    let list = grown(rt.alloc(), &[7, 8, 9]).ok_or("memory")?;
    let back = reversed(rt.alloc(), &list)?;
    assert!(rt; tells(&back, &[9, 8, 7]));
    Ok(())
}

#[test]
fn a_list_takes_a_vector_over(rt: HostRuntime) -> Result<(), Fail> {
    let letters = List::from_vec(vec![in rt.alloc(); b'a', b'b']?);
    assert!(rt; letters.as_slice() == b"ab".as_slice());
    Ok(())
}

#[test]
fn a_list_holds_what_cannot_be_copied(rt: HostRuntime) -> Result<(), Fail> {
    let mut names = List::new(rt.alloc());
    for bytes in [b"one".as_slice(), b"two"] {
        let pushed: Result<(), (Text, Memory)> = names.push(Text::of(rt.alloc(), bytes)?);
        assert!(rt; pushed.is_ok());
    }
    assert!(rt; matches!(names.get(1), Some(name) if name.bytes() == b"two".as_slice()));
    Ok(())
}
