ghost use Rattle.std.specs.Prelude.{◌≡◌, ◌≤◌, ◌+◌, [], ◌∷◌, ◌++◌, drop, length, slice_range, count_by, IfSome};
ghost use Rattle.lua_pattern.specs.Ways.{ways, after, at_each, falling, rising, moves, balanced, closing, part, repeated, with_captures, close, IsFirstWay};
ghost use Rattle.lua_pattern.specs.Tree.{begins_capture};
ghost use Rattle.std.specs.List.{prefix_len};
ghost use Rattle.lua_pattern.specs.Class.{takes};

use crate::class::Class;
use crate::item::{Item, Repeat};
use crate::mark::{Mark, Marks};

// How many bytes an `x` and this text have up to the first `y` with which there are as many `y` as
// `x`.
fn closing(x: u8, y: u8, text: &[u8]) -> Option<usize>
    ensures value { result ≡ closing x y 1 1 text.now }
    ensures fits { IfSome result (λ n. n ≤ length text.now + 1) }
{
    let mut depth = 1usize;
    for (i, byte) in text.iter().enumerate() {
        if *byte == y {
            if depth == 1 {
                return Some(i + 2);
            }
            depth -= 1;
        } else if *byte == x {
            depth += 1;
        }
    }
    None
}

// How many bytes are balanced from an `x` at the front on.
fn balanced(x: u8, y: u8, text: &[u8]) -> Option<usize>
    ensures value { result ≡ balanced x y text.now }
    ensures fits { IfSome result (λ n. n ≤ length text.now) }
{
    let (first, rest) = text.split_first()?;
    if *first != x {
        return None;
    }
    closing(x, y, rest)
}

// The bytes from one place up to another, as far as there are some.
pub(crate) fn between(text: &[u8], start: usize, end: usize) -> &[u8]
    ensures { result.now ≡ slice_range text.now start end }
{
    let start = start.min(text.len());
    let end = end.min(text.len()).max(start);
    &text[start..end]
}

// How many bytes a text has at a place that are those of a capture once more.
fn repeated(text: &[u8], at: usize, capture: Option<Mark>) -> Option<usize>
    requires { at ≤ length text.now }
    ensures value { result ≡ repeated (drop at text.now) (part text.now capture) }
    ensures fits { IfSome result (λ n. at + n ≤ length text.now) }
{
    let Some(Mark::Part(start, end)) = capture else {
        return None;
    };
    let bytes = between(text, start, end);
    let rest = &text[at..];
    if rest.starts_with(bytes) {
        Some(bytes.len())
    } else {
        None
    }
}

// The first way of the items at a place: where it ends, with its captures in `marks`; or `None`
// where there is none, with `marks` as they were.
#[cycle(matcher)]
pub(crate) fn follow(items: &[Item], text: &[u8], at: usize, marks: &mut Marks) -> Option<usize>
    requires within { at ≤ length text.now }
    requires room { length marks.old + count_by begins_capture items.now ≤ 32 }
    ensures { IsFirstWay (ways items.now text.now at marks.old) result marks.old marks.new }
{
    let Some((item, rest)) = items.split_first() else {
        return Some(at);
    };
    match item {
        Item::Single(class, repeat) => follow_class(class, *repeat, rest, text, at, marks),
        Item::Open => follow_mark(Mark::Open(at), rest, text, at, marks),
        Item::Position => follow_mark(Mark::Place(at), rest, text, at, marks),
        Item::Close => follow_close(rest, text, at, marks),
        Item::Back(k) => {
            let length = repeated(text, at, marks.at(*k))?;
            follow(rest, text, at + length, marks)
        }
        Item::Balance(x, y) => {
            let length = balanced(*x, *y, &text[at..])?;
            follow(rest, text, at + length, marks)
        }
        Item::End => {
            if at != text.len() {
                return None;
            }
            follow(rest, text, at, marks)
        }
    }
}

// The first way behind a class that stands so often.
#[cycle(matcher)]
fn follow_class(
    class: &Class,
    repeat: Repeat,
    rest: &[Item],
    text: &[u8],
    at: usize,
    marks: &mut Marks,
) -> Option<usize>
    requires within { at ≤ length text.now }
    requires room { length marks.old + count_by begins_capture rest.now ≤ 32 }
    ensures { IsFirstWay
        (after rest.now text.now (moves (Item.Single class.now repeat) text.now at marks.old))
        result marks.old marks.new }
{
    match repeat {
        Repeat::Once => {
            if at == text.len() || !class.takes(text[at]) {
                return None;
            }
            follow(rest, text, at + 1, marks)
        }
        Repeat::Star => {
            let length = class.run_length(&text[at..]);
            farthest_first(rest, text, at, length + 1, marks)
        }
        Repeat::Plus => {
            let length = class.run_length(&text[at..]);
            farthest_first(rest, text, at + 1, length, marks)
        }
        Repeat::Minus => nearest_first(class, rest, text, at, marks),
        Repeat::Question => {
            let taken = at < text.len() && class.takes(text[at]);
            farthest_first(rest, text, at, if taken { 2 } else { 1 }, marks)
        }
    }
}

// The first way from one of so many places on, the last place first.
#[cycle(matcher)]
fn farthest_first(
    rest: &[Item],
    text: &[u8],
    first: usize,
    count: usize,
    marks: &mut Marks,
) -> Option<usize>
    requires within { first + count ≤ length text.now + 1 }
    requires room { length marks.old + count_by begins_capture rest.now ≤ 32 }
    ensures { IsFirstWay
        (after rest.now text.now (at_each marks.old (falling first count)))
        result marks.old marks.new }
{
    let mut left = count;
    while left > 0 {
        left -= 1;
        if let Some(end) = follow(rest, text, first + left, marks) {
            return Some(end);
        }
    }
    None
}

// The first way behind bytes of a class, as few as there can be.
#[cycle(matcher)]
fn nearest_first(
    class: &Class,
    rest: &[Item],
    text: &[u8],
    at: usize,
    marks: &mut Marks,
) -> Option<usize>
    requires within { at ≤ length text.now }
    requires room { length marks.old + count_by begins_capture rest.now ≤ 32 }
    ensures { IsFirstWay
        (after rest.now text.now (at_each marks.old
        (rising at (prefix_len (takes class.now) (drop at text.now) + 1))))
        result marks.old marks.new }
{
    let mut place = at;
    loop {
        if let Some(end) = follow(rest, text, place, marks) {
            return Some(end);
        }
        if place == text.len() || !class.takes(text[place]) {
            return None;
        }
        place += 1;
    }
}

// The first way behind a capture that begins.
#[cycle(matcher)]
fn follow_mark(
    mark: Mark,
    rest: &[Item],
    text: &[u8],
    at: usize,
    marks: &mut Marks,
) -> Option<usize>
    requires within { at ≤ length text.now }
    requires room { length marks.old + (1 + count_by begins_capture rest.now) ≤ 32 }
    ensures { IsFirstWay (ways rest.now text.now at (marks.old ++ mark ∷ [])) result
        marks.old marks.new }
{
    marks.push(mark);
    if let Some(end) = follow(rest, text, at, marks) {
        return Some(end);
    }
    let _mark = marks.pop();
    None
}

// The first way behind the end of a capture.
#[cycle(matcher)]
fn follow_close(rest: &[Item], text: &[u8], at: usize, marks: &mut Marks) -> Option<usize>
    requires within { at ≤ length text.now }
    requires room { length marks.old + count_by begins_capture rest.now ≤ 32 }
    ensures { IsFirstWay (after rest.now text.now (with_captures at (close at marks.old)))
        result marks.old marks.new }
{
    let (i, start) = marks.last_open()?;
    marks.set(i, Mark::Part(start, at));
    if let Some(end) = follow(rest, text, at, marks) {
        return Some(end);
    }
    marks.set(i, Mark::Open(start));
    None
}
