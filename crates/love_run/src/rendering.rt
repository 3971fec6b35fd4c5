//! What is written of the states of a game.

ghost use Rattle.std.specs.Prelude.{◌≡◌, ◌++◌, IfOk, OnOk, option_map};
ghost use Rattle.love_run.specs.Rendering.{end_words, line_on, main_end, main_part, other_part, rendering, source_name};

use itoa::Buffer;
use love_base::Memory;
use lua_state::StateRecord;
use std::alloc::Global;
use variant::{EndKind, Source};

// What is written of these states, of which the first is state 0: what it printed, and how it
// ended unless it is done; then of each further one which it is, what it printed and how it ended.
pub(crate) fn render(alloc: Global, states: &[StateRecord]) -> Result<Vec<u8>, Memory>
    ensures { IfOk result (λ bytes. bytes.items ≡ rendering states.now) }
{
    let mut out = Vec::new(alloc);
    let Some((main, others)) = states.split_first() else {
        return Ok(out);
    };
    put_main(&mut out, main)?;
    for state in others {
        put_other(&mut out, state)?;
    }
    Ok(out)
}

fn put_main(out: &mut Vec<u8>, state: &StateRecord) -> Result<(), Memory>
    ensures { OnOk result (out.new.items ≡ out.old.items ++ main_part state.now) }
{
    out.extend_from_slice(state.out.bytes())?;
    if let EndKind::Done(_) = &state.end {
        return Ok(());
    }
    put_end(out, state.state, &state.end)
}

fn put_other(out: &mut Vec<u8>, state: &StateRecord) -> Result<(), Memory>
    ensures { OnOk result (out.new.items ≡ out.old.items ++ other_part state.now) }
{
    put_line(out, state.state, b"", source_name(&state.source))?;
    out.extend_from_slice(state.out.bytes())?;
    put_end(out, state.state, &state.end)
}

// The name of what a state ran.
fn source_name(source: &Source) -> &[u8]
    ensures { result.now ≡ source_name source.now }
{
    match source {
        Source::File(name) => name.bytes(),
        Source::FileData(contents) => match contents.name() {
            Some(name) => name.bytes(),
            None => b"",
        },
        Source::Code(_) => b"code",
    }
}

// How a state ended.
fn put_end(out: &mut Vec<u8>, state: u32, end: &EndKind) -> Result<(), Memory>
    ensures { OnOk result
        (out.new.items ≡ out.old.items ++ line_on state (end_words state end.now)) }
{
    match end {
        EndKind::Done(_) => put_line(out, state, b"", b"done"),
        EndKind::Error(text) => put_line(out, state, b"error: ", text.bytes()),
        EndKind::OutOfSteps => put_line(out, state, b"", b"out of steps"),
        EndKind::Stopped => put_line(out, state, b"", stop_words(state)),
        EndKind::Memory => put_line(out, state, b"", b"out of memory"),
    }
}

// How a state is told of that waits for ever, or was stopped at a wait.
fn stop_words(state: u32) -> &'static [u8]
    ensures { result.now ≡ end_words state EndKind.Stopped }
{
    if state == 0 { b"waiting" } else { b"stopped" }
}

// A line on a state, of a text in two parts.
fn put_line(out: &mut Vec<u8>, state: u32, front: &[u8], text: &[u8]) -> Result<(), Memory>
    ensures { OnOk result
        (out.new.items ≡ out.old.items ++ line_on state (front.now ++ text.now)) }
{
    out.extend_from_slice(b"-- state ")?;
    out.extend_from_slice(Buffer::new().format(state).as_bytes())?;
    out.extend_from_slice(b" ")?;
    out.extend_from_slice(front)?;
    out.extend_from_slice(text)?;
    out.push(b'\n')?;
    Ok(())
}
