//! The sections in which a state is: each keeps a Channel from all other states.
ghost use Rattle.std.specs.Prelude.{◌≡◌, []};
ghost use Rattle.turn_desk.specs.Closing.{HoldsNothing};
ghost use Rattle.channel_desk.specs.Holding.{IsHolding, IsLaid, first_number};

use crate::Pass;
use crate::shared::Shared;
use std::alloc::Global;
use turn_desk::{Bell, Desk, Held};

/// A Channel that a state has entered.
#[derive(Drop)]
pub struct Section {
    pub(crate) held: Held<Shared>,
    // How many sections of the state on this Channel lie in one another, from 1.
    pub(crate) depth: u32,
}

/// What a state does at a desk, and the sections that it is inside: those of [`HeldStack`].
pub struct Sections<'a, V: Drop> {
    pub(crate) pass: &'a mut Pass,
    pub(crate) desk: &'a Desk<Shared>,
    pub(crate) bell: &'a Bell,
    pub(crate) alloc: Global,
    pub(crate) state: u32,
    pub(crate) next: u32,
    pub(crate) held: V,
}

/// The deeds of one state at the Channels of a desk, by a pass that no other state uses meanwhile.
/// It holds the Channels that the state has entered, in the order of the outermost entries, and the
/// number of the state's next action.
pub type HeldStack<'a> = Sections<'a, Vec<Section>>;

impl<V: Drop> Drop for Sections<'_, V> {
    fn drop(self)
        ensures { self.exit.0.now ≡ self.entry.pass.now }
    {
        let Sections {
            pass: _,
            desk: _,
            bell: _,
            alloc: _,
            state: _,
            next: _,
            held,
        } = self;
        drop(held);
    }
}

impl<'a> Sections<'a, Vec<Section>> {
    /// A state at a desk, before its first action, or behind its beginning where its number isn't
    /// 0. The pass is one of the desk's and has no object; the desk has a board with workers as its
    /// first object, and behind it the 1,024 Channels. It takes no memory.
    pub fn new(
        alloc: Global,
        desk: &'a Desk<Shared>,
        bell: &'a Bell,
        pass: &'a mut Pass,
        state: u32,
    ) -> HeldStack<'a>
        requires laid { IsLaid desk.now pass.old }
        requires idle { HoldsNothing pass.old.view }
        ensures same { result.pass.ghost_name ≡ pass.entry.ghost_name }
        ensures desk { result.desk.now ≡ desk.now }
        ensures pass { result.pass.now ≡ pass.old }
        ensures state { result.state ≡ state }
        ensures next { result.next ≡ first_number state }
        ensures none { result.held.items ≡ [] }
        ensures holding { IsHolding
            result.desk.now result.state result.next result.pass.now result.held.items }
    {
        Sections {
            pass,
            desk,
            bell,
            alloc,
            state,
            next: if state == 0 { 1 } else { 2 },
            held: Vec::new(alloc),
        }
    }
}
