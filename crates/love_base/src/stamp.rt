/// Who wrote an entry of a history: the Lua state, and which of that state's actions it was.
#[derive(Clone, Copy, Debug, PartialEq, Eq)]
pub struct Stamp {
    /// The state's number: 0 is the one that runs `main.lua`.
    pub state: u32,
    /// The action's number among the actions of that state. Numbers rise within a state.
    pub number: u32,
}
