// What is around a place of a source.
ghost use Rattle.std.specs.Prelude.{◌≡◌, ◌+◌, ◌≤◌, true, false, List, length};
ghost use Rattle.lua_tree.specs.Tree.{Bytes, Stat as Statement};
ghost use Rattle.lua_tree.specs.Attributes.{at_chunk, declared as declared_by};
ghost use Rattle.lua_tree.specs.Reading.{behind, down, held as held_so, in_body, in_loop as looped_so};
ghost use Rattle.lua_tree.specs.Answer.{counts};

#[derive(Clone, Copy)]
pub(crate) struct Scope {
    // How many blocks and expressions are around it, the chunk's own block not counted.
    pub depth: u32,
    // Whether its function has `...`.
    pub dots: bool,
    // Whether a loop of its function is around it.
    pub in_loop: bool,
    // How many locals of its function are in scope, hidden ones counted.
    pub locals: u32,
}

impl Scope {
    // That of a chunk.
    pub(crate) fn chunk() -> Scope
        ensures counts { counts result ≡ at_chunk }
        ensures depth { result.depth ≡ 0 }
        ensures dots { result.dots ≡ true }
        ensures in_loop { result.in_loop ≡ false }
        ensures locals { result.locals ≡ 0 }
    {
        Scope {
            depth: 0,
            dots: true,
            in_loop: false,
            locals: 0,
        }
    }

    // That of the body of a function with so many parameters here.
    pub(crate) fn function(self, dots: bool, parameters: u32) -> Scope
        requires { self.depth + 1 ≤ 200 }
        ensures counts { (params : List Bytes) → length params ≡ parameters →
            counts result ≡ in_body params dots (counts self) }
        ensures depth { result.depth ≡ self.depth + 1 }
        ensures dots { result.dots ≡ dots }
        ensures in_loop { result.in_loop ≡ false }
        ensures locals { result.locals ≡ parameters }
    {
        Scope {
            depth: self.depth + 1,
            dots,
            in_loop: false,
            locals: parameters,
        }
    }

    // That of a node here.
    pub(crate) fn deeper(self) -> Scope
        requires { self.depth ≤ 200 }
        ensures counts { counts result ≡ down (counts self) }
        ensures depth { result.depth ≡ self.depth + 1 }
        ensures dots { result.dots ≡ self.dots }
        ensures in_loop { result.in_loop ≡ self.in_loop }
        ensures locals { result.locals ≡ self.locals }
    {
        Scope {
            depth: self.depth + 1,
            dots: self.dots,
            in_loop: self.in_loop,
            locals: self.locals,
        }
    }

    // One node deeper where one has to come around what stands here.
    pub(crate) fn held(self, held: bool) -> Scope
        requires { self.depth ≤ 200 }
        ensures counts { counts result ≡ held_so held (counts self) }
        ensures above { self.depth ≤ result.depth }
        ensures below { result.depth ≤ self.depth + 1 }
        ensures dots { result.dots ≡ self.dots }
        ensures in_loop { result.in_loop ≡ self.in_loop }
        ensures locals { result.locals ≡ self.locals }
    {
        if held { self.deeper() } else { self }
    }

    // That of a loop's block, which has so many locals of the loop.
    pub(crate) fn in_loop(self, locals: u32) -> Scope
        requires depth { self.depth + 1 ≤ 200 }
        requires locals { self.locals + locals ≤ 200 }
        ensures counts { counts result ≡ looped_so locals (counts self) }
        ensures depth { result.depth ≡ self.depth + 1 }
        ensures dots { result.dots ≡ self.dots }
        ensures in_loop { result.in_loop ≡ true }
        ensures locals { result.locals ≡ self.locals + locals }
    {
        Scope {
            depth: self.depth + 1,
            dots: self.dots,
            in_loop: true,
            locals: self.locals + locals,
        }
    }

    // The same behind a statement that declares so many locals.
    pub(crate) fn declared(self, locals: u32) -> Scope
        requires { self.locals + locals ≤ 200 }
        ensures counts { (stat : Statement) → declared_by stat ≡ locals →
            counts result ≡ behind stat (counts self) }
        ensures depth { result.depth ≡ self.depth }
        ensures dots { result.dots ≡ self.dots }
        ensures in_loop { result.in_loop ≡ self.in_loop }
        ensures locals { result.locals ≡ self.locals + locals }
    {
        Scope {
            depth: self.depth,
            dots: self.dots,
            in_loop: self.in_loop,
            locals: self.locals + locals,
        }
    }
}
