use love_base::Text;
use lua_compile::compile;
use lua_tree::parse;
use std::alloc::Global;
use std::test::Fail;

// The instructions of a source's functions, one a line, behind a line for each function.
fn listing(alloc: Global, source: &str) -> Result<String, Fail> {
    let chunk = parse(alloc, source.as_bytes())?;
    let code = compile(alloc, &chunk, &Text::of(alloc, b"a.lua")?)?;
    let mut lines = String::new(alloc);
    for proto in code.protos() {
        lines.push_str("function\n")?;
        for instr in proto.instrs() {
            let line = format!(in alloc; "{instr:?}\n")?;
            lines.push_str(line.as_str())?;
        }
    }
    Ok(lines)
}

// Sources with their instructions, which were read against the definitions of the nodes' code.
const ROWS: [(&str, &str); 17] = [
    (
        "",
        "function\n\
         Leave { from: 0, count: 0, tailed: false }\n",
    ),
    (
        "local a = 1 while a do a = f(a) end",
        "function\n\
         Tick\n\
         Const { to: 0, constant: 1 }\n\
         Tick\n\
         Skip { count: 5 }\n\
         Tick\n\
         GetGlobal { to: 1, name: 0 }\n\
         Move { to: 2, from: 0 }\n\
         Invoke { to: 1, at: 1, count: 1, tailed: false }\n\
         Move { to: 0, from: 1 }\n\
         BackIf { from: 0, count: 5 }\n\
         Leave { from: 0, count: 0, tailed: false }\n",
    ),
    (
        "local a, b = f() if a then g() elseif b then h() else k() end",
        "function\n\
         Tick\n\
         GetGlobal { to: 0, name: 3 }\n\
         InvokeAll { at: 0, count: 0, tailed: false }\n\
         Spread { from: 0, count: 2, tailed: true }\n\
         Tick\n\
         SkipUnless { from: 0, count: 4 }\n\
         Tick\n\
         GetGlobal { to: 2, name: 2 }\n\
         Invoke { to: 2, at: 2, count: 0, tailed: false }\n\
         Skip { count: 8 }\n\
         SkipUnless { from: 1, count: 4 }\n\
         Tick\n\
         GetGlobal { to: 2, name: 1 }\n\
         Invoke { to: 2, at: 2, count: 0, tailed: false }\n\
         Skip { count: 3 }\n\
         Tick\n\
         GetGlobal { to: 2, name: 0 }\n\
         Invoke { to: 2, at: 2, count: 0, tailed: false }\n\
         Leave { from: 0, count: 0, tailed: false }\n",
    ),
    (
        "repeat local x = f() until x",
        "function\n\
         Tick\n\
         Tick\n\
         Tick\n\
         GetGlobal { to: 0, name: 0 }\n\
         InvokeAll { at: 0, count: 0, tailed: false }\n\
         Spread { from: 0, count: 1, tailed: true }\n\
         BackUnless { from: 0, count: 4 }\n\
         Leave { from: 0, count: 0, tailed: false }\n",
    ),
    (
        "for i = 1, 10 do print(i) end",
        "function\n\
         Tick\n\
         Const { to: 0, constant: 3 }\n\
         Const { to: 1, constant: 2 }\n\
         Const { to: 2, constant: 1 }\n\
         ForBegin { at: 0, count: 5 }\n\
         Tick\n\
         GetGlobal { to: 4, name: 0 }\n\
         Move { to: 5, from: 3 }\n\
         Invoke { to: 4, at: 4, count: 1, tailed: false }\n\
         ForNext { at: 0, count: 4 }\n\
         Leave { from: 0, count: 0, tailed: false }\n",
    ),
    (
        "for k, v in pairs(t) do break end",
        "function\n\
         Tick\n\
         GetGlobal { to: 0, name: 1 }\n\
         GetGlobal { to: 1, name: 0 }\n\
         InvokeAll { at: 0, count: 1, tailed: false }\n\
         Spread { from: 0, count: 3, tailed: true }\n\
         Skip { count: 2 }\n\
         Tick\n\
         Skip { count: 6 }\n\
         Move { to: 3, from: 0 }\n\
         Move { to: 4, from: 1 }\n\
         Move { to: 5, from: 2 }\n\
         InvokeAll { at: 3, count: 2, tailed: false }\n\
         Spread { from: 3, count: 2, tailed: true }\n\
         EachNext { at: 0, count: 7 }\n\
         Leave { from: 0, count: 0, tailed: false }\n",
    ),
    (
        "local t = {} t.a.b, t = 1, 2",
        "function\n\
         Tick\n\
         NewTable { to: 0 }\n\
         Tick\n\
         GetNamed { to: 1, base: 0, name: 3 }\n\
         Const { to: 2, constant: 2 }\n\
         Const { to: 3, constant: 1 }\n\
         Const { to: 4, constant: 0 }\n\
         Move { to: 0, from: 4 }\n\
         SetField { base: 1, key: 2, from: 3 }\n\
         Leave { from: 0, count: 0, tailed: false }\n",
    ),
    (
        "local function f() return f end return f",
        "function\n\
         Tick\n\
         GetCell { to: 0, cell: 0 }\n\
         Leave { from: 0, count: 1, tailed: false }\n\
         Leave { from: 0, count: 0, tailed: false }\n\
         function\n\
         Tick\n\
         Const { to: 0, constant: 0 }\n\
         NewCell { cell: 0, from: 0 }\n\
         Close { to: 0, proto: 0 }\n\
         SetCell { cell: 0, from: 0 }\n\
         Tick\n\
         GetCell { to: 1, cell: 0 }\n\
         Leave { from: 1, count: 1, tailed: false }\n\
         Leave { from: 0, count: 0, tailed: false }\n",
    ),
    (
        "function a.b:c(x) return self, x end",
        "function\n\
         Tick\n\
         Move { to: 2, from: 0 }\n\
         Move { to: 3, from: 1 }\n\
         Leave { from: 2, count: 2, tailed: false }\n\
         Leave { from: 0, count: 0, tailed: false }\n\
         function\n\
         Tick\n\
         GetGlobal { to: 0, name: 2 }\n\
         GetNamed { to: 0, base: 0, name: 1 }\n\
         Const { to: 1, constant: 0 }\n\
         Close { to: 2, proto: 0 }\n\
         SetField { base: 0, key: 1, from: 2 }\n\
         Leave { from: 0, count: 0, tailed: false }\n",
    ),
    (
        "local x = 1 local function g() x = x + 1 return x end x = g()",
        "function\n\
         Tick\n\
         GetCell { to: 0, cell: 0 }\n\
         BinaryConst { op: Add, to: 0, left: 0, constant: 0 }\n\
         SetCell { cell: 0, from: 0 }\n\
         Tick\n\
         GetCell { to: 0, cell: 0 }\n\
         Leave { from: 0, count: 1, tailed: false }\n\
         Leave { from: 0, count: 0, tailed: false }\n\
         function\n\
         Tick\n\
         Const { to: 0, constant: 1 }\n\
         NewCell { cell: 0, from: 0 }\n\
         Tick\n\
         Const { to: 1, constant: 0 }\n\
         Close { to: 1, proto: 0 }\n\
         Tick\n\
         Move { to: 2, from: 1 }\n\
         InvokeAll { at: 2, count: 0, tailed: false }\n\
         Spread { from: 2, count: 1, tailed: true }\n\
         SetCell { cell: 0, from: 2 }\n\
         Leave { from: 0, count: 0, tailed: false }\n",
    ),
    (
        "a, b = b, a",
        "function\n\
         Tick\n\
         GetGlobal { to: 0, name: 3 }\n\
         GetGlobal { to: 1, name: 2 }\n\
         SetGlobal { name: 1, from: 1 }\n\
         SetGlobal { name: 0, from: 0 }\n\
         Leave { from: 0, count: 0, tailed: false }\n",
    ),
    (
        "local x local y = function() return x end x = 2",
        "function\n\
         Tick\n\
         GetCell { to: 0, cell: 0 }\n\
         Leave { from: 0, count: 1, tailed: false }\n\
         Leave { from: 0, count: 0, tailed: false }\n\
         function\n\
         Tick\n\
         Spread { from: 0, count: 1, tailed: false }\n\
         NewCell { cell: 0, from: 0 }\n\
         Tick\n\
         Close { to: 1, proto: 0 }\n\
         Tick\n\
         Const { to: 2, constant: 0 }\n\
         SetCell { cell: 0, from: 2 }\n\
         Leave { from: 0, count: 0, tailed: false }\n",
    ),
    (
        "while true do if a then break end end",
        "function\n\
         Tick\n\
         Skip { count: 5 }\n\
         Tick\n\
         GetGlobal { to: 0, name: 1 }\n\
         SkipUnless { from: 0, count: 2 }\n\
         Tick\n\
         Skip { count: 2 }\n\
         Const { to: 0, constant: 0 }\n\
         BackIf { from: 0, count: 6 }\n\
         Leave { from: 0, count: 0, tailed: false }\n",
    ),
    (
        "do local a = 1 end return ...",
        "function\n\
         Tick\n\
         Tick\n\
         Const { to: 0, constant: 0 }\n\
         Tick\n\
         AllExtra\n\
         Leave { from: 0, count: 0, tailed: true }\n\
         Leave { from: 0, count: 0, tailed: false }\n",
    ),
    (
        "return f(...)",
        "function\n\
         Tick\n\
         GetGlobal { to: 0, name: 0 }\n\
         AllExtra\n\
         InvokeAll { at: 0, count: 0, tailed: true }\n\
         Leave { from: 0, count: 0, tailed: true }\n\
         Leave { from: 0, count: 0, tailed: false }\n",
    ),
    (
        "local a = x and y or z",
        "function\n\
         Tick\n\
         GetGlobal { to: 0, name: 2 }\n\
         SkipUnless { from: 0, count: 1 }\n\
         GetGlobal { to: 0, name: 1 }\n\
         SkipIf { from: 0, count: 1 }\n\
         GetGlobal { to: 0, name: 0 }\n\
         Leave { from: 0, count: 0, tailed: false }\n",
    ),
    (
        "for i = 1, 2 do local function g() return i end end",
        "function\n\
         Tick\n\
         GetCell { to: 0, cell: 0 }\n\
         Leave { from: 0, count: 1, tailed: false }\n\
         Leave { from: 0, count: 0, tailed: false }\n\
         function\n\
         Tick\n\
         Const { to: 0, constant: 3 }\n\
         Const { to: 1, constant: 2 }\n\
         Const { to: 2, constant: 1 }\n\
         ForBegin { at: 0, count: 5 }\n\
         NewCell { cell: 0, from: 3 }\n\
         Tick\n\
         Const { to: 4, constant: 0 }\n\
         Close { to: 4, proto: 0 }\n\
         ForNext { at: 0, count: 4 }\n\
         Leave { from: 0, count: 0, tailed: false }\n",
    ),
];

#[test]
fn sources_have_their_instructions(rt: HostRuntime) -> Result<(), Fail> {
    for (source, expected) in ROWS {
        let lines = listing(rt.alloc(), source)?;
        assert_eq!(rt; lines.as_str(), expected, "in {source}");
    }
    Ok(())
}
