use crate::shown::text_of;
use lua_tree::parse;
use std::test::Fail;

#[test]
fn sources_have_their_trees(rt: HostRuntime) -> Result<(), Fail> {
    let rows: [(&str, &str); 52] = [
        ("", ""),
        ("-- nothing", ""),
        ("return", " (return)"),
        ("return;", " (return)"),
        ("return -2^2", " (return (- (^ 2 2)))"),
        ("return 2^-3^2", " (return (^ 2 (- (^ 3 2))))"),
        ("return 2^-3", " (return (^ 2 (- 3)))"),
        ("return 2^3^2", " (return (^ 2 (^ 3 2)))"),
        ("return 'a'..'b'..'c'", " (return (.. 'a' (.. 'b' 'c')))"),
        ("return 1-2-3", " (return (- (- 1 2) 3))"),
        ("return 1+2*3-4", " (return (- (+ 1 (* 2 3)) 4))"),
        ("return not a == b", " (return (== (not a) b))"),
        ("return -x^2", " (return (- (^ x 2)))"),
        ("return - -1", " (return (- (- 1)))"),
        ("return not #a", " (return (not (# a)))"),
        ("return a or b and c", " (return (or a (and b c)))"),
        ("return a and b or c", " (return (or (and a b) c))"),
        ("return a<b == c>d", " (return (> (== (< a b) c) d))"),
        ("return 1 .. 2 + 3", " (return (.. 1 (+ 2 3)))"),
        ("return a .. b == c", " (return (== (.. a b) c))"),
        (
            "return a<=b, c>=d, e~=f",
            " (return (<= a b) (>= c d) (~= e f))",
        ),
        ("return a/b%c", " (return (% (/ a b) c))"),
        ("return (a)", " (return (paren a))"),
        ("return (...)", " (return (paren ...))"),
        ("return nil, true, false, 7", " (return nil true false 7)"),
        ("return {}", " (return (table))"),
        ("return {1, 2; 3,}", " (return (table 1 2 3))"),
        (
            "return {a = 1, [b] = 2, c}",
            " (return (table 'a' = 1 b = 2 c))",
        ),
        (
            "return {a.b, c == d; f()}",
            " (return (table (. a 'b') (== c d) (call f)))",
        ),
        ("return function() end", " (return (function ( )))"),
        (
            "return function(a, ...) return a end",
            " (return (function ( a ... ) (return a)))",
        ),
        ("f'x'{1}", " (do (call (call f 'x') (table 1)))"),
        ("f\n{1}", " (do (call f (table 1)))"),
        ("f\n'x'", " (do (call f 'x'))"),
        ("(f)()", " (do (call (paren f)))"),
        (
            "a.b:c'x'.d()",
            " (do (call (. (method (. a 'b') c 'x') 'd')))",
        ),
        (
            "a.b:c'x'.d = 1",
            " (assign (. (method (. a 'b') c 'x') 'd') = 1)",
        ),
        (
            "a, f().b, (c)[1] = 1, 2",
            " (assign a (. (call f) 'b') (. (paren c) 1) = 1 2)",
        ),
        ("local a, b = 1; local c", " (local a b = 1) (local c =)"),
        ("x = a b()", " (assign x = a) (do (call b))"),
        ("do f() end", " (block (do (call f)))"),
        ("while a do break end", " (while a (break))"),
        ("repeat local a until a", " (repeat (local a =) until a)"),
        (
            "if a then elseif b then f() else return end",
            " (if a then b then (do (call f)) else (return))",
        ),
        ("for a = 1, 2 do end", " (for a 1 2 do)"),
        ("for a = 1, 2, 3 do break; end", " (for a 1 2 3 do (break))"),
        ("for a, b in c, d do end", " (for a b in c d do)"),
        (
            "function a.b.c:d(e) end",
            " (function (. (. (. a 'b') 'c') 'd') ( self e ))",
        ),
        ("function a() end", " (function a ( ))"),
        (
            "local function a(...) return ... end",
            " (local a ( ... ) (return ...))",
        ),
        ("return f(a)(b)[c]", " (return (. (call (call f a) b) c))"),
        ("goto()", " (do (call goto))"),
    ];
    for (source, tree) in rows {
        match parse(rt.alloc(), source.as_bytes()) {
            Ok(chunk) => {
                let text = text_of(rt.alloc(), &chunk.block, false)?;
                assert_eq!(rt; text.as_slice(), tree.as_bytes(), "{source}");
            }
            Err(fault) => panic!(rt; "{source}: {fault:?}"),
        }
    }
    Ok(())
}

#[test]
fn nodes_have_their_lines(rt: HostRuntime) -> Result<(), Fail> {
    let rows: [(&str, &str); 9] = [
        ("\nf(\n)", " (do@2 (call@2 f))"),
        ("f\n{\n}", " (do@1 (call@2 f (table@2)))"),
        ("a\n.b\n[c] = 1", " (assign@1 (.@3 (.@2 a 'b') c) = 1)"),
        ("return 1\n+\n2", " (return@1 (+@2 1 2))"),
        ("return\n-\n1", " (return@1 (-@2 1))"),
        ("a\n:b\n'x'", " (do@1 (method@3 a b 'x'))"),
        ("return\nfunction\n() end", " (return@1 (function@2 (@2 )))"),
        ("local\nfunction a\n() end", " (local@1 a (@2 ))"),
        (
            "function\na\n.\nb\n() end",
            " (function@1 (.@3 a 'b') (@1 ))",
        ),
    ];
    for (source, tree) in rows {
        match parse(rt.alloc(), source.as_bytes()) {
            Ok(chunk) => {
                let text = text_of(rt.alloc(), &chunk.block, true)?;
                assert_eq!(rt; text.as_slice(), tree.as_bytes(), "{source}");
            }
            Err(fault) => panic!(rt; "{source}: {fault:?}"),
        }
    }
    Ok(())
}
