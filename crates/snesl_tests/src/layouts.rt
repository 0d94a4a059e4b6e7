// Programs laid out, by hand.

use snesl_data::Refusal;
use snesl_layout::{LayoutError, first_difference, laid_out};

// Texts, and the layout of each.
const LAID_OUT: [(&str, Result<&str, LayoutError>); 8] = [
    ("let x=1 in\n\n x*x", Ok("let x = 1 in x * x\n")),
    (
        "{ x*x:x in iota( 4 )|x>1 }",
        Ok("{x * x : x in iota(4) | x > 1}\n"),
    ),
    ("- 1-- 2", Ok("-1 - -2\n")),
    (
        "input n:int;input v:[ int ];v!n",
        Ok("input n : int;\ninput v : [int];\n\nv ! n\n"),
    ),
    (
        "function f(x:int,y:int):int=x+y;f (1,2)",
        Ok("function f(x : int, y : int) : int = x + y;\n\nf(1, 2)\n"),
    ),
    (
        "dialect 2;\r\nnot(true and\tfalse)",
        Ok("dialect 2;\n\nnot (true and false)\n"),
    ),
    ("1 +", Err(LayoutError::Refused(Refusal::Syntax(3)))),
    ("1 # 2", Err(LayoutError::Refused(Refusal::Lex(2)))),
];

#[test]
fn programs_are_laid_out(rt: HostRuntime) {
    for (text, laid) in LAID_OUT {
        let out = laid_out(rt.alloc(), text.as_bytes());
        assert!(rt; is_it(&out, laid), "{text}");
    }
}

#[test]
fn texts_differ_from_an_offset_on(rt: HostRuntime) {
    assert_eq!(rt; first_difference(b"let x=1", b"let x = 1"), 5);
    assert_eq!(rt; first_difference(b"x", b"x\n"), 1);
    assert_eq!(rt; first_difference(b"x\n", b"x\n"), 2);
}

// Whether it is that layout, or why there is none.
fn is_it(out: &Result<Vec<u8>, LayoutError>, laid: Result<&str, LayoutError>) -> bool {
    match (out, laid) {
        (Ok(out), Ok(laid)) => out.as_slice() == laid.as_bytes(),
        (Err(error), Err(why)) => *error == why,
        _ => false,
    }
}
