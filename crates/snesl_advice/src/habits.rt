// How this language writes what others write otherwise. Which advice is given where is tested by the rows of
// examples/habits.table.

ghost use Rattle.std.specs.Prelude.{◌≤◌, length};

use crate::tokens::begins_word;
use snesl_data::word_len;

const UNEQUAL: &str = "that two values differ is written `not (a == b)`";

const COMMENT: &str = "comments are no part of the language: take this out";

const NO_TEXT: &str = "there are no texts: a text is a sequence of integers, as `{104,105}`";

const QUOTE: &str = "this quote is of a word processor, and there are no texts here";

const MINUS: &str = "this dash is of a word processor: minus is `-`";

const POWER: &str = "there are no powers: a square is `x * x`";

const NOTHING_IS_ASSIGNED: &str = "nothing is assigned: a name is bound by `let x = 1 in x + 1`";

const NAMELESS: &str =
    "there are no functions without a name: declare one, as `function f(x : int) : int = x * x;`";

const DECLARED: &str = "a function is declared by `function f(x : int) : int = x * x;`";

const CHOICE: &str = "a choice is written `if b then x else y`";

const AND: &str = "both of two truth values are written `a and b`";

const OR: &str = "one of two truth values is written `a or b`";

const FRACTION: &str = "there are no fractions; the parts of a pair `p` are `fst(p)` and `snd(p)`";

const INDEX: &str = "an index is counted from 0, so it is never negative";

const RANGE: &str = "the integers from 0 to n - 1 are written `iota(n)`";

const OPERAND: &str = "as an operand it stands in parentheses, as `1 + (if b then 1 else 2)`";

// What stands before the place, what stands at it, and what may help. The first row that fits is told. What ends in a blank is a
// whole word.
const SIGNS: [(&str, &str, &str); 62] = [
    ("!", "=", UNEQUAL),
    ("/", "=", UNEQUAL),
    ("<", ">", UNEQUAL),
    ("", "≠", UNEQUAL),
    ("==", "=", "two values are compared by `==`"),
    ("", "=>", "at least is written `>=`"),
    ("", "=<", "at most is written `<=`"),
    ("", "≥", "at least is written `>=`"),
    ("", "≤", "at most is written `<=`"),
    ("", "&", AND),
    ("|", "|", OR),
    ("", "||", OR),
    ("/", "/", COMMENT),
    ("", "//", COMMENT),
    ("/", "*", COMMENT),
    ("", "/*", COMMENT),
    ("", "#", COMMENT),
    ("", "\"", NO_TEXT),
    ("", "'", NO_TEXT),
    ("", "“", QUOTE),
    ("", "”", QUOTE),
    ("", "‘", QUOTE),
    ("", "’", QUOTE),
    ("", "–", MINUS),
    ("", "—", MINUS),
    ("", "−", MINUS),
    ("", "×", "a product is written `a * b`"),
    ("", "÷", "a quotient is written `a / b`"),
    (
        "",
        " ",
        "this is a blank that does not break: type a plain one",
    ),
    ("", "..", RANGE),
    ("", ".", FRACTION),
    ("", "^", POWER),
    ("*", "*", POWER),
    ("", "\\", NAMELESS),
    ("", "λ", NAMELESS),
    ("-", ">", NAMELESS),
    (
        "",
        "->",
        "the type of a result stands after `:`, as in `function f(x : int) : int = x * x;`",
    ),
    (
        "",
        "<-",
        "a binder is written `x in s`, as in `{x * x : x in s}`",
    ),
    (
        "",
        "←",
        "a binder is written `x in s`, as in `{x * x : x in s}`",
    ),
    ("", "?", CHOICE),
    ("", "~", "the opposite of a truth value is written `not b`"),
    ("", "_", "a name begins with a letter"),
    ("", ":=", NOTHING_IS_ASSIGNED),
    ("+", "=", NOTHING_IS_ASSIGNED),
    ("-", "=", NOTHING_IS_ASSIGNED),
    ("*", "=", NOTHING_IS_ASSIGNED),
    ("{", "}", "a sequence of nothing is written `{0 | false}`"),
    (
        "",
        "[",
        "a vector is written `tab({1,2,3})`; `[` stands in types and in input texts",
    ),
    ("", "!", "the opposite of a truth value is written `not b`"),
    ("", "let ", OPERAND),
    ("", "if ", OPERAND),
    (
        "for ",
        "",
        "for each element of a sequence `s` write `{x * x : x in s}`",
    ),
    (
        "return ",
        "",
        "a value is not returned: the last expression is it",
    ),
    ("var ", "", NOTHING_IS_ASSIGNED),
    ("const ", "", NOTHING_IS_ASSIGNED),
    ("val ", "", NOTHING_IS_ASSIGNED),
    ("def ", "", DECLARED),
    ("fn ", "", DECLARED),
    ("fun ", "", DECLARED),
    ("func ", "", DECLARED),
    (
        "dialect ",
        "",
        "a dialect is named by `dialect 2;`, and there is no other to name",
    ),
    ("! ", "-", INDEX),
];

// Names that others use, and what may help.
const NAMES: [(&str, &str); 40] = [
    ("sum", "`reduce_add(s)` adds up a sequence"),
    ("reduce_sum", "`reduce_add(s)` adds up a sequence"),
    ("total", "`reduce_add(s)` adds up a sequence"),
    (
        "fold",
        "sequences are folded by `reduce_add`, `reduce_max`, `reduce_and` and `reduce_or`",
    ),
    (
        "foldl",
        "sequences are folded by `reduce_add`, `reduce_max`, `reduce_and` and `reduce_or`",
    ),
    (
        "reduce",
        "sequences are folded by `reduce_add`, `reduce_max`, `reduce_and` and `reduce_or`",
    ),
    (
        "scan",
        "`scan_add(s)` has at each place the sum of the elements before it",
    ),
    (
        "cumsum",
        "`scan_add(s)` has at each place the sum of the elements before it",
    ),
    (
        "prefix_sum",
        "`scan_add(s)` has at each place the sum of the elements before it",
    ),
    (
        "zip",
        "two sequences go side by side in `{(x, y) : x in s; y in t}`",
    ),
    (
        "map",
        "for each element of a sequence `s` write `{x * x : x in s}`",
    ),
    (
        "filter",
        "elements are chosen by a condition, as in `{x : x in s | x < 3}`",
    ),
    ("len", "`length(s)` is the number of elements"),
    ("size", "`length(s)` is the number of elements"),
    ("count", "`length(s)` is the number of elements"),
    (
        "max",
        "`reduce_max(s)` is the greatest element; the greater of two is `if a < b then b else a`",
    ),
    ("maximum", "`reduce_max(s)` is the greatest element"),
    (
        "min",
        "the least element is `-reduce_max({-x : x in s})`; the lesser of two is `if a < b then a else b`",
    ),
    (
        "minimum",
        "the least element is `-reduce_max({-x : x in s})`",
    ),
    (
        "abs",
        "the absolute value is written `if x < 0 then -x else x`",
    ),
    ("mod", "the remainder is written `a % b`"),
    ("div", "the quotient is written `a / b`"),
    (
        "any",
        "`reduce_or(b)` tells whether one of a sequence is true",
    ),
    (
        "all",
        "`reduce_and(b)` tells whether all of a sequence are true",
    ),
    ("range", "`iota(n)` has the integers from 0 to n - 1"),
    ("seq_of", "`seq(v)` is the sequence of a vector's elements"),
    ("flatten", "`concat(s)` joins the sequences in a sequence"),
    ("join", "`concat(s)` joins the sequences in a sequence"),
    ("append", "two sequences are joined by `a ++ b`"),
    ("head", "the first element of a sequence is `tab(s) ! 0`"),
    (
        "first",
        "the first part of a pair is `fst(p)`; the first element of a sequence is `tab(s) ! 0`",
    ),
    ("second", "the second part of a pair is `snd(p)`"),
    ("array", "`tab(s)` is the vector of a sequence's elements"),
    ("vector", "`tab(s)` is the vector of a sequence's elements"),
    ("list", "a sequence is written `{1,2,3}`"),
    (
        "reverse",
        "write `let v = tab(s) in let n = length(seq(v)) in {v ! (n - 1 - i) : i in iota(n)}`",
    ),
    (
        "print",
        "nothing is printed on the way: the value of the last expression is",
    ),
    ("True", "it is written `true`"),
    ("False", "it is written `false`"),
    (
        "null",
        "each value is an integer, a truth value, a pair, a vector or a sequence",
    ),
];

// What may help where a sign stands that others write, if something does.
pub(crate) fn habit_at(program: &[u8], at: usize) -> Option<&'static str>
    requires { at ≤ length program.now }
{
    for (before, here, advice) in SIGNS {
        if stands_before(program, at, before.as_bytes())
            && program[at..].starts_with(here.as_bytes())
        {
            return Some(advice);
        }
    }
    None
}

// Whether this stands before the place, as a whole word, where a word and a blank are meant.
fn stands_before(program: &[u8], at: usize, before: &[u8]) -> bool
    requires { at ≤ length program.now }
{
    if !program[..at].ends_with(before) {
        return false;
    }
    word_len(before) == 0 || begins_word(program, at.saturating_sub(before.len()))
}

/// What may help where a name is not bound that others use, if something does.
pub fn habit_of_name(name: &[u8]) -> Option<&'static str> {
    for (habit, advice) in NAMES {
        if name == habit.as_bytes() {
            return Some(advice);
        }
    }
    None
}
