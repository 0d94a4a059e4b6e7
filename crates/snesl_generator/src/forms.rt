// The forms that programs are made of: tables that tell which there are, and how often each is drawn.
//
// The text of a form is written as it stands, but for capital letters, each of which stands for a part of the program:
//
//   T        an expression of the type that is asked for
//   E F      of the type of its elements, or of its first part; of its second part
//   D        of the type of the elements of its elements
//   I B      of `int`; of `bool`
//   O U      of two other types, which are drawn for the form where its last column does not tell them
//   L M V    of a sequence of O; of a sequence of U; of a vector of O
//   P Q      of the pair (T, O); of the pair (O, T)
//   N        a small number, the same at each place of the form; in a function its own number
//   X Y Z    new names: X of a `let`; Y and Z of the binders of a comprehension, or of parameters or inputs
//
// After `'` a letter stands for the type itself, after `?` for a value of it as an input text has it, and after `.` for a
// short expression. In T[XY] the names X and Y are bound, and where Y or Z is, it stands in one more comprehension. The
// last column tells types: in X:O that X is a name of type O, in O:I that O is `int`.

use crate::kinds::{Kind, Shape};

/// Which types a form is for.
#[derive(Clone, Copy)]
pub enum For {
    Any,
    /// Types that are not too large to be put into others.
    Small,
    /// Of these the ones in which no sequence occurs.
    Concrete,
    Int,
    Bool,
    Pair,
    Vector,
    Sequence,
    /// Sequences of integers.
    Integers,
    /// Sequences of elements in which no sequence occurs.
    Flat,
    /// Sequences of sequences, none too large.
    Nested,
}

/// A form: the types that it is for, how often it is drawn, its text, and the types of its names and of O.
#[derive(Clone, Copy)]
pub struct Form(pub For, pub usize, pub &'static str, pub &'static str);

/// Forms that one is drawn from; beside them may stand each name that fits, and a call of each function that fits, so often.
#[derive(Clone, Copy)]
pub struct Table {
    pub names: usize,
    pub calls: usize,
    pub forms: &'static [Form],
}

use For::{Any, Bool, Concrete, Flat, Int, Integers, Nested, Pair, Sequence, Small, Vector};

/// The final expression, with its inputs and their text.
#[rattlefmt::skip]
pub const PROGRAMS: Table = Table { names: 0, calls: 0, forms: &[
    Form(Any, 1, "T\n---\n", ""),
    Form(Any, 1, "input Y : 'O; T[Y]\n---\nY = ?O", "Y:O"),
    Form(Any, 1, "input Y : 'O; input Z : 'U; T[YZ]\n---\nY = ?O; Z = ?U;", "Y:O Z:U"),
] };

/// Declarations of functions, each followed by `@` and the text of a call.
#[rattlefmt::skip]
pub const FUNCTIONS: Table = Table { names: 0, calls: 0, forms: &[
    Form(Any, 1, "function fN(Y : 'O) : 'T = T[Y]; @fN(O)", "Y:O"),
    Form(Any, 1, "function fN(Y : 'O, Z : 'U) : 'T = T[YZ]; @fN(O, U)", "Y:O Z:U"),
] };

/// Expressions.
#[rattlefmt::skip]
pub const EXPRESSIONS: Table = Table { names: 6, calls: 40, forms: &[
    Form(Any, 12, "(let X = O in T[X])", "X:O"),
    Form(Any, 12, "(let X = L in T[X])", "X:L"),
    Form(Any, 12, "(if B then T else T)", ""),
    Form(Small, 6, "fst(P)", ""),
    Form(Small, 6, "snd(Q)", ""),
    Form(Small, 1, "the(L)", "O:T"),
    Form(Small, 6, "the({T})", ""),
    Form(Small, 3, "(let X = B in the({T[X] | X} ++ {T[X] | not X}))", "X:B"),
    Form(Concrete, 1, "(V ! 0)", "O:T"),
    Form(Concrete, 1, "(V ! 1)", "O:T"),
    Form(Concrete, 2, "(tab({T, T}) ! 0)", ""),
    Form(Concrete, 3, "(tab({T, T}) ! 1)", ""),
    Form(Concrete, 5, "(let X = V in X ! (I[X] % length(seq(X))))", "O:T X:V"),
    // Integers.
    Form(Int, 11, "N", ""),
    Form(Int, 16, "(I + I)", ""),
    Form(Int, 8, "(I - I)", ""),
    Form(Int, 8, "(I * I)", ""),
    Form(Int, 2, "(I / 2)", ""),
    Form(Int, 2, "(I / N)", ""),
    Form(Int, 1, "(I / I)", ""),
    Form(Int, 2, "(I % 3)", ""),
    Form(Int, 2, "(I % N)", ""),
    Form(Int, 1, "(I % I)", ""),
    Form(Int, 10, "(- I)", ""),
    Form(Int, 15, "reduce_add(L)", "O:I"),
    Form(Int, 4, "reduce_max(L)", "O:I"),
    Form(Int, 4, "reduce_max(L ++ {0})", "O:I"),
    Form(Int, 11, "length(L)", ""),
    // Truth values.
    Form(Bool, 7, "(I == I)", ""),
    Form(Bool, 7, "(I < I)", ""),
    Form(Bool, 7, "(I <= I)", ""),
    Form(Bool, 7, "(I > I)", ""),
    Form(Bool, 7, "(I >= I)", ""),
    Form(Bool, 12, "(B == B)", ""),
    Form(Bool, 12, "(B and B)", ""),
    Form(Bool, 12, "(B or B)", ""),
    Form(Bool, 12, "not (B)", ""),
    Form(Bool, 6, "reduce_and(L)", "O:B"),
    Form(Bool, 6, "reduce_or(L)", "O:B"),
    // Pairs and vectors.
    Form(Pair, 100, "(E, F)", ""),
    Form(Vector, 100, "tab(L)", "O:E"),
    // Sequences.
    Form(Sequence, 2, "{E}", ""),
    Form(Sequence, 2, "{E, E}", ""),
    Form(Sequence, 2, "{E, E, E}", ""),
    Form(Sequence, 1, "{.E | false}", ""),
    Form(Sequence, 14, "{E | B}", ""),
    Form(Sequence, 4, "(T ++ T)", ""),
    Form(Sequence, 9, "(let X = T in X ++ X)", ""),
    Form(Sequence, 6, "concat(L)", "O:T"),
    Form(Flat, 10, "seq(V)", "O:E"),
    Form(Integers, 7, "scan_add(T)", ""),
    Form(Integers, 9, "iota(N)", ""),
    Form(Integers, 1, "iota(I % 5)", ""),
    Form(Integers, 2, "iota(length(L))", ""),
    Form(Integers, 4, "iota((I % 3) + 2)", ""),
    // Sequences in parts: flags that may not fit, and flags that do.
    Form(Nested, 3, "part(E, L)", "O:B"),
    Form(Nested, 2, "part({D}, {true, false, true})", ""),
    Form(Nested, 3, "part({D, D}, {false, true, false, true})", ""),
    Form(Nested, 3, "part({D, D, D}, {false, false, true, true, false, true})", ""),
    Form(Nested, 4, "(let X = E in part(X, {false : Y in X} ++ {true}))", ""),
    Form(Nested, 4, "(let X = E in part(X, concat({{false, true} : Y in X})))", ""),
    Form(Nested, 4, "(let X = E in part(X, concat({if B[XY] then {false, true} else {false} : Y in X}) ++ {true}))", "X:E Y:D"),
    // Comprehensions: over one sequence, over two of the same length, over two of any.
    Form(Sequence, 12, "{E[Y] : Y in .L}", "Y:O"),
    Form(Sequence, 5, "{E[Y] : Y in .L | B[Y]}", "Y:O"),
    Form(Sequence, 4, "{E[Y] : Y in L}", "Y:O"),
    Form(Sequence, 2, "{E[Y] : Y in L | B[Y]}", "Y:O"),
    Form(Sequence, 4, "{E[YZ] : Y in iota(N); Z in iota(N)}", "Y:I Z:I"),
    Form(Sequence, 2, "{E[YZ] : Y in iota(N); Z in iota(N) | B[YZ]}", "Y:I Z:I"),
    Form(Sequence, 2, "(let X = L in {E[XYZ] : Y in X; Z in X})", "X:L Y:O Z:O"),
    Form(Sequence, 1, "(let X = L in {E[XYZ] : Y in X; Z in X | B[XYZ]})", "X:L Y:O Z:O"),
    Form(Sequence, 3, "(let X = L in {E[XYZ] : Y in X; Z in scan_add(X)})", "O:I X:L Y:I Z:I"),
    Form(Sequence, 5, "(let X = L in {E[XYZ] : Z in {U[XY] : Y in X}; Y in X})", "X:L Y:O Z:U"),
    Form(Sequence, 2, "(let X = L in {E[XYZ] : Z in {U[XY] : Y in X}; Y in X | B[XYZ]})", "X:L Y:O Z:U"),
    Form(Sequence, 2, "{E[YZ] : Y in L; Z in M}", "Y:O Z:U"),
    Form(Sequence, 1, "{E[YZ] : Y in L; Z in M | B[YZ]}", "Y:O Z:U"),
] };

/// Short expressions.
#[rattlefmt::skip]
pub const SHORT: Table = Table { names: 150, calls: 0, forms: &[
    Form(Int, 50, "N", ""),
    Form(Int, 1, "9223372036854775807", ""),
    Form(Bool, 25, "true", ""),
    Form(Bool, 25, "false", ""),
    Form(Pair, 50, "(.E, .F)", ""),
    Form(Vector, 25, "tab({.E})", ""),
    Form(Vector, 25, "tab({.E, .E})", ""),
    Form(Sequence, 20, "{.E}", ""),
    Form(Sequence, 20, "{.E, .E}", ""),
    Form(Sequence, 10, "{.E | false}", ""),
    Form(Integers, 50, "iota(N)", ""),
] };

/// Types.
#[rattlefmt::skip]
pub const TYPES: Table = Table { names: 0, calls: 0, forms: &[
    Form(Int, 1, "int", ""),
    Form(Bool, 1, "bool", ""),
    Form(Pair, 1, "('E, 'F)", ""),
    Form(Vector, 1, "['E]", ""),
    Form(Sequence, 1, "{'E}", ""),
] };

/// Values, as input texts have them.
#[rattlefmt::skip]
pub const VALUES: Table = Table { names: 0, calls: 0, forms: &[
    Form(Int, 108, "N", ""),
    Form(Int, 12, "-N", ""),
    Form(Int, 1, "9223372036854775807", ""),
    Form(Int, 1, "-9223372036854775807", ""),
    Form(Int, 1, "-9223372036854775808", ""),
    Form(Bool, 1, "true", ""),
    Form(Bool, 1, "false", ""),
    Form(Pair, 1, "(?E,?F)", ""),
    Form(Vector, 1, "[]", ""),
    Form(Vector, 1, "[?E]", ""),
    Form(Vector, 1, "[?E,?E]", ""),
    Form(Vector, 2, "[?E,?E,?E,?E]", ""),
    Form(Sequence, 1, "{}", ""),
    Form(Sequence, 1, "{?E}", ""),
    Form(Sequence, 2, "{?E,?E,?E}", ""),
    Form(Sequence, 1, "{?E,?E,?E,?E,?E}", ""),
] };

// Types of a greater size are not put into a pair, a sequence or a vector.
const LARGE: usize = 5;

impl For {
    /// Whether a type is among these, where its element or first part is another.
    pub fn has(self, kind: Kind, element: Kind) -> bool {
        let small = kind.size <= LARGE;
        match (self, kind.shape) {
            (For::Any, _)
            | (For::Int, Shape::Int)
            | (For::Bool, Shape::Bool)
            | (For::Pair, Shape::Pair(..))
            | (For::Vector, Shape::Vector(_))
            | (For::Sequence, Shape::Sequence(_)) => true,
            (For::Small, _) => small,
            (For::Concrete, _) => small && kind.concrete,
            (For::Integers, Shape::Sequence(_)) => element.shape == Shape::Int,
            (For::Flat, Shape::Sequence(_)) => element.concrete,
            (For::Nested, Shape::Sequence(_)) => {
                small && matches!(element.shape, Shape::Sequence(_))
            }
            _ => false,
        }
    }
}
