// What nodes and messages are called.

ghost use Rattle.std.specs.Prelude.{◌≡◌};
ghost use Rattle.snesl_draw.specs.Words.{binary_word, is_kind, kind_colour, kind_word, operation_word, reduction_word, unary_word};

use flow_messages::Kind;
use flow_nodes::plans::Operation;
use snesl_data::operators::{BinaryOperator, Reduction, UnaryOperator};

/// What the node of an operation is called.
pub fn operation_word(operation: &Operation) -> &'static str
    ensures { result.now ≡ operation_word operation.now }
{
    match operation {
        Operation::Control => "Control",
        Operation::Input(_) => "Input",
        Operation::Const(_) => "Const",
        Operation::Unary(operator) => unary_word(*operator),
        Operation::Binary(operator) => binary_word(*operator),
        Operation::Iota => "Iota",
        Operation::UnitsOf => "UnitsOf",
        Operation::ScanAdd => "ScanAdd",
        Operation::Reduce(reduction) => reduction_word(*reduction),
        Operation::Length => "Length",
        Operation::Dist(_) => "Dist",
        Operation::Pack(_) => "Pack",
        Operation::PackGroups => "PackGroups",
        Operation::FlagOfBool => "FlagOfBool",
        Operation::SameFlags => "SameFlags",
        Operation::ConcatFlags => "ConcatFlags",
        Operation::PartFlags => "PartFlags",
        Operation::TheCheck => "TheCheck",
        Operation::AppendFlags => "AppendFlags",
        Operation::Interleave(_) => "Interleave",
        Operation::InterleaveGroups => "InterleaveGroups",
        Operation::Print(_) => "Print",
        Operation::Tab(_) => "Tab",
        Operation::Seq(_) => "Seq",
        Operation::Index(_) => "Index",
    }
}

fn unary_word(operator: UnaryOperator) -> &'static str
    ensures { result.now ≡ unary_word operator }
{
    match operator {
        UnaryOperator::Negate => "Unary: Negate",
        UnaryOperator::Not => "Unary: Not",
    }
}

fn binary_word(operator: BinaryOperator) -> &'static str
    ensures { result.now ≡ binary_word operator }
{
    match operator {
        BinaryOperator::Add => "Binary: Add",
        BinaryOperator::Subtract => "Binary: Subtract",
        BinaryOperator::Multiply => "Binary: Multiply",
        BinaryOperator::Divide => "Binary: Divide",
        BinaryOperator::Remainder => "Binary: Remainder",
        BinaryOperator::EqualIntegers => "Binary: EqualIntegers",
        BinaryOperator::EqualTruths => "Binary: EqualTruths",
        BinaryOperator::Less => "Binary: Less",
        BinaryOperator::AtMost => "Binary: AtMost",
        BinaryOperator::Greater => "Binary: Greater",
        BinaryOperator::AtLeast => "Binary: AtLeast",
        BinaryOperator::And => "Binary: And",
        BinaryOperator::Or => "Binary: Or",
    }
}

fn reduction_word(reduction: Reduction) -> &'static str
    ensures { result.now ≡ reduction_word reduction }
{
    match reduction {
        Reduction::Sum => "Reduce: Sum",
        Reduction::Max => "Reduce: Max",
        Reduction::All => "Reduce: All",
        Reduction::Any => "Reduce: Any",
    }
}

/// What the items of a kind are called.
pub fn kind_word(kind: Kind) -> &'static str
    ensures { result.now ≡ kind_word kind }
{
    match kind {
        Kind::Unit => "unit",
        Kind::Bool => "bool",
        Kind::Int => "int",
        Kind::Vec => "vector",
    }
}

/// The colour in which they are drawn.
pub fn kind_colour(kind: Kind) -> &'static str
    ensures { result.now ≡ kind_colour kind }
{
    match kind {
        Kind::Unit => "#777777",
        Kind::Bool => "#b35900",
        Kind::Int => "#1a5fb4",
        Kind::Vec => "#26782e",
    }
}

// Whether two kinds are the same.
pub(crate) fn is_kind(kind: Kind, other: Kind) -> bool
    ensures { result ≡ is_kind kind other }
{
    matches!(
        (kind, other),
        (Kind::Unit, Kind::Unit)
            | (Kind::Bool, Kind::Bool)
            | (Kind::Int, Kind::Int)
            | (Kind::Vec, Kind::Vec)
    )
}
