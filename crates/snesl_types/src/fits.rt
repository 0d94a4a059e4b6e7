// Whether the inputs of a job are those that a program declares.

ghost use Rattle.std.specs.Prelude.{◌≡◌, ◌↔◌, IsTrue};
ghost use Rattle.snesl_values.specs.Inputs.{declaration_of, declared};

use snesl_data::Ty;

// Whether these are the same declarations, in the same order.
pub(crate) fn same_decls(decls: &[(Vec<u8>, Ty)], others: &[(Vec<u8>, Ty)]) -> bool
    ensures { IsTrue result ↔ (declared decls.now ≡ declared others.now) }
{
    if decls.len() != others.len() {
        return false;
    }
    for number in 0..decls.len() {
        if !same_decl(&decls[number], &others[number]) {
            return false;
        }
    }
    true
}

// Whether these declare the same name of the same type.
fn same_decl(decl: &(Vec<u8>, Ty), other: &(Vec<u8>, Ty)) -> bool
    ensures { IsTrue result ↔ (declaration_of decl.now ≡ declaration_of other.now) }
{
    decl.0.as_slice() == other.0.as_slice() && decl.1.is(&other.1)
}
