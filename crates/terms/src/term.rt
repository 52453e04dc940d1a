// A term: bytes that are known to be one.
ghost use Rattle.std.specs.Prelude.{◌≡◌, true};
ghost use Rattle.calculus.specs.Trees.{write};
ghost use Rattle.terms.specs.Fitting.{fits};
ghost use Rattle.terms.specs.Reading.{is_term, tree_of};

// Bytes that are one whole term of at most 4,096 bytes; it is in the type, so whoever holds one need not ask.
#[derive(Clone, Copy, PartialEq, Eq, Debug)]
pub struct Term<'a> {
    bytes: &'a [u8],
    ghost whole: { is_term bytes.now ≡ true },
}

// Bytes that were read before.
pub(crate) fn known(bytes: &[u8]) -> Term<'_>
    requires { is_term bytes.now ≡ true }
    ensures { result.bytes.now ≡ bytes.now }
{
    Term { bytes }
}

impl<'a> Term<'a> {
    // These say what they say of the struct, so they are named here and not above it.
    ghost use Rattle.std.specs.Prelude.{IsTrue, ◌↔◌};
    ghost use Rattle.terms.specs.Views.{bytes_of, tree};

    // Its bytes: what its tree is written as, and the tree fits.
    pub fn bytes(&self) -> &'a [u8]
        ensures bytes { result.now ≡ bytes_of self.now }
        ensures term { is_term result.now ≡ true }
        ensures written { write (tree_of result.now) ≡ result.now }
        ensures fitting { fits (tree_of result.now) ≡ true }
    {
        self.bytes
    }

    // Whether two terms are the same. `==` compares their bytes; this says that their trees then agree.
    pub fn same_as(&self, other: &Term<'_>) -> bool
        ensures { IsTrue result ↔ (tree self.now ≡ tree other.now) }
    {
        *self == *other
    }
}
