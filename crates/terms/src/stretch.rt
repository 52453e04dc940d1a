// The bytes of a term from some byte on, as a walk goes over them.
ghost use Rattle.std.specs.Prelude.{◌≡◌, true, ◌+◌, ◌*◌, ◌^◌, ◌<◌, ◌≤◌, length, drop, IfSome, IsNone, IsErr, ◌↔◌, Ok};
ghost use Rattle.terms.specs.Heads.{size_of, binds_of, head_of};
ghost use Rattle.terms.specs.Reading.{is_term};
ghost use Rattle.terms.specs.Views.{bytes_of};

use crate::head::Head;
use crate::term::Term;

// Bytes, and how many names are bound above them.
#[derive(Clone, Copy)]
pub(crate) struct Stretch<'a> {
    pub(crate) bytes: &'a [u8],
    pub(crate) bound: usize,
    // no byte binds more than 8 names, so they can be counted to the end
    ghost countable: { bound + 8 * length bytes.now < 2 ^ 32 },
}

impl<'a> Stretch<'a> {
    // A whole term.
    pub(crate) fn of(term: &Term<'a>) -> Stretch<'a>
        ensures bytes { result.bytes.now ≡ bytes_of term.now }
        ensures term { is_term result.bytes.now ≡ true }
        ensures bound { result.bound ≡ 0 }
    {
        Stretch {
            bytes: term.bytes(),
            bound: 0,
        }
    }

    // The head at the start, and what stands after it, below the names that it binds.
    pub(crate) fn split_head(&self) -> Option<(Head, Stretch<'a>)>
        ensures head { IfSome result (λ r. head_of self.now.bytes.now ≡ Ok r.0) }
        ensures rest { IfSome result (λ r. r.1.bytes.now ≡ drop (size_of r.0) self.now.bytes.now) }
        ensures shorter { IfSome result (λ r. length r.1.bytes.now + size_of r.0 ≡ length self.now.bytes.now) }
        ensures bound { IfSome result (λ r. r.1.bound ≡ self.now.bound + binds_of r.0) }
        ensures none { IsNone result ↔ IsErr (head_of self.now.bytes.now) }
    {
        let head = Head::read(self.bytes).ok()?;
        let rest = Stretch {
            bytes: &self.bytes[head.size()..],
            bound: self.bound + head.binds(),
        };
        Some((head, rest))
    }

    // What is left after so many bytes.
    pub(crate) fn skip(&self, size: usize) -> Stretch<'a>
        requires { size ≤ length self.now.bytes.now }
        ensures bytes { result.bytes.now ≡ drop size self.now.bytes.now }
        ensures bound { result.bound ≡ self.now.bound }
    {
        Stretch {
            bytes: &self.bytes[size..],
            bound: self.bound,
        }
    }
}
