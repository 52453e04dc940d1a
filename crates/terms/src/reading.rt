// Bytes are read as a term, node by node.
ghost use Rattle.std.specs.Prelude.{◌≡◌, ℕ, ◌<◌, ◌≤◌, length, Err, IfSome, IfOk, IsOk, ◌↔◌};
ghost use Rattle.refusal.specs.Writes.{fault};
ghost use Rattle.refusal.specs.declared.Refusal.TheVariants.{TermTooLong, NotOneTerm};
ghost use Rattle.terms.specs.Fitting.{Fits, LongestStart};
ghost use Rattle.terms.specs.Reading.{scan, rest_of, size_in, seen, reading};
ghost use Rattle.terms.specs.Views.{bytes_of, outcome_of, read_as};

use crate::head::{Head, Parts};
use crate::term::{Term, known};
use refusal::{Fault, Refusal};

// The bytes of the longest term.
pub const LONGEST_TERM: usize = 4096;

// What follows the process at the start of the bytes; or the bytes from the first that cannot stand in one.
pub(crate) fn past(bytes: &[u8]) -> Result<&[u8], &[u8]>
    ensures { seen result ≡ rest_of (scan bytes.now) }
{
    // A match: with `map_err` and `?` no proof was found of which bytes the error has.
    match Head::read(bytes) {
        Err(place) => Err(&bytes[place..]),
        Ok(head) => {
            let rest = &bytes[head.size()..];
            match head.parts() {
                Parts::Zero => Ok(rest),
                Parts::One => past(rest),
                Parts::Two => past(past(rest)?),
            }
        }
    }
}

// How many bytes the process at the start takes, if there is one. `room` follows from `size`: in numbers, a caller may cut the
// bytes there without a proof of its own.
pub(crate) fn size_at_start(bytes: &[u8]) -> Option<usize>
    ensures size { result ≡ size_in (scan bytes.now) }
    ensures room { IfSome result (λ n. n ≤ length bytes.now) }
{
    let Ok(rest) = past(bytes) else {
        return None;
    };
    Some(bytes.len() - rest.len())
}

// Whether bytes are one whole term of at most 4,096 bytes, or the fault for which they are declined.
fn examine(bytes: &[u8]) -> Result<(), Fault>
    ensures { result ≡ outcome_of (reading bytes.now) }
{
    let size = bytes.len();
    if size > LONGEST_TERM {
        return Err(Refusal::TermTooLong.at(0));
    }
    let refusal = Refusal::NotOneTerm;
    match past(bytes) {
        Ok(rest) if rest.is_empty() => Ok(()),
        // Two arms with one body: joined by `|`, their facts have no names that a proof can cite.
        Ok(rest) => Err(refusal.at(size - rest.len())),
        Err(rest) => Err(refusal.at(size - rest.len())),
    }
}

// Reads bytes as one whole term of at most 4,096 bytes, or tells the fault for which they are declined.
pub fn read(bytes: &[u8]) -> Result<Term<'_>, Fault>
    ensures answer { read_as result ≡ reading bytes.now }
    ensures term { IfOk result (λ term. bytes_of term ≡ bytes.now) }
    ensures fits { IsOk result ↔ Fits bytes.now }
    ensures long { 4096 < length bytes.now → result ≡ Err (fault TermTooLong 0) }
    ensures refused { length bytes.now ≤ 4096 → (Fits bytes.now → ⊥) → (place : ℕ) × (result ≡ Err (fault NotOneTerm place)) × LongestStart bytes.now place }
{
    examine(bytes)?;
    Ok(known(bytes))
}
