// The node at an offset of a term is found.
ghost use Rattle.std.specs.Prelude.{◌≡◌, ℕ, ◌+◌, ◌*◌, ◌^◌, ◌<◌, ◌≤◌, List, length};
ghost use Rattle.std.specs.ControlFlow.{ForContinue};
ghost use Rattle.calculus.specs.Playing.{node_at};
ghost use Rattle.calculus.specs.Trees.{Process};
ghost use Rattle.terms.specs.Finding.{placed, StandsAt, PartOf, located_in};
ghost use Rattle.terms.specs.Reading.{scan, whole};
ghost use Rattle.terms.specs.Views.{bytes_of, tree};

use crate::head::Parts;
use crate::reading::size_at_start;
use crate::stretch::Stretch;
use crate::term::Term;
use std::ops::ControlFlow;

// A node of a term: its first byte, the end of its bytes, how many names are bound above it, and whether only parallels
// and restrictions stand above it.
#[derive(Clone, Copy, PartialEq, Eq, Debug)]
pub struct Place {
    pub from: usize,
    pub end: usize,
    pub bound: usize,
    pub active: bool,
}

// A node that a walk came to: how many bytes it takes, how many names are bound above it, and whether it is active.
#[derive(Clone, Copy, PartialEq, Eq, Debug)]
struct Found {
    size: usize,
    bound: usize,
    active: bool,
}

// Goes in search of an offset through the process at the start: breaks off with the node there, if there is one, and
// goes on after so many bytes where the process ends before the offset (`passed` is said as `room` in `size_at_start`).
// Bytes and bound go down apart, as in `clear`.
fn locate(
    bytes: &[u8],
    bound: usize,
    offset: usize,
    active: bool,
) -> ControlFlow<Option<Found>, usize>
    requires countable { bound + 8 * length bytes.now < 2 ^ 32 }
    ensures answer { (p : Process) (ns : List ℕ) → scan bytes.now ≡ whole p ns → result ≡ located_in offset bound active p }
    ensures passed { ForContinue result (λ size. (size ≤ offset) × (size ≤ length bytes.now)) }
{
    if offset == 0 {
        let found = size_at_start(bytes).map(|size| Found {
            size,
            bound,
            active,
        });
        return ControlFlow::Break(found);
    }
    let stretch = Stretch { bytes, bound };
    let Some((head, rest)) = stretch.split_head() else {
        return ControlFlow::Break(None);
    };
    let size = head.size();
    if offset < size {
        return ControlFlow::Break(None);
    }
    let active = active && head.active_below();
    match head.parts() {
        Parts::Zero => ControlFlow::Continue(size),
        Parts::One => {
            let first = locate(rest.bytes, rest.bound, offset - size, active)?;
            ControlFlow::Continue(size + first)
        }
        Parts::Two => {
            let first = locate(rest.bytes, rest.bound, offset - size, active)?;
            let last = rest.skip(first);
            let second = locate(last.bytes, last.bound, offset - size - first, active)?;
            ControlFlow::Continue(size + first + second)
        }
    }
}

impl Term<'_> {
    // The node whose first byte stands at the offset, if there is one.
    pub fn find(&self, offset: usize) -> Option<Place>
        ensures answer { result ≡ placed (node_at offset (tree self.now)) }
        ensures stands { StandsAt (tree self.now) offset result }
        ensures part { PartOf (bytes_of self.now) result }
    {
        let whole = Stretch::of(self);
        let found = locate(whole.bytes, whole.bound, offset, true)
            .break_value()
            .flatten()?;
        Some(Place {
            from: offset,
            end: offset + found.size,
            bound: found.bound,
            active: found.active,
        })
    }
}
