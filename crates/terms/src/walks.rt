// Walks over the pointers of a term: is one there, and what becomes of all.
ghost use Rattle.std.specs.Prelude.{◌≡◌, ℕ, ◌+◌, ◌*◌, ◌^◌, ◌<◌, ◌≤◌, Bool, true, not, ◌||◌, length, take, IfSome, IfOk, Ok};
ghost use Rattle.calculus.specs.Trees.{write};
ghost use Rattle.calculus.specs.Names.{rename, free};
ghost use Rattle.refusal.specs.Writes.{answered, left, within};
ghost use Rattle.terms.specs.Fitting.{are_bytes};
ghost use Rattle.terms.specs.Heads.{head_of, subject_in, objects_in};
ghost use Rattle.terms.specs.Pointers.{function_of, renamed, any_of, left_of, Tests};
ghost use Rattle.terms.specs.Reading.{scan, is_term};
ghost use Rattle.terms.specs.Views.{bytes_of, tree};

use crate::head::{Head, Parts};
use crate::names::{Renaming, any_passes};
use crate::renamer::Renamer;
use crate::stretch::Stretch;
use crate::term::Term;
use refusal::{Fault, Refusal};

// Whether a pointer of the head at the start, its subject or an object, passes a test; of the closure all is said as in
// `any_passes`.
fn head_passes<F: Fn(usize, u8) -> bool>(head: Head, stretch: Stretch<'_>, test: &F) -> bool
    requires head { head_of stretch.bytes.now ≡ Ok head }
    requires callable { F.IsAlwaysCallable test.now }
    ensures { (known : ℕ → ℕ → Bool) → Tests (F.post test.now) known → result ≡ (any_of (known stretch.entry.bound) (subject_in head) || any_of (known stretch.entry.bound) (objects_in head stretch.entry.bytes.now)) }
{
    match head {
        Head::Output { subject, .. } => {
            let objects = &stretch.bytes[3..head.size()];
            test(stretch.bound, subject) || any_passes(test, stretch.bound, objects)
        }
        Head::Input { subject, .. } => test(stretch.bound, subject),
        Head::Terminated
        | Head::Choice
        | Head::Parallel
        | Head::Restriction { .. }
        | Head::Replication => false,
    }
}

// How many bytes are left after the process at the start, if none of its pointers, each at its depth, passes a test; of the
// closure all is said as in `any_passes`, and `room` is said as in `size_at_start`. Bytes and bound go down apart, since they stay
// in registers then: a stretch has three words. What is left is answered, and not the size, so that the last call of an arm
// answers for all of it.
fn clear<F: Fn(usize, u8) -> bool>(bytes: &[u8], bound: usize, test: &F) -> Option<usize>
    requires callable { F.IsAlwaysCallable test.now }
    requires countable { bound + 8 * length bytes.now < 2 ^ 32 }
    ensures answer { (known : ℕ → ℕ → Bool) → Tests (F.post test.now) known → result ≡ left_of known bound bytes.now }
    ensures room { IfSome result (λ left. left ≤ length bytes.now) }
{
    let stretch = Stretch { bytes, bound };
    let (head, rest) = stretch.split_head()?;
    if head_passes(head, stretch, test) {
        return None;
    }
    match head.parts() {
        Parts::Zero => Some(rest.bytes.len()),
        Parts::One => clear(rest.bytes, rest.bound, test),
        Parts::Two => {
            let left = clear(rest.bytes, rest.bound, test)?;
            let last = rest.skip(rest.bytes.len() - left);
            clear(last.bytes, last.bound, test)
        }
    }
}

impl Term<'_> {
    // Whether a pointer, as the top of the term counts it, occurs free.
    pub fn has_free(&self, pointer: u8) -> bool
        ensures { result ≡ free pointer (tree self.now) }
    {
        let top = usize::from(pointer);
        let counted = |depth, pointer: u8| usize::from(pointer).checked_sub(depth) == Some(top);
        let whole = Stretch::of(self);
        clear(whole.bytes, whole.bound, &counted).is_none()
    }

    // Whether a pointer would pass 255 by the renaming.
    pub fn overflows(&self, renaming: Renaming<'_>) -> bool
        ensures { result ≡ not (are_bytes (write (rename (function_of renaming.entry) 0 (tree self.now)))) }
    {
        let passes_255 = |depth, pointer: u8| renaming.apply(depth, pointer) > 255;
        let whole = Stretch::of(self);
        clear(whole.bytes, whole.bound, &passes_255).is_none()
    }

    // Writes the renamed term to the start of `out`, and answers its length, which is that of the term.
    pub fn rename(&self, renaming: Renaming<'_>, out: &mut [u8]) -> Result<usize, Fault>
        // What is answered and what is left are facts about the call, not about a value: two words say them wherever a call writes.
        ensures answer { result ≡ answered (within (length out.old) (renamed (function_of renaming.entry) (tree self.now))) }
        ensures buffer { out.new ≡ left (within (length out.old) (renamed (function_of renaming.entry) (tree self.now))) out.old }
        ensures size { IfOk result (λ n. n ≡ length (bytes_of self.now)) }
        ensures term { IfOk result (λ n. is_term (take n out.new) ≡ true) }
    {
        if self.overflows(renaming) {
            return Err(Refusal::PointerOverflow.at(0));
        }
        let bytes = self.bytes();
        let size = bytes.len();
        if out.len() < size {
            return Err(Refusal::BufferTooShort.at(0));
        }
        let start = &mut out[0..size];
        start.copy_from_slice(bytes);
        let renamer = Renamer {
            renaming: &renaming,
            depth: 0,
        };
        Ok(renamer.rename(start))
    }
}
