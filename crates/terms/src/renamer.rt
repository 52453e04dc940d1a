// A term is renamed where it stands.
ghost use Rattle.std.specs.Prelude.{◌≡◌, ◌+◌, ◌*◌, ◌^◌, ◌<◌, ◌≤◌, length, map, IsSome, Some, Ok};
ghost use Rattle.terms.specs.Heads.{head_of, head_renamed};
ghost use Rattle.terms.specs.Pointers.{function_of, settled, passes_255, clear_of, renamed_at_start};
ghost use Rattle.terms.specs.Reading.{scan};

use crate::head::{Head, Parts};
use crate::names::Renaming;

// A renaming, and how many names are bound above the bytes that it renames. The renaming is borrowed, so that both stay in
// registers on the way down.
#[derive(Clone, Copy)]
pub(crate) struct Renamer<'a> {
    pub(crate) renaming: &'a Renaming<'a>,
    pub(crate) depth: usize,
}

impl Renamer<'_> {
    // What becomes of a pointer, which stays where it would pass 255.
    #[tactic(auto, unfolding(crate::specs::Pointers::settled))]
    fn settle(self, pointer: u8) -> u8
        ensures { result ≡ settled (function_of self.entry.renaming.now self.entry.depth) pointer }
    {
        u8::try_from(self.renaming.apply(self.depth, pointer)).unwrap_or(pointer)
    }

    // Renames a row of pointers.
    #[tactic(auto, using(std::proofs::lemmas::Grind::common_steps, std::proofs::lemmas::List::Edits::map_over_more))]
    fn rename_row(self, pointers: &mut [u8])
        ensures { pointers.new ≡ map (settled (function_of self.entry.renaming.now self.entry.depth)) pointers.old }
    {
        for pointer in pointers.iter_mut() {
            *pointer = self.settle(*pointer);
        }
    }

    // Renames the pointers of the head at the start itself.
    #[tactic(auto, using(crate::proofs::Scanned::head_size))]
    fn rename_head(self, head: Head, bytes: &mut [u8])
        requires { head_of bytes.old ≡ Ok head }
        ensures { bytes.new ≡ head_renamed (settled (function_of self.entry.renaming.now self.entry.depth)) head bytes.old }
    {
        let size = head.size();
        self.rename_row(&mut bytes[1..1 + head.subjects()]);
        self.rename_row(&mut bytes[size - head.objects()..size]);
    }

    // Renames every pointer of the process at the start, none of which would pass 255, and answers how many bytes it takes;
    // `room` is said as in `size_at_start`.
    pub(crate) fn rename(self, bytes: &mut [u8]) -> usize
        requires clear { IsSome (clear_of (passes_255 self.renaming.now) self.depth (scan bytes.old)) }
        // The depth can be counted to the end of the bytes. No field can say so, since the bytes are borrowed mutably.
        requires countable { self.depth + 8 * length bytes.old < 2 ^ 32 }
        ensures size { Some result ≡ clear_of (passes_255 self.entry.renaming.now) self.entry.depth (scan bytes.old) }
        ensures room { result ≤ length bytes.old }
        ensures renamed { bytes.new ≡ renamed_at_start (function_of self.entry.renaming.now) self.entry.depth (scan bytes.old) }
    {
        let Ok(head) = Head::read(bytes) else {
            unreachable()
        };
        let size = head.size();
        self.rename_head(head, bytes);
        let below = Renamer {
            renaming: self.renaming,
            depth: self.depth + head.binds(),
        };
        let rest = &mut bytes[size..];
        match head.parts() {
            Parts::Zero => size,
            Parts::One => size + below.rename(rest),
            Parts::Two => {
                let first = below.rename(rest);
                let second = below.rename(&mut rest[first..]);
                size + first + second
            }
        }
    }
}
