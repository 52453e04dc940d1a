// Blocks are opened: examined one after another, and their payloads put together.
ghost use Rattle.std.specs.Prelude.{◌≡◌, ◌≤◌, ◌++◌, length, drop, IfOk};
ghost use Rattle.std.specs.List.{All, flat_map};
ghost use Rattle.refusal.specs.Writes.{answered, left};
ghost use Rattle.blocks.specs.Laws.{SealedOnly};
ghost use Rattle.blocks.specs.Opening.{used_field, payload_of, unless, whole_blocks, first_fault, unpacking};

use crate::block::{Place, payload};
use crate::{BLOCK, LONGEST_SHEET};
use refusal::{Fault, Refusal};

// Whether so many bytes are 1 to 128 whole blocks.
#[tactic(auto, unfolding(crate::specs::Opening::whole_blocks))]
fn whole_blocks(size: usize) -> bool
    ensures { result ≡ whole_blocks size }
{
    size % BLOCK == 0 && size > 0 && size <= LONGEST_SHEET
}

// The length of the stream that blocks hold, or the first fault among them.
fn stream_length(blocks: &[[u8; BLOCK]]) -> Result<usize, Fault>
    requires { length blocks.now ≤ 128 }
    ensures { result ≡ unless (first_fault 0 blocks.now) (length (flat_map payload_of blocks.now)) }
{
    let mut size = 0;
    for (number, block) in blocks.iter().enumerate() {
        let more = blocks.len() - 1 - number;
        size += Place { number, more }.examine(block)?;
    }
    Ok(size)
}

// Writes the payloads of blocks to the start of `out`.
fn copy_payloads(blocks: &[[u8; BLOCK]], out: &mut [u8])
    requires short { All (λ b. used_field b ≤ 504) blocks.now }
    requires room { length (flat_map payload_of blocks.now) ≤ length out.old }
    ensures { out.new ≡ flat_map payload_of blocks.now ++ drop (length (flat_map payload_of blocks.now)) out.old }
{
    // The place is counted: of a buffer that an iterator or a moving `&mut` has lent, no proof knows the bytes.
    let mut end = 0;
    for block in blocks {
        let payload = payload(block);
        let start = end;
        end += payload.len();
        out[start..end].copy_from_slice(payload);
    }
}

// Opens blocks into the start of `out`, and answers how long their stream is.
pub fn unpack(blocks: &[u8], out: &mut [u8]) -> Result<usize, Fault>
    // What is answered and what is left are facts about the call, not about a value: two words say them wherever a call writes.
    ensures answer { result ≡ answered (unpacking blocks.now (length out.old)) }
    ensures buffer { out.new ≡ left (unpacking blocks.now (length out.old)) out.old }

    // It follows from the answer. Said again in numbers, it lets a caller cut the buffer there without a proof of its own.
    ensures room { IfOk result (λ n. n ≤ length out.old) }

    ensures sealed { SealedOnly blocks.now }
{
    if !whole_blocks(blocks.len()) {
        return Err(Refusal::NotWholeBlocks.at(0));
    }
    let (blocks, _) = blocks.as_chunks::<BLOCK>();
    let size = stream_length(blocks)?;
    if out.len() < size {
        return Err(Refusal::BufferTooShort.at(0));
    }
    copy_payloads(blocks, out);
    Ok(size)
}
