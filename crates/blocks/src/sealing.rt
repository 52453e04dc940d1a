// A stream is sealed: written as blocks.
ghost use Rattle.std.specs.Prelude.{◌≡◌, ◌≤◌, length, IfOk};
ghost use Rattle.refusal.specs.Writes.{answered, left};
ghost use Rattle.blocks.specs.Laws.{OpensAgain};
ghost use Rattle.blocks.specs.Sealing.{block, packing};

use crate::{BLOCK, FRONT, HEADER, LONGEST_STREAM, PAYLOAD, check};
use refusal::{Fault, Refusal};

// Writes the block of that number and payload over `out`, a part of a buffer: a slice, so that its length has to be asked.
fn seal_block(number: u16, payload: &[u8], out: &mut [u8])
    requires short { length payload.now ≤ 504 }
    requires whole { length out.old ≡ 512 }
    ensures { out.new ≡ block number payload.now }
{
    let used = payload.len();
    out[0..2].copy_from_slice(&number.to_le_bytes());
    out[2..HEADER].copy_from_slice(&(used as u16).to_le_bytes());
    out[HEADER..HEADER + used].copy_from_slice(payload);
    out[HEADER + used..FRONT].fill(0);
    let sum = check(out);
    out[FRONT..BLOCK].copy_from_slice(&sum.to_le_bytes());
}

// Seals a stream into blocks at the start of `out`, and answers how many bytes they have.
pub fn pack(stream: &[u8], out: &mut [u8]) -> Result<usize, Fault>
    // What is answered and what is left are facts about the call, not about a value: two words say them wherever a call writes.
    ensures answer { result ≡ answered (packing stream.now (length out.old)) }
    ensures buffer { out.new ≡ left (packing stream.now (length out.old)) out.old }

    // It follows from the answer. Said again in numbers, it lets a caller cut the buffer there without a proof of its own.
    ensures room { IfOk result (λ n. n ≤ length out.old) }

    ensures opens { OpensAgain stream.now }
{
    if stream.len() > LONGEST_STREAM {
        return Err(Refusal::StreamTooLong.at(0));
    }
    // An empty stream has one block too.
    let count = stream.len().div_ceil(PAYLOAD).max(1);
    let size = count * BLOCK;
    if out.len() < size {
        return Err(Refusal::BufferTooShort.at(0));
    }
    // The blocks are written by their places: once `chunks_exact_mut` has lent a buffer, no proof knows its bytes.
    let mut rest = stream;
    for number in 0..count {
        let (payload, later) = rest.split_at(rest.len().min(PAYLOAD));
        let at = number * BLOCK;
        seal_block(number as u16, payload, &mut out[at..at + BLOCK]);
        rest = later;
    }
    Ok(size)
}
