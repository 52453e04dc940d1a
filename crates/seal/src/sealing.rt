// A stream is sealed, and its blocks are opened again to compare.
ghost use Rattle.std.specs.Prelude.{◌≡◌, ◌↔◌, ◌≤◌, length, IfOk, IsTrue, Ok};
ghost use Rattle.refusal.specs.Writes.{answered, left};
ghost use Rattle.blocks.specs.Opening.{opened};
ghost use Rattle.blocks.specs.Sealing.{packing};
ghost use Rattle.seal.specs.Sealed.{sealed_as};

use blocks::{LONGEST_STREAM, pack, unpack};
use refusal::Fault;
use thiserror::Error;

// Why a stream was not sealed.
#[derive(Clone, Copy, Debug, Error)]
pub enum Unsealed {
    #[error("{words} (refusal {number})", words = .0.refusal, number = .0.refusal.number())]
    Declined(Fault),
    #[error("the blocks do not open to the same bytes")]
    OpensOtherwise,
}

// Whether the blocks open to the stream.
fn opens_to(sheet: &[u8], stream: &[u8]) -> bool
    ensures { IsTrue result ↔ (opened sheet.now ≡ Ok stream.now) }
{
    // A buffer of fixed length, so that comparing cannot fail for want of memory.
    let mut again = [0u8; LONGEST_STREAM];
    unpack(sheet, &mut again).is_ok_and(|length| &again[0..length] == stream)
}

// Seals a stream into blocks at the start of `sheet`, opens them again and compares; answers their length.
#[tactic(auto, unfolding(crate::specs::Sealed::sealed_as))]
pub fn seal_stream(stream: &[u8], sheet: &mut [u8]) -> Result<usize, Unsealed>
    // Answered and left as by `pack`.
    ensures answer { result ≡ sealed_as (answered (packing stream.now (length sheet.old))) }
    ensures buffer { sheet.new ≡ left (packing stream.now (length sheet.old)) sheet.old }

    // As in `pack`: said again in numbers, for callers that cut the buffer.
    ensures room { IfOk result (λ n. n ≤ length sheet.old) }
{
    let size = pack(stream, sheet).map_err(Unsealed::Declined)?;
    if opens_to(&sheet[0..size], stream) {
        Ok(size)
    } else {
        Err(Unsealed::OpensOtherwise)
    }
}
