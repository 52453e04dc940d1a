// Streams sealed into blocks of 512 bytes, and opened again.
//
// A block has its number (2 bytes), the used length of its payload (2), the payload (504) and a check (4), each
// number with its low byte first. docs/FORMAT.md tells the format.
#![tactic(auto)]

ghost use Rattle.std.specs.Prelude.{◌≡◌, ◌<◌, ◌≤◌, length, take};
ghost use Rattle.blocks.specs.Check.{sum_from, check_of};

mod block;
mod opening;
mod sealing;
#[cfg(test)]
mod tests;

pub use opening::unpack;
pub use sealing::pack;

// The bytes of a block.
pub const BLOCK: usize = 512;

// The bytes of a block before its check.
const FRONT: usize = 508;

// The bytes of a block before its payload.
const HEADER: usize = 4;

// The bytes of a block's payload.
const PAYLOAD: usize = 504;

// The bytes of the longest stream: 128 payloads.
pub const LONGEST_STREAM: usize = 64_512;

// The bytes of the longest sheet: 128 blocks.
pub const LONGEST_SHEET: usize = 65_536;

// The remainder of the check's sum is taken by this prime.
const CHECK_MODULUS: u32 = 65_521;

// The sum of (i + 1) × byte i over at most 508 bytes. The requirements name this form: the bytes with their index, one by one,
// and the sum below a stated bound.
fn weighted_sum(bytes: &[u8]) -> u32
    requires { length bytes.now ≤ 508 }
    ensures sum { result ≡ sum_from 1 bytes.now }
    ensures bound { result ≤ 65806320 }
{
    let mut sum: u32 = 0;
    for (i, byte) in bytes.iter().enumerate() {
        sum += (i as u32 + 1) * u32::from(*byte);
    }
    sum
}

// The check of a block: of its first 508 bytes, or of all bytes where there are fewer.
pub fn check(block: &[u8]) -> u32
    ensures value { result ≡ check_of (take 508 block.now) }
    ensures bound { result < 65521 }
{
    let end = block.len().min(FRONT);
    weighted_sum(&block[0..end]) % CHECK_MODULUS
}
