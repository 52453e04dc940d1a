// Examples of sealing and opening, and every refusal at its place.
use crate::{BLOCK, LONGEST_SHEET, LONGEST_STREAM, check, pack, unpack};
use refusal::{Fault, Refusal};
use std::array;
use std::process::Abort;

// One byte more than the longest stream.
const STREAM: usize = LONGEST_STREAM + 1;

// One block more than the longest sheet.
const OVERLONG_SHEET: usize = LONGEST_SHEET + BLOCK;

// What a buffer holds before a call.
const OLD: u8 = 0xee;

// A stream in which neighbours differ.
fn stream() -> [u8; STREAM] {
    array::from_fn(|i| (i % 251) as u8)
}

fn declined(refusal: Refusal, place: usize) -> Result<usize, Fault> {
    Err(refusal.at(place))
}

fn is_old(bytes: &[u8]) -> bool {
    bytes.iter().all(|byte| *byte == OLD)
}

fn alter(sheet: &mut [u8], bytes: &[(usize, u8)]) {
    for (at, byte) in bytes {
        if let Some(old) = sheet.get_mut(*at) {
            *old = *byte;
        }
    }
}

// Writes the right check into the blocks of those numbers.
fn reseal(sheet: &mut [u8], numbers: &[usize]) {
    for (number, block) in sheet.chunks_exact_mut(BLOCK).enumerate() {
        if numbers.contains(&number) {
            let sum = check(block).to_le_bytes();
            block[508..512].copy_from_slice(&sum);
        }
    }
}

// Three blocks, of which the last uses 192, are opened once some bytes are altered and some blocks resealed.
fn open_altered(bytes: &[(usize, u8)], resealed: &[usize]) -> Result<usize, Fault> {
    let all = stream();
    let mut sheet = [0u8; 1536];
    let _ = pack(&all[0..1200], &mut sheet);
    alter(&mut sheet, bytes);
    reseal(&mut sheet, resealed);
    let mut out = [OLD; 1200];
    unpack(&sheet, &mut out)
}

// A stream of that length is sealed into so many bytes, and opens to itself.
fn round_trip(rt: &impl Abort, length: usize, size: usize) {
    let all = stream();
    let mut sheet = [OLD; LONGEST_SHEET];
    let mut out = [OLD; STREAM];
    assert!(rt; length <= STREAM);
    assert!(rt; size <= LONGEST_SHEET);
    assert_eq!(rt; pack(&all[..length], &mut sheet), Ok(size));
    assert_eq!(rt; unpack(&sheet[..size], &mut out), Ok(length));
    assert!(rt; out[..length] == all[..length]);
    assert!(rt; is_old(&out[length..]));
    assert!(rt; is_old(&sheet[size..]));
}

#[test]
fn one_byte_has_its_check(rt: HostRuntime) {
    let mut sheet = [OLD; 513];
    assert_eq!(rt; pack(&[7], &mut sheet), Ok(512));
    assert_eq!(rt; check(&sheet), 38);
    assert!(rt; sheet[..6] == [0, 0, 1, 0, 7, 0]);
    assert!(rt; sheet[507..] == [0, 38, 0, 0, 0, OLD]);
}

#[test]
fn streams_open_to_themselves(rt: HostRuntime) {
    round_trip(&rt, 0, 512);
    round_trip(&rt, 1, 512);
    round_trip(&rt, 504, 512);
    round_trip(&rt, 505, 1024);
    round_trip(&rt, 1200, 1536);
    round_trip(&rt, 64_512, 65_536);
}

#[test]
fn packing_is_declined(rt: HostRuntime) {
    let all = stream();
    let mut sheet = [OLD; 1023];
    assert_eq!(rt; pack(&all, &mut sheet), declined(Refusal::StreamTooLong, 0));
    assert_eq!(rt;
        pack(&all[0..505], &mut sheet),
        declined(Refusal::BufferTooShort, 0)
    );
    assert_eq!(rt;
        pack(&[], &mut sheet[0..511]),
        declined(Refusal::BufferTooShort, 0)
    );
    assert!(rt; sheet == [OLD; 1023]);
}

#[test]
fn opening_wants_whole_blocks(rt: HostRuntime) {
    let sheet = [0u8; OVERLONG_SHEET];
    let mut out = [OLD; 600];
    for part in [&sheet[..0], &sheet[..511], &sheet[..513], &sheet[..]] {
        assert_eq!(rt;
            unpack(part, &mut out),
            declined(Refusal::NotWholeBlocks, 0)
        );
    }
    assert_eq!(rt; unpack(&sheet[..512], &mut out), Ok(0));
}

#[test]
fn altered_bytes_are_told(rt: HostRuntime) {
    assert_eq!(rt; open_altered(&[], &[]), Ok(1200));
    // a payload byte, and the last byte of a check
    for (at, byte) in [(600, 0), (1535, 1)] {
        assert_eq!(rt;
            open_altered(&[(at, byte)], &[]),
            declined(Refusal::CheckDiffers, at / 512)
        );
    }
}

#[test]
fn malformed_blocks_are_told(rt: HostRuntime) {
    let altered = [
        // the low and the high byte of a number
        (512, 2),
        (1, 1),
        // used lengths where others follow: 503, 505, 1016
        (514, 0xf7),
        (514, 0xf9),
        (3, 3),
        // used lengths of the last: 0, 704
        (1026, 0),
        (1027, 2),
        // the filling, at its first byte and its last
        (1220, 1),
        (1531, 1),
    ];
    for (at, byte) in altered {
        let block = at / 512;
        assert_eq!(rt;
            open_altered(&[(at, byte)], &[block]),
            declined(Refusal::BlockMalformed, block)
        );
    }
}

#[test]
fn the_first_refusal_is_answered(rt: HostRuntime) {
    // an earlier block before a later one, and in one block the check before the number
    assert_eq!(rt;
        open_altered(&[(0, 9), (600, 0)], &[0]),
        declined(Refusal::BlockMalformed, 0)
    );
    assert_eq!(rt;
        open_altered(&[(512, 9), (600, 0)], &[]),
        declined(Refusal::CheckDiffers, 1)
    );
    assert_eq!(rt;
        open_altered(&[(512, 9), (1024, 9)], &[1, 2]),
        declined(Refusal::BlockMalformed, 1)
    );
}

#[test]
fn opening_wants_room(rt: HostRuntime) {
    let all = stream();
    let mut sheet = [0u8; 1024];
    let mut out = [OLD; 504];
    assert_eq!(rt; pack(&all[0..505], &mut sheet), Ok(1024));
    assert_eq!(rt;
        unpack(&sheet, &mut out),
        declined(Refusal::BufferTooShort, 0)
    );
    // a fault of a block comes before the buffer
    sheet[700] = 1;
    assert_eq!(rt;
        unpack(&sheet, &mut out),
        declined(Refusal::CheckDiffers, 1)
    );
    assert!(rt; out == [OLD; 504]);
}
