// Examples of reading, finding and renaming, and every refusal at its place.
use refusal::Refusal;
use std::array;
use std::process::Abort;
use std::test::Fail;
use terms::{LONGEST_TERM, Node, Place, Renaming, Term, read};

// x̄⟨y⟩.0 ∣ x(u).0
const SAMPLE: [u8; 10] = [4, 1, 0, 1, 1, 0, 2, 0, 1, 0];

// What a buffer holds before a call.
const OLD: u8 = 0xee;

// The term that bytes are.
fn term<'a>(rt: &impl Abort, bytes: &'a [u8]) -> Term<'a> {
    read(bytes).expect(rt, "the bytes are one whole term")
}

// The bytes are declined for that cause, at that place.
fn declined(rt: &impl Abort, bytes: &[u8], refusal: Refusal, place: usize) {
    assert_eq!(rt; read(bytes).err(), Some(refusal.at(place)));
}

// The bytes are declined as no whole term, at that place.
fn no_term(rt: &impl Abort, bytes: &[u8], place: usize) {
    declined(rt, bytes, Refusal::NotOneTerm, place);
}

fn found(from: usize, end: usize, bound: usize, active: bool) -> Option<Place> {
    Some(Place {
        from,
        end,
        bound,
        active,
    })
}

// The term renamed is that one, written to the start of a longer buffer.
fn renames(rt: &impl Abort, bytes: &[u8], renaming: Renaming<'_>, to: &[u8]) {
    let term = term(rt, bytes);
    let mut out = [OLD; 64];
    assert!(rt; to.len() < 64);
    assert!(rt; !term.overflows(renaming));
    assert_eq!(rt; term.rename(renaming, &mut out), Ok(to.len()));
    assert!(rt; &out[0..to.len()] == to);
    assert_eq!(rt; out[to.len()], OLD);
}

// A pointer would pass 255, and the buffer stays.
fn overflows(rt: &impl Abort, bytes: &[u8], renaming: Renaming<'_>) {
    let term = term(rt, bytes);
    let mut out = [OLD; 64];
    assert!(rt; term.overflows(renaming));
    assert_eq!(rt;
        term.rename(renaming, &mut out),
        Err(Refusal::PointerOverflow.at(0))
    );
    assert!(rt; out.iter().all(|byte| *byte == OLD));
}

// An output on that pointer below 31 inputs of count 8 and one of that count.
fn below_inputs(count: u8, pointer: u8) -> [u8; 100] {
    array::from_fn(|i| match i {
        95 => count,
        96 => 1,
        97 => pointer,
        98 | 99 => 0,
        _ if i % 3 == 0 => 2,
        _ if i % 3 == 1 => 0,
        _ => 8,
    })
}

// So many parallels, each the left part of the one before, and then nothing but terminated processes.
fn parallels(count: usize) -> [u8; LONGEST_TERM] {
    array::from_fn(|i| if i < count { 4 } else { 0 })
}

#[test]
fn a_term_is_read(rt: HostRuntime) {
    assert!(rt; term(&rt, &SAMPLE).bytes() == SAMPLE.as_slice());
    assert!(rt; read(&[0]).is_ok());
    assert!(rt; read(&[1, 255, 8, 0, 1, 2, 3, 4, 5, 6, 255, 0]).is_ok());
    assert!(rt; read(&[2, 255, 8, 0]).is_ok());
    assert!(rt; read(&[3, 6, 0, 5, 255, 0]).is_ok());
}

#[test]
fn bytes_that_lack_are_told_at_the_end(rt: HostRuntime) {
    no_term(&rt, &[], 0);
    no_term(&rt, &[1], 1);
    no_term(&rt, &[1, 0], 2);
    no_term(&rt, &[1, 0, 2], 3);
    no_term(&rt, &[1, 0, 2, 9], 4);
    no_term(&rt, &[1, 0, 2, 9, 9], 5);
    no_term(&rt, &[2], 1);
    no_term(&rt, &[2, 0], 2);
    no_term(&rt, &[2, 0, 1], 3);
    no_term(&rt, &[3], 1);
    no_term(&rt, &[3, 0], 2);
    no_term(&rt, &[4, 0], 2);
    no_term(&rt, &[5], 1);
    no_term(&rt, &[5, 7], 2);
    no_term(&rt, &[6], 1);
    no_term(&rt, &SAMPLE[0..9], 9);
}

#[test]
fn bytes_that_cannot_stand_are_told_where_they_are(rt: HostRuntime) {
    // unknown tags, at the top and in each part
    no_term(&rt, &[7], 0);
    no_term(&rt, &[255, 0], 0);
    no_term(&rt, &[1, 0, 1, 7, 7], 4);
    no_term(&rt, &[2, 0, 0, 8], 3);
    no_term(&rt, &[3, 9, 0], 1);
    no_term(&rt, &[3, 0, 9], 2);
    no_term(&rt, &[4, 6, 9], 2);
    no_term(&rt, &[5, 9, 9], 2);
    no_term(&rt, &[6, 9], 1);
    // counts above 8, before the bytes after them are looked at
    no_term(&rt, &[1, 0, 9], 2);
    no_term(&rt, &[2, 0, 9, 0], 2);
    no_term(&rt, &[4, 1, 0, 0, 0, 2, 0, 255, 0], 7);
    // bytes left over
    no_term(&rt, &[0, 0], 1);
    no_term(&rt, &[4, 0, 0, 0], 3);
    no_term(&rt, &[4, 1, 0, 1, 1, 0, 2, 0, 1, 0, 4], 10);
}

#[test]
fn long_terms_are_read_to_the_limit(rt: HostRuntime) {
    let mut bytes = [6u8; 4098];
    bytes[4095] = 0;
    assert!(rt; read(&bytes[0..LONGEST_TERM]).is_ok());
    declined(&rt, &bytes[0..4097], Refusal::TermTooLong, 0);
    declined(&rt, &bytes, Refusal::TermTooLong, 0);
    no_term(&rt, &bytes[0..4095], 4095);
    bytes[4094] = 0;
    no_term(&rt, &bytes[0..LONGEST_TERM], 4095);
    no_term(&rt, &[6; LONGEST_TERM], 4096);
}

#[test]
fn nodes_are_found_where_they_begin(rt: HostRuntime) {
    let sample = term(&rt, &SAMPLE);
    assert_eq!(rt; sample.find(0), found(0, 10, 0, true));
    assert_eq!(rt; sample.find(1), found(1, 6, 0, true));
    assert_eq!(rt; sample.find(2), None);
    assert_eq!(rt; sample.find(3), None);
    assert_eq!(rt; sample.find(4), None);
    assert_eq!(rt; sample.find(5), found(5, 6, 0, false));
    assert_eq!(rt; sample.find(6), found(6, 10, 0, true));
    assert_eq!(rt; sample.find(9), found(9, 10, 1, false));
    assert_eq!(rt; sample.find(10), None);
    assert_eq!(rt; sample.find(usize::MAX), None);
    // restrictions, a choice, a replication and an input above
    let deep = term(&rt, &[5, 1, 5, 2, 4, 3, 0, 0, 6, 2, 0, 2, 0]);
    assert_eq!(rt; deep.find(2), found(2, 13, 1, true));
    assert_eq!(rt; deep.find(5), found(5, 8, 2, true));
    assert_eq!(rt; deep.find(6), found(6, 7, 2, false));
    assert_eq!(rt; deep.find(7), found(7, 8, 2, false));
    assert_eq!(rt; deep.find(8), found(8, 13, 2, true));
    assert_eq!(rt; deep.find(9), found(9, 13, 2, false));
    assert_eq!(rt; deep.find(12), found(12, 13, 4, false));
    assert_eq!(rt; deep.find(1), None);
}

#[test]
fn terms_are_taken_apart(rt: HostRuntime) -> Result<(), Fail> {
    let Node::Parallel(left, right) = term(&rt, &SAMPLE).node() else {
        return Err(Fail::new("the sample is a parallel"));
    };
    assert!(rt; left.bytes() == &SAMPLE[1..6]);
    assert!(rt; right.bytes() == &SAMPLE[6..10]);
    let Node::Output {
        subject,
        objects,
        continuation: sent,
    } = left.node()
    else {
        return Err(Fail::new("its left part is an output"));
    };
    assert_eq!(rt; subject, 0);
    assert_eq!(rt; objects.len(), 1);
    assert!(rt; objects == &SAMPLE[4..5]);
    assert!(rt; sent.bytes() == &SAMPLE[5..6]);
    let Node::Input {
        subject,
        count,
        continuation: received,
    } = right.node()
    else {
        return Err(Fail::new("its right part is an input"));
    };
    assert_eq!(rt; subject, 0);
    assert_eq!(rt; count, 1);
    assert!(rt; received.same_as(&sent));
    assert!(rt; !received.same_as(&left));
    Ok(())
}

#[test]
fn free_pointers_are_seen_through_binders(rt: HostRuntime) -> Result<(), Fail> {
    // x(u).ū⟨x⟩ with x the free name 0
    let input = term(&rt, &[2, 0, 1, 1, 0, 1, 1, 0]);
    assert!(rt; input.has_free(0));
    assert!(rt; !input.has_free(1));
    let Node::Input {
        continuation: body,
        ..
    } = input.node()
    else {
        return Err(Fail::new("the term is an input"));
    };
    assert!(rt; body.has_free(0));
    assert!(rt; body.has_free(1));
    // below a restriction the free name 254 is pointer 255, and the free name 255 cannot be written
    let deep = term(&rt, &[5, 0, 1, 255, 0, 0]);
    assert!(rt; deep.has_free(254));
    assert!(rt; !deep.has_free(255));
    Ok(())
}

#[test]
fn pointers_rise_and_fall_by_one(rt: HostRuntime) {
    renames(
        &rt,
        &[2, 0, 1, 1, 0, 1, 1, 0],
        Renaming::Raise,
        &[2, 1, 1, 1, 0, 1, 2, 0],
    );
    renames(
        &rt,
        &[2, 1, 1, 1, 0, 1, 2, 0],
        Renaming::Lower,
        &[2, 0, 1, 1, 0, 1, 1, 0],
    );
    renames(&rt, &[1, 254, 0, 0], Renaming::Raise, &[1, 255, 0, 0]);
    overflows(&rt, &[1, 255, 0, 0], Renaming::Raise);
    overflows(&rt, &[1, 0, 1, 255, 0], Renaming::Raise);
    overflows(&rt, &[4, 0, 2, 255, 0, 0], Renaming::Raise);
    renames(
        &rt,
        &[5, 0, 1, 254, 0, 0],
        Renaming::Raise,
        &[5, 0, 1, 255, 0, 0],
    );
    overflows(&rt, &[5, 0, 1, 255, 0, 0], Renaming::Raise);
    // 255 stays where 256 names are bound
    assert!(rt; !term(&rt, &below_inputs(8, 255)).overflows(Renaming::Raise));
    assert!(rt; term(&rt, &below_inputs(7, 255)).overflows(Renaming::Raise));
}

#[test]
fn pointers_are_exchanged_under_binders(rt: HostRuntime) {
    renames(
        &rt,
        &[2, 0, 2, 1, 2, 3, 0, 3, 4, 0],
        Renaming::Exchange,
        &[2, 1, 2, 1, 3, 3, 0, 2, 4, 0],
    );
    // under 255 bound names pointer 255 would become 256, and 254 stays
    assert!(rt; term(&rt, &below_inputs(7, 255)).overflows(Renaming::Exchange));
    assert!(rt; !term(&rt, &below_inputs(7, 254)).overflows(Renaming::Exchange));
    assert!(rt; !term(&rt, &below_inputs(6, 255)).overflows(Renaming::Exchange));
}

#[test]
fn objects_are_sent_to_their_depth(rt: HostRuntime) {
    renames(
        &rt,
        &[5, 7, 1, 1, 0, 0],
        Renaming::Send(&[1]),
        &[5, 7, 1, 2, 0, 0],
    );
    renames(
        &rt,
        &[1, 1, 2, 0, 2, 0],
        Renaming::Send(&[8, 9]),
        &[1, 9, 2, 8, 0, 0],
    );
    renames(&rt, &[1, 3, 0, 0], Renaming::Send(&[]), &[1, 3, 0, 0]);
    renames(
        &rt,
        &[1, 255, 0, 0],
        Renaming::Send(&[255]),
        &[1, 254, 0, 0],
    );
    renames(&rt, &[1, 0, 0, 0], Renaming::Send(&[255]), &[1, 255, 0, 0]);
    renames(
        &rt,
        &[5, 7, 1, 1, 0, 0],
        Renaming::Send(&[254]),
        &[5, 7, 1, 255, 0, 0],
    );
    overflows(&rt, &[5, 7, 1, 1, 0, 0], Renaming::Send(&[255]));
}

#[test]
fn a_buffer_must_be_long_enough(rt: HostRuntime) {
    let sample = term(&rt, &SAMPLE);
    let mut short = [OLD; 9];
    assert_eq!(rt;
        sample.rename(Renaming::Raise, &mut short),
        Err(Refusal::BufferTooShort.at(0))
    );
    assert_eq!(rt; short[0], OLD);
    let mut out = [OLD; 10];
    assert_eq!(rt; sample.rename(Renaming::Raise, &mut out), Ok(10));
    assert!(rt; out == [4, 1, 1, 1, 2, 0, 2, 1, 1, 0]);
}

// The deepest term: each of 4,095 nodes below the one before.
#[test]
fn the_deepest_term_has_stack_enough(rt: HostRuntime) {
    let mut bytes = [6u8; LONGEST_TERM];
    bytes[4095] = 0;
    let deepest = term(&rt, &bytes);
    let mut out = [OLD; LONGEST_TERM];
    assert_eq!(rt; deepest.rename(Renaming::Raise, &mut out), Ok(4096));
    assert!(rt; out == bytes);
    assert!(rt; !deepest.has_free(0));
    assert_eq!(rt; deepest.find(4095), found(4095, 4096, 0, false));
    // and one that is deep on the left: 2,047 parallels, then 2,049 terminated, of which one is left over
    let left = parallels(2047);
    no_term(&rt, &left, 4095);
    let whole = term(&rt, &left[0..4095]);
    assert_eq!(rt; whole.find(4094), found(4094, 4095, 0, true));
}
