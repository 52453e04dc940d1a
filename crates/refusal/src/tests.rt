// The numbers and words of the refusals.
use crate::Refusal;
use std::test::Fail;

const ALL: [Refusal; 24] = [
    Refusal::TermTooLong,
    Refusal::NotOneTerm,
    Refusal::MoveUnreadable,
    Refusal::NoNodeThere,
    Refusal::PlaceNotActive,
    Refusal::ShapeMisfit,
    Refusal::NameInUse,
    Refusal::ChannelDiffers,
    Refusal::PointerOverflow,
    Refusal::ResultTooLong,
    Refusal::BufferTooShort,
    Refusal::NothingLoaded,
    Refusal::TallyFull,
    Refusal::TooManyNameSorts,
    Refusal::StreamTooLong,
    Refusal::NotWholeBlocks,
    Refusal::CheckDiffers,
    Refusal::BlockMalformed,
    Refusal::PartLength,
    Refusal::ClaimDiffers,
    Refusal::ListTooLong,
    Refusal::SortPresent,
    Refusal::TableFull,
    Refusal::NoSuchPlace,
];

#[test]
fn numbers_run_from_1_to_24(rt: HostRuntime) {
    for (i, refusal) in ALL.iter().enumerate() {
        assert_eq!(rt; usize::from(refusal.number()), i + 1);
    }
}

#[test]
fn each_equals_itself_alone(rt: HostRuntime) {
    for (i, a) in ALL.iter().enumerate() {
        for (k, b) in ALL.iter().enumerate() {
            assert_eq!(rt; *a == *b, i == k);
            assert_eq!(rt; a.same_as(*b), i == k);
        }
    }
}

#[test]
fn words_are_shown(rt: HostRuntime) -> Result<(), Fail> {
    let shown = Refusal::StreamTooLong.to_string(rt.alloc())?;
    assert_eq!(rt; shown.as_str(), "the stream has more than 64512 bytes");
    Ok(())
}
