// What the program does with files, good and bad.
use crate::failure::Failure;
use crate::run;
use crate::sealing::Unsealed;
use refusal::Refusal;
use std::fs;
use std::process::Abort;
use std::rt::Files;
use std::test::Fail;

fn nothing_written(rt: &(impl Abort + Files), sheet: &str, part: &str) -> Result<(), Fail> {
    assert!(rt; !fs::exists(rt, sheet)?);
    assert!(rt; !fs::exists(rt, part)?);
    Ok(())
}

#[test]
fn a_stream_is_sealed(rt: HostRuntime) -> Result<(), Fail> {
    let stream = [9u8; 505];
    fs::write(&rt, "good.stream", &stream)?;
    assert!(rt; run(&rt, "good.stream", "good.sheet").is_ok());
    let sheet = fs::read(&rt, "good.sheet")?;
    let mut again = [0u8; 505];
    assert_eq!(rt; sheet.len(), 1024);
    assert!(rt; blocks::unpack(&sheet, &mut again).is_ok());
    assert!(rt; again == stream);
    assert!(rt; !fs::exists(&rt, "good.sheet.part")?);
    Ok(())
}

#[test]
fn a_missing_stream_is_told(rt: HostRuntime) -> Result<(), Fail> {
    let told = matches!(
        run(&rt, "missing.stream", "missing.sheet"),
        Err(Failure::StreamUnread(_))
    );
    assert!(rt; told);
    nothing_written(&rt, "missing.sheet", "missing.sheet.part")
}

#[test]
fn a_long_stream_is_told(rt: HostRuntime) -> Result<(), Fail> {
    let stream = [1u8; 64_513];
    fs::write(&rt, "long.stream", &stream)?;
    let Err(Failure::Unsealed(Unsealed::Declined(fault))) = run(&rt, "long.stream", "long.sheet")
    else {
        return Err(Fail::new("the stream was not declined"));
    };
    assert_eq!(rt; fault.refusal, Refusal::StreamTooLong);
    nothing_written(&rt, "long.sheet", "long.sheet.part")
}

#[test]
fn one_file_is_not_both(rt: HostRuntime) -> Result<(), Fail> {
    fs::write(&rt, "both", "seven")?;
    let told = matches!(run(&rt, "both", "both"), Err(Failure::SameFile));
    assert!(rt; told);
    let kept = fs::read_to_string(&rt, "both")?;
    assert_eq!(rt; kept.as_str(), "seven");
    Ok(())
}

#[test]
fn a_sheet_that_cannot_be_written_is_told(rt: HostRuntime) -> Result<(), Fail> {
    fs::write(&rt, "some.stream", "seven")?;
    fs::create_dir(&rt, "folder")?;
    let missing = matches!(
        run(&rt, "some.stream", "nowhere/some.sheet"),
        Err(Failure::SheetUnwritten(_))
    );
    assert!(rt; missing);
    let folder = matches!(
        run(&rt, "some.stream", "folder"),
        Err(Failure::SheetUnwritten(_))
    );
    assert!(rt; folder);
    assert!(rt; !fs::exists(&rt, "folder.part")?);
    Ok(())
}
