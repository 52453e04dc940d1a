// seal STREAM SHEET: seals the stream in the file STREAM into blocks, opens them again and compares, and writes
// them to the file SHEET.
#![tactic(auto)]

mod failure;
mod sealing;
#[cfg(test)]
mod tests;

use blocks::{BLOCK, LONGEST_SHEET, LONGEST_STREAM, check};
use failure::Failure;
use sealing::seal_stream;
use std::fs::File;
use std::io::{Read, Write};
use std::process::ExitCode;
use std::{env, fs, io};

const USAGE: &str = "usage: seal STREAM SHEET

Seals the stream in the file STREAM, at most 64512 bytes, into blocks of 512 bytes,
opens the blocks again to compare, and writes them to the file SHEET.";

// One byte more than the longest stream, which is enough to see that a stream is too long.
const READ_LIMIT: u64 = LONGEST_STREAM as u64 + 1;

// A file's path and its bytes.
#[derive(Clone, Copy)]
struct Contents<'a> {
    path: &'a str,
    bytes: &'a [u8],
}

fn read_stream(rt: &HostRuntime, path: &str) -> io::Result<Vec<u8>> {
    let file = File::open(rt, path)?;
    let mut stream = Vec::new(rt.alloc());
    file.take(READ_LIMIT).read_to_end(&mut stream)?;
    Ok(stream)
}

// Writes a file beside the sheet first, so that a failure leaves no half of a sheet and an older sheet as it was.
fn write_sheet(rt: &HostRuntime, sheet: Contents<'_>) -> io::Result<()> {
    let Contents { path, bytes } = sheet;
    let part = format!(in rt.alloc(); "{path}.part")?;
    let mut file = File::create_new(rt, part.as_str())?;
    let written = file
        .write_all(bytes)
        .and_then(|()| fs::rename(rt, part.as_str(), path));
    if written.is_err() {
        let _ = fs::remove_file(rt, part.as_str());
    }
    written
}

fn print_report(rt: &HostRuntime, stream: Contents<'_>, sheet: Contents<'_>) -> io::Result<()> {
    println!(rt; "{}: length {}", stream.path, stream.bytes.len())?;
    let Contents { path, bytes } = sheet;
    let (blocks, _) = bytes.as_chunks::<BLOCK>();
    for (n, block) in blocks.iter().enumerate() {
        // Two bytes of the format, for this line alone: a public call of `blocks` would promise them to everyone.
        let used = u16::from_le_bytes([block[2], block[3]]);
        println!(rt; "block {n}: used {used}, check {}", check(block))?;
    }
    println!(rt;
        "{path}: length {}, blocks {}, opened again to the same stream",
        bytes.len(),
        blocks.len()
    )
}

fn run(rt: &HostRuntime, stream_path: &str, sheet_path: &str) -> Result<(), Failure> {
    if stream_path == sheet_path {
        return Err(Failure::SameFile);
    }
    let stream = read_stream(rt, stream_path).map_err(Failure::StreamUnread)?;
    // A buffer of fixed length, so that sealing cannot fail for want of memory.
    let mut sheet = [0u8; LONGEST_SHEET];
    let size = seal_stream(&stream, &mut sheet)?;
    let stream = Contents {
        path: stream_path,
        bytes: &stream,
    };
    let sheet = Contents {
        path: sheet_path,
        bytes: &sheet[0..size],
    };
    write_sheet(rt, sheet).map_err(Failure::SheetUnwritten)?;
    print_report(rt, stream, sheet).map_err(Failure::ReportUnwritten)
}

fn arguments(rt: &HostRuntime) -> io::Result<Vec<String>> {
    let all = env::args(rt)?;
    Ok(all.collect(rt.alloc())?)
}

// Ends with status 1 after a failure or wrong arguments; what was wrong is on standard error.
// It answers a code, since an error that it returned would be printed in other words.
fn main(rt: HostRuntime) -> ExitCode {
    let Ok(args) = arguments(&rt) else {
        let _ = eprintln!(rt; "seal: the arguments cannot be read");
        return ExitCode::FAILURE;
    };
    match args.as_slice() {
        [_, option] if option.as_str() == "--help" => {
            let _ = println!(rt; "{USAGE}");
            ExitCode::SUCCESS
        }
        [_, stream, sheet] => match run(&rt, stream.as_str(), sheet.as_str()) {
            Ok(()) => ExitCode::SUCCESS,
            Err(failure) => {
                let _ = eprintln!(rt; "seal: {failure}");
                ExitCode::FAILURE
            }
        },
        _ => {
            let _ = eprintln!(rt; "{USAGE}");
            ExitCode::FAILURE
        }
    }
}
