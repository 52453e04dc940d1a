// Why nothing was sealed, in words for standard error.
use crate::sealing::Unsealed;
use std::io;
use thiserror::Error;

#[derive(Debug, Drop, Error)]
pub enum Failure {
    #[error("STREAM and SHEET are the same file")]
    SameFile,
    #[error("STREAM cannot be read: {0}")]
    StreamUnread(io::Error),
    #[error("STREAM cannot be sealed: {0}")]
    Unsealed(#[from] Unsealed),
    #[error("SHEET cannot be written by way of SHEET.part: {0}")]
    SheetUnwritten(io::Error),
    #[error("SHEET is written, but the report is not: {0}")]
    ReportUnwritten(io::Error),
}
