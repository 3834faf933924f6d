//! Why a file can't be replaced, in words for a person.

use std::io;

/// Why a new file can't be made beside a file, can't be written, or can't take its place.
pub(crate) fn reason_of(error: &io::Error) -> &'static str {
    match error.kind() {
        io::ErrorKind::NotFound => "there is no such folder",
        io::ErrorKind::PermissionDenied => "its folder may not be written",
        io::ErrorKind::ReadOnlyFilesystem => "its disk may not be written",
        io::ErrorKind::NotADirectory => "its path leads through what is no folder",
        io::ErrorKind::IsADirectory => "it is a folder",
        io::ErrorKind::InvalidFilename => "its name is too long",
        io::ErrorKind::StorageFull | io::ErrorKind::QuotaExceeded => "the disk is full",
        io::ErrorKind::FileTooLarge => "the text is too long for a file",
        io::ErrorKind::OutOfMemory => NO_MEMORY,
        _ => "the system refuses it",
    }
}

/// What is said where memory runs out.
pub(crate) const NO_MEMORY: &str = "memory ran out";
