//! What stands in for standard streams that are closed.

use std::fs;
use std::rt::Files;

/// The file that is there where standard input is open.
pub(crate) const INPUT: &str = "/proc/self/fdinfo/0";

/// The file that is there where standard output is open.
pub(crate) const OUTPUT: &str = "/proc/self/fdinfo/1";

/// The file that is there where standard error is open.
pub(crate) const ERRORS: &str = "/proc/self/fdinfo/2";

/// What can be opened, but neither read nor written: a folder.
const BARRED: &str = "/";

/// Opens a folder in the place of a stream that is closed, and nothing where it is open. Without it the next file that
/// is opened would take the stream's number, and what is meant for the stream would go into the file.
pub(crate) fn stand_in<R: Files>(rt: &R, stream: &str) -> Option<R::File> {
    match fs::open(rt, stream) {
        Ok(_) => None,
        Err(_) => fs::open(rt, BARRED).ok(),
    }
}
