//! The signals that wait for the program, as Linux tells them in a file. A signal waits only where it was blocked when
//! the program was started.

use std::fs;
use std::io::{self, Read};
use std::rt::Files;

/// The bits of SIGHUP, SIGINT and SIGTERM in a mask of signals.
const ASKED: u64 = 0x4003;

/// The file that tells of the process that reads it.
const STATUS: &str = "/proc/self/status";

/// The front of the line with the mask of the blocked signals.
const BLOCKED: &[u8] = b"SigBlk:";

/// The front of the line with the mask of the signals that wait for the process.
const WAITING: &[u8] = b"ShdPnd:";

/// Whether one of the three signals would wait.
pub(crate) fn is_blocked<R: Files>(rt: &R) -> bool {
    asked_in(rt, BLOCKED).unwrap_or(false)
}

/// Whether one of the three signals waits.
pub(crate) fn is_waiting<R: Files>(rt: &R) -> bool {
    asked_in(rt, WAITING).unwrap_or(false)
}

/// Whether one of the three signals is in the mask of a line of the file.
fn asked_in<R: Files>(rt: &R, front: &[u8]) -> io::Result<bool> {
    let mut file = fs::open(rt, STATUS)?;
    let mut room = [0u8; 4096];
    let count = file.read(&mut room)?;
    Ok(mask_behind(&room[..count], front) & ASKED != 0)
}

/// The mask of the line that begins so: 0 where there is none.
fn mask_behind(text: &[u8], front: &[u8]) -> u64 {
    for line in text.split(|byte| *byte == b'\n') {
        if let Some(digits) = line.strip_prefix(front) {
            return mask_of(digits);
        }
    }
    0
}

/// The number that digits of base 16 write, its last 64 bits; what isn't a digit is passed over.
fn mask_of(digits: &[u8]) -> u64 {
    let mut mask = 0u64;
    for byte in digits {
        if let Some(value) = digit_of(*byte) {
            mask = mask.wrapping_mul(16).wrapping_add(value);
        }
    }
    mask
}

/// The value of a digit of base 16.
fn digit_of(byte: u8) -> Option<u64> {
    match byte {
        b'0'..=b'9' => Some(u64::from(byte - b'0')),
        b'a'..=b'f' => Some(u64::from(byte - b'a') + 10),
        _ => None,
    }
}
