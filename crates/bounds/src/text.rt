//! The text of a certificate, written.
ghost use Rattle.std.specs.Prelude.{◌≡◌, ◌++◌, [], Ok, IfOk, OnOk};
ghost use Rattle.std.specs.List.{All};
ghost use Rattle.refutation.specs.Steps.{NamesRows};
ghost use Rattle.refutation.specs.Writable.{HasShortLines};
ghost use Rattle.bounds.specs.Certificates as texts;

use refutation::{Log, log_text};
use robin_io::put_decimal;
use std::alloc::{AllocError, Global};

/// The text of a certificate: the line that states the bound and, unless it is 0, the log.
///
/// # Errors
/// Only where memory runs out.
pub fn certificate_text(alloc: Global, bound: u64, log: &Log) -> Result<Vec<u8>, AllocError>
    requires { All NamesRows log.now }
    ensures text { IfOk result (λ text. text.items ≡ texts.certificate_text bound log.now) }

    // Where no line passes the limit of a line, and a bound of 0 has no log, the text reads back as the certificate.
    ensures reads_back { IfOk result (λ text. HasShortLines log.now → (bound ≡ 0 → log.now ≡ [])
        → texts.certificate_of text.items ≡ Ok (record { bound = bound; log = log.now })) }
{
    let mut text = Vec::new(alloc);
    put_bound(&mut text, bound)?;
    if bound > 0 {
        text.extend_from_slice(&log_text(alloc, log)?)?;
    }
    Ok(text)
}

/// Adds the line that states a bound.
fn put_bound(text: &mut Vec<u8>, bound: u64) -> Result<(), AllocError>
    ensures { OnOk result (text.new.items ≡ text.old.items ++ texts.bound_line bound) }
{
    text.extend_from_slice(b"bound ")?;
    put_decimal(text, u128::from(bound))?;
    text.extend_from_slice(b"\n")
}
