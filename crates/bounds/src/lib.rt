//! Least objectives: whether a schedule can be bettered, and whether any costs less than a number; and the text of a
//! certificate that no objective is below a number: the number, and the log that proves it.
//!
//! `specs/Proofs.antt` says what each answer promises, and `specs/Certificates.antt` what the text of a certificate
//! says and which is written.
#![tactic(auto)]

mod certificate;
mod proved;
mod prover;
mod reading;
mod text;

pub use certificate::Certificate;
pub use proved::Proved;
pub use prover::{Counted, prove, prove_bound};
pub use reading::read_certificate;
pub use text::certificate_text;
