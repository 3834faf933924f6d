//! Certificates.
use refutation::Log;

/// What a certificate states: that no schedule that a league accepts has an objective below the bound, which the log is
/// to prove. At a bound of 0 nothing is to be proved, and the log is empty.
#[derive(Drop)]
pub struct Certificate {
    /// In units of cost, from 0.
    pub bound: u64,
    /// Over the bound rows of one less; empty at 0.
    pub log: Log,
}
