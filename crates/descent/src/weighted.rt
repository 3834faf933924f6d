//! A rule, with what its deviation costs.

/// A rule, whether it is hard, and what each unit of its deviation costs.
#[derive(Drop)]
pub struct Weighted<R> {
    pub rule: R,
    pub hard: bool,
    pub penalty: u32,
}
