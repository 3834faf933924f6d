//! Lists in which nothing stands at a place past their end.

/// Writes what stands at a place, if there is one.
pub(crate) fn set_at<T: Copy>(list: &mut [T], at: usize, value: T) {
    if at < list.len() {
        list[at] = value;
    }
}
