// How much of a buffer is lent: its first n items, or all where it has fewer.

// Kept: `as`, for there is no `From` between `usize` and `u64`, and `try_from` would bring an error that can't come.
pub fn lent<T>(items: &mut [T], n: u64) -> &mut [T] {
    let length = items.len().min(n as usize);
    &mut items[..length]
}
