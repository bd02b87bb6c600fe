// Parts of areas and of files.

// The first n of some items; all of them where there are fewer.
pub fn front<T>(items: &[T], n: usize) -> &[T] {
    items.get(..n).unwrap_or(items)
}

// The same, lent on.
pub fn lent<T>(items: &mut [T], n: usize) -> &mut [T] {
    let n = n.min(items.len());
    &mut items[..n]
}
