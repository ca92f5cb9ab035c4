// Numbers into bytes and words. What has no room is left out, and the place behind it is past the end.
use values::round;

// Bytes from a place on, and the place behind them.
pub(crate) fn put(bytes: &mut [u8], at: usize, n: &[u8]) -> usize {
    if let Some(rest) = bytes.get_mut(at..) {
        if let Some(field) = rest.get_mut(..n.len()) {
            field.copy_from_slice(n);
        }
    }
    at.saturating_add(n.len())
}

// n as a signed number, a word of the store.
pub(crate) fn put_slot(store: &mut [i32], at: usize, n: u32) -> usize {
    if let Some(slot) = store.get_mut(at) {
        *slot = round(2147483648, true, n);
    }
    at.saturating_add(1)
}
