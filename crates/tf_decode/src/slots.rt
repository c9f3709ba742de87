//! Entries of tables at places that may lie beyond their ends.

/// The entry at a place, 0 beyond the end.
#[inline(always)]
pub fn number_at(list: &[u64], place: usize) -> u64 {
    list.get(place).copied().unwrap_or(0)
}

/// The item at a place, one that is nowhere beyond the end.
#[inline(always)]
pub fn item_at(list: &[u32], place: usize) -> usize {
    list.get(place).copied().unwrap_or(u32::MAX) as usize
}

/// Writes an entry, and nothing beyond the end.
#[inline(always)]
pub fn set_number(list: &mut [u64], place: usize, number: u64) {
    if let Some(entry) = list.get_mut(place) {
        *entry = number;
    }
}

/// Writes an item, and nothing beyond the end.
#[inline(always)]
pub fn set_item(list: &mut [u32], place: usize, item: u32) {
    if let Some(entry) = list.get_mut(place) {
        *entry = item;
    }
}
