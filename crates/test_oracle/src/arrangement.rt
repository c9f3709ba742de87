//! All arrangements of a row, and all fillings of cells, one after the other.
ghost use Rattle.std.specs.Prelude.{◌≤◌, length};

use crate::timetable::Cell;
use tf_model::ids::JobId;

// Where the longest end begins in which no part is below the next.
fn end_without_rise<T: Ord>(row: &[T]) -> usize
    ensures { result ≤ length row.now }
{
    let mut start = 0;
    for place in 1..row.len() {
        if row[place - 1] < row[place] {
            start = place;
        }
    }
    start.min(row.len())
}

// The last place whose part is above the one at this place, or this place where there is none.
fn last_above<T: Ord>(row: &[T], pivot: usize) -> usize {
    let mut place = pivot;
    for at in pivot..row.len() {
        if row[at] > row[pivot] {
            place = at;
        }
    }
    place
}

/// Turns the row into its next arrangement in lexicographic order. The last arrangement turns into
/// the first, and then the answer is `false`.
pub fn advance<T: Ord>(row: &mut [T]) -> bool {
    let start = end_without_rise(row);
    if start == 0 {
        row.reverse();
        return false;
    }
    let pivot = start - 1;
    let place = last_above(row, pivot);
    if pivot < row.len() && place < row.len() {
        row.swap(pivot, place);
    }
    if let Some(end) = row.get_mut(start..) {
        end.reverse();
    }
    true
}

/// Turns the cells into their next filling with jobs up to this number and idle time. The last
/// filling turns into the first, which is idle throughout, and then the answer is `false`.
pub fn fill_next(cells: &mut [Cell], most: usize) -> bool {
    for cell in cells.iter_mut() {
        let number = match *cell {
            None => 0,
            Some(job) => job.get(),
        };
        if (number as usize) < most {
            *cell = JobId::new(number.saturating_add(1));
            return true;
        }
        *cell = None;
    }
    false
}
