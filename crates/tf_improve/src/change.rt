//! Changes of a list: an item is inserted elsewhere, or two are exchanged.

/// The places from the first to the last, both included.
#[derive(Clone, Copy, Debug)]
pub(crate) struct Window {
    pub(crate) first: usize,
    pub(crate) last: usize,
}

/// A change of a list.
#[derive(Clone, Copy, Debug)]
pub(crate) struct Change {
    /// Whether the items of both places are exchanged, or the one moves to the place of the other.
    pub(crate) is_exchange: bool,
    pub(crate) from: usize,
    pub(crate) to: usize,
}

impl Change {
    /// The places that it changes.
    pub(crate) fn window(self) -> Window {
        Window {
            first: self.from.min(self.to),
            last: self.from.max(self.to),
        }
    }

    /// The change that takes it back.
    pub(crate) fn reversed(self) -> Change {
        Change {
            is_exchange: self.is_exchange,
            from: self.to,
            to: self.from,
        }
    }

    /// Changes a list.
    pub(crate) fn apply(self, list: &mut [u32]) {
        let window = self.window();
        if let Some(part) = list.get_mut(window.first..window.last.wrapping_add(1)) {
            if part.is_empty() {
                return;
            }
            if self.is_exchange {
                let last = part.len() - 1;
                part.swap(0, last);
            } else if self.from < self.to {
                part.rotate_left(1);
            } else {
                part.rotate_right(1);
            }
        }
    }
}
