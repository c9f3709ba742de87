//! A job table without the routes of its jobs.
ghost use Rattle.std.specs.Prelude.{◌≡◌, IfOk};
ghost use Rattle.tf_routes.specs.Unrouted.{is_of_route, place_after, unrouted};

use std::alloc::{AllocError, Allocator};
use tf_words::word::is_white;

/// Where a byte of a table stands.
#[derive(Clone, Copy)]
pub(crate) enum Place {
    /// Between words.
    Gap,
    /// At the `p` with which a word begins.
    Key,
    /// In a word that does not begin with `p=`.
    Other,
    /// In a word that begins with `p=`, before its first `@`.
    Times,
    /// In such a word, from its first `@` on.
    Route,
}

impl Place {
    // The place of the next byte, which is this one.
    fn after(self, byte: u8) -> Place
        ensures { result ≡ place_after self byte }
    {
        if is_white(byte) {
            return Place::Gap;
        }
        match self {
            Place::Gap => {
                if byte == b'p' {
                    Place::Key
                } else {
                    Place::Other
                }
            }
            Place::Key => {
                if byte == b'=' {
                    Place::Times
                } else {
                    Place::Other
                }
            }
            Place::Other => Place::Other,
            Place::Times => {
                if byte == b'@' {
                    Place::Route
                } else {
                    Place::Times
                }
            }
            Place::Route => Place::Route,
        }
    }

    fn is_of_route(self) -> bool
        ensures { result ≡ is_of_route self }
    {
        matches!(self, Place::Route)
    }
}

/// The bytes of a table without those of each word that begins with `p=` from its first `@` on.
pub(crate) fn unrouted<A: Allocator>(alloc: A, text: &[u8]) -> Result<Vec<u8, A>, AllocError>
    ensures { IfOk result (λ bytes. bytes.items ≡ unrouted text.now) }
{
    let mut bytes = Vec::with_capacity(alloc, text.len())?;
    let mut place = Place::Gap;
    for byte in text {
        place = place.after(*byte);
        if !place.is_of_route() {
            bytes.push(*byte)?;
        }
    }
    Ok(bytes)
}
