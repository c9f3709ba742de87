//! The strips of a picture, one below the other.
ghost use Rattle.std.specs.Prelude.{◌≡◌, ◌<◌};
ghost use Rattle.tf_picture.specs.Strips.{begin_of, count_of, height, length_of, strip_of};
ghost use Rattle.tf_picture.specs.Strips.{strips_of};

use crate::frame::Frame;
use crate::view::View;

/// The most strips of a picture.
pub const MOST_STRIPS: u64 = 100;

/// What a picture has to show: so many machines, a row each, and a window of time in strips.
#[derive(Clone, Copy)]
pub struct Strips {
    pub machines: u32,
    /// The first time shown.
    pub from: u64,
    /// The last time shown.
    pub to: u64,
    /// The number of time steps in a strip, from 1.
    pub length: u64,
    /// The last stop of the schedule.
    pub last: u64,
}

impl Strips {
    /// What of a schedule with this last stop a view shows.
    pub fn of(view: &View, machines: u32, last: u64) -> Self
        ensures { result ≡ strips_of view.now machines last }
    {
        let from = view.from;
        let to = view.to.unwrap_or(last).max(from);
        Strips {
            machines,
            from,
            to,
            length: length_of(view.fold, to - from),
            last,
        }
    }

    /// How many there are.
    pub fn count(&self) -> u8
        ensures value { result ≡ count_of self.now }
        ensures some { 0 < result }
    {
        let steps = self.to.saturating_sub(self.from);
        steps.div_ceil(self.length.max(1)).min(MOST_STRIPS).max(1) as u8
    }

    /// The strip of this number from 0.
    pub fn strip(&self, number: u8) -> Frame
        ensures { result ≡ strip_of self.now number }
    {
        Frame {
            machines: self.machines,
            from: self.begin(u64::from(number)),
            to: self.begin(u64::from(number) + 1),
            length: self.length,
            strip: number,
            last: self.last,
        }
    }

    // Where the strip of this number from 0 begins.
    fn begin(&self, number: u64) -> u64
        ensures { result ≡ begin_of self.now number }
    {
        let steps = u128::from(number) * u128::from(self.length);
        (u128::from(self.from) + steps).min(u128::from(self.to)) as u64
    }

    /// How high the picture is.
    pub fn height(&self) -> u64
        ensures { result ≡ height self.now }
    {
        self.strip(self.count() - 1).end()
    }
}

// The number of time steps in a strip, where so many time steps are shown: those asked for, or all,
// and more where the strips would be too many.
fn length_of(fold: Option<u64>, steps: u64) -> u64
    ensures { result ≡ length_of fold steps }
{
    fold.unwrap_or(steps)
        .max(steps.div_ceil(MOST_STRIPS))
        .max(1)
}
