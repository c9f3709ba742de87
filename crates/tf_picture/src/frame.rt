//! Where a picture shows what, in hundredths of a pixel.
ghost use Rattle.std.specs.Prelude.{◌≡◌, ◌≤◌, ◌<◌, ◌^◌, ◌+◌};
ghost use Rattle.tf_picture.specs.Strips.{across, row_height, bar_height, top, shows_time};
ghost use Rattle.tf_picture.specs.Strips.{base, bottom, down, font};

/// How wide the picture is.
pub const WIDTH: u64 = 120_000;

/// Where the first time is.
pub const LEFT: u64 = 7_000;

/// How wide a strip is.
pub const SPAN: u64 = 106_000;

/// Where the rows of the first strip begin.
pub const TOP: u64 = 8_500;

/// What is left below the last row of a strip.
pub const BELOW: u64 = 2_500;

/// What is left above the first row of a further strip.
pub const ABOVE: u64 = 2_500;

/// A strip of a picture: a row for each machine, from one time to another.
#[derive(Clone, Copy)]
pub struct Frame {
    pub machines: u32,
    /// The first time of the strip.
    pub from: u64,
    /// The last time of the strip.
    pub to: u64,
    /// The number of time steps that the whole width stands for.
    pub length: u64,
    /// The strip's number from the top, from 0.
    pub strip: u8,
    /// The last stop of the schedule.
    pub last: u64,
}

impl Frame {
    /// How far to the right a time is. Times before the strip and after it are at its ends.
    pub fn across(&self, time: u64) -> u64
        ensures value { result ≡ across self.now time }
        ensures right { LEFT ≤ result }
        ensures small { result ≤ LEFT + SPAN }
    {
        let steps = u128::from(time.min(self.to).saturating_sub(self.from));
        let length = u128::from(self.length.max(1));
        LEFT + (steps * u128::from(SPAN) / length).min(u128::from(SPAN)) as u64
    }

    /// Whether the time lies in the strip or at an end of it.
    pub fn shows_time(&self, time: u64) -> bool
        ensures { result ≡ shows_time self.now time }
    {
        self.from <= time && time <= self.to
    }

    /// How high a row is.
    pub fn row(&self) -> u64
        ensures value { result ≡ row_height self.now.machines }
        ensures small { result ≤ 4000 }
    {
        row_of(self.machines)
    }

    /// How high a bar is.
    pub fn bar(&self) -> u64
        ensures value { result ≡ bar_height self.now.machines }
        ensures small { result ≤ 4000 }
    {
        self.row() / 5 * 4
    }

    /// Where the rows begin.
    pub fn down(&self) -> u64
        ensures value { result ≡ down self.now }
        ensures small { result < 2 ^ 52 }
    {
        TOP + u64::from(self.strip) * (u64::from(self.machines) * self.row() + ABOVE + BELOW)
    }

    /// Where the bars of a machine begin.
    pub fn top(&self, machine: u32) -> u64
        requires { 0 < machine }
        ensures value { result ≡ top self.now machine }
        ensures small { result < 2 ^ 53 }
    {
        self.down() + u64::from(machine - 1) * self.row() + self.row() / 10
    }

    /// Where the last row ends.
    pub fn bottom(&self) -> u64
        ensures value { result ≡ bottom self.now }
        ensures small { result < 2 ^ 53 }
    {
        self.down() + u64::from(self.machines) * self.row()
    }

    /// Where the strip ends.
    pub fn end(&self) -> u64
        ensures value { result ≡ bottom self.now + 2500 }
        ensures small { result < 2 ^ 54 }
    {
        self.bottom() + BELOW
    }

    /// How large the numbers in the bars are.
    pub fn font(&self) -> u64
        ensures value { result ≡ font self.now.machines }
        ensures small { result ≤ 1300 }
    {
        (self.row() / 10 * 7).min(1_300)
    }

    /// The line on which the numbers of a machine stand.
    pub fn line(&self, machine: u32) -> u64
        requires { 0 < machine }
        ensures { result ≡ base self.now machine }
    {
        self.top(machine) + self.bar() / 2 + self.font() * 9 / 25
    }
}

/// How high a row is, where there are so many machines.
pub fn row_of(machines: u32) -> u64
    ensures value { result ≡ row_height machines }
    ensures small { result ≤ 4000 }
{
    if machines <= 10 {
        4_000
    } else if machines <= 25 {
        2_800
    } else if machines <= 50 {
        2_000
    } else if machines <= 100 {
        1_400
    } else {
        1_000
    }
}
