//! What a picture shows, and how large it is.
ghost use Rattle.std.specs.Prelude.{◌≡◌};
ghost use Rattle.tf_picture.specs.Strips.{width_of, height_of, scaled, unit_of, whole};

use crate::frame::WIDTH;

/// The window of time that a picture shows, its strips, and its size.
#[derive(Clone, Copy, Debug, PartialEq, Eq)]
pub struct View {
    /// The first time shown.
    pub from: u64,
    /// The last time shown. Without it, the last stop of the schedule.
    pub to: Option<u64>,
    /// The number of time steps in a strip. Without it there is one strip.
    pub fold: Option<u64>,
    pub size: Size,
}

impl View {
    /// The whole schedule in one strip, in the natural size.
    pub fn whole() -> View
        ensures { result ≡ whole }
    {
        View {
            from: 0,
            to: None,
            fold: None,
            size: Size::Natural,
        }
    }
}

/// How large a picture is. What is drawn is scaled into it.
#[derive(Clone, Copy, Debug, PartialEq, Eq)]
pub enum Size {
    /// 1,200 pixels wide, and as high as its rows are.
    Natural,
    /// This width in pixels, and a height in proportion.
    Width(u32),
    /// This height in pixels, and a width in proportion.
    Height(u32),
    /// This width and height in pixels.
    Pixels(u32, u32),
    /// This width and height in millimetres.
    Millimetres(u32, u32),
}

impl Size {
    // How wide a picture is that is so many hundredths of a pixel high.
    pub(crate) fn width(self, height: u64) -> u64
        ensures { result ≡ width_of self height }
    {
        match self {
            Size::Natural => WIDTH / 100,
            Size::Width(width) => u64::from(width),
            Size::Height(high) => scaled(WIDTH, high, height),
            Size::Pixels(width, _) => u64::from(width),
            Size::Millimetres(width, _) => u64::from(width),
        }
    }

    // How high it is then.
    pub(crate) fn height(self, height: u64) -> u64
        ensures { result ≡ height_of self height }
    {
        match self {
            Size::Natural => height / 100,
            Size::Width(width) => scaled(height, width, WIDTH),
            Size::Height(high) => u64::from(high),
            Size::Pixels(_, high) => u64::from(high),
            Size::Millimetres(_, high) => u64::from(high),
        }
    }

    // What the sides are measured in.
    pub(crate) fn unit(self) -> &'static [u8]
        ensures { result.now ≡ unit_of self }
    {
        match self {
            Size::Millimetres(_, _) => b"mm",
            _ => b"",
        }
    }
}

// A side where another one of length `whole` becomes `part`: 1 to 1,000,000.
fn scaled(side: u64, part: u32, whole: u64) -> u64
    ensures { result ≡ scaled side part whole }
{
    let scaled = u128::from(side) * u128::from(part) / u128::from(whole.max(1));
    scaled.max(1).min(1_000_000) as u64
}
