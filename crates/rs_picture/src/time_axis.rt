//! Where times lie on an axis, and which round times are marked.

ghost use Rattle.std.specs.Prelude.{◌≡◌, ◌+◌, ◌*◌, ◌-◌, ◌<◌, ◌≤◌, ◌∷◌, [], min};
ghost use Rattle.rs_picture.specs.Bars.{IsProportional};
ghost use Rattle.rs_picture.specs.Marks.{place_of};
ghost use Rattle.rs_picture.specs.Ticks.{most_ticks, steps, step_for, IsFirstTick};

use crate::bars::bar_length;

// Fewer steps than these lie on an axis.
pub(crate) const MOST_TICKS: u32 = 8;

// The steps between marks, in seconds: 1, 2, 5, 10, 15 and 30 seconds and minutes, and 1, 2, 3, 6 and 12 hours. Then 1,
// 2, 7, 14, 30 and 90 days, and 1, 2 and 5 years of 365 days.
const STEPS: [u32; 26] = [
    1,
    2,
    5,
    10,
    15,
    30,
    60,
    120,
    300,
    600,
    900,
    1800,
    3600,
    7200,
    10_800,
    21_600,
    43_200,
    86_400,
    172_800,
    604_800,
    1_209_600,
    2_592_000,
    7_776_000,
    31_536_000,
    63_072_000,
    157_680_000,
];

// The longest one, 20 years: it is long enough for all times of 32 bits.
const LONGEST: u32 = 630_720_000;

/// An axis of time. Times are in seconds since 1970.
#[derive(Clone, Copy, Debug, PartialEq, Eq)]
pub struct TimeAxis {
    /// The time at its beginning.
    pub first: u32,
    /// The time at its end.
    pub last: u32,
    /// How long it is, in pixels.
    pub width: u32,
}

impl TimeAxis {
    /// Where a time lies, in pixels from the beginning: at the part of the width that its part of the time is, within
    /// a pixel. A time before the first lies at the beginning, one behind the last at the end.
    pub fn place(&self, time: u32) -> u32
        ensures value { result ≡ place_of self.now time }
        ensures within { result ≤ self.now.width }
        ensures proportional { self.now.first ≤ time → time ≤ self.now.last → self.now.first < self.now.last
            → IsProportional (time - self.now.first) (self.now.last - self.now.first) self.now.width result }
    {
        let past = time.min(self.last).saturating_sub(self.first);
        let span = self.last.saturating_sub(self.first);
        bar_length(u64::from(past), u64::from(span), self.width)
    }

    /// Where the time between two others lies: from the place of the first one to that of the second one. It is seen,
    /// even if both are one: then it has a pixel.
    pub fn stretch(&self, from: u32, to: u32) -> Stretch
        ensures between { place_of self.now from < place_of self.now to
            → (result.begin ≡ place_of self.now from) × (result.begin + result.length ≡ place_of self.now to) }
        ensures pixel { place_of self.now to ≤ place_of self.now from → 0 < self.now.width
            → (result.begin ≡ min (place_of self.now to) (self.now.width - 1)) × (result.length ≡ 1) }
        ensures inside { result.begin + result.length ≤ self.now.width }
        ensures seen { 0 < self.now.width → 0 < result.length }
    {
        let end = self.place(to);
        let begin = self.place(from).min(end).min(self.width.saturating_sub(1));
        let length = end.saturating_sub(begin).max(1).min(self.width);
        Stretch { begin, length }
    }
}

/// A part of an axis, in pixels.
#[derive(Clone, Copy, Debug, PartialEq, Eq, Drop)]
pub struct Stretch {
    /// Where it begins.
    pub begin: u32,
    /// How long it is.
    pub length: u32,
}

/// How many seconds lie between two marks of an axis of so many seconds: the least round step of which less than
/// eight lie on it.
pub fn tick_step(span: u32) -> u32
    ensures least { result ≡ step_for span steps }
    ensures few { span < most_ticks * result }
{
    step_in(span, &STEPS)
}

// The first of some steps of which less than eight lie on an axis of so many seconds.
fn step_in(span: u32, steps: &[u32]) -> u32
    ensures first { result ≡ step_for span steps.now }
    ensures few { span < most_ticks * result }
{
    for step in steps {
        if u64::from(span) < u64::from(MOST_TICKS) * u64::from(*step) {
            return *step;
        }
    }
    LONGEST
}

/// The first mark of an axis that begins at a time: the least multiple of the step that is no earlier.
pub fn first_tick(first: u32, step: u32) -> u64
    requires { 0 < step }
    ensures { IsFirstTick first step result }
{
    u64::from(first).div_ceil(u64::from(step)) * u64::from(step)
}
