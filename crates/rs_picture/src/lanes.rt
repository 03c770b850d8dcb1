//! Where lanes lie, one below the other.

ghost use Rattle.std.specs.Prelude.{◌≡◌, ◌+◌, ◌*◌, ◌<◌, ◌≤◌};
ghost use Rattle.rs_picture.specs.Lanes.{height_of, top_of};
ghost use Rattle.rs_picture.specs.declared.lanes.TheConstants.{MOST_LANES, MOST_PIXELS};

/// How many lanes a picture has at most.
pub const MOST_LANES: u32 = 4096;

/// How high a lane is at most, and the gap behind it, in pixels.
pub const MOST_PIXELS: u32 = 1024;

/// Lanes of one height, each with a gap of one height behind it, in pixels.
#[derive(Clone, Copy, Debug, PartialEq, Eq)]
pub struct Lanes {
    /// How many there are.
    pub count: u32,
    /// How high each is.
    pub height: u32,
    /// How high the gap is.
    pub gap: u32,
    ghost counted: { count ≤ MOST_LANES },
    ghost high: { height ≤ MOST_PIXELS },
    ghost apart: { gap ≤ MOST_PIXELS },
}

impl Lanes {
    /// Where a lane begins. It ends within the picture.
    pub fn top(&self, lane: u32) -> u32
        requires { lane < self.now.count }
        ensures value { result ≡ top_of self.now.height self.now.gap lane }
        ensures inside { result + self.now.height ≤ height_of self.now.count self.now.height self.now.gap }
    {
        lane * (self.height + self.gap)
    }

    /// How high the picture is.
    pub fn picture_height(&self) -> u32
        ensures { result ≡ height_of self.now.count self.now.height self.now.gap }
    {
        self.count * (self.height + self.gap)
    }
}

/// Lanes do not overlap: between the end of one and the beginning of a later one lies the gap at least.
pub fn lanes_lie_apart(height: u32, gap: u32, lane: u32, later: u32)
    requires { lane < later }
    ensures { top_of height gap lane + height + gap ≤ top_of height gap later }
{}
