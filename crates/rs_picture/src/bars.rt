//! How long a bar is.

ghost use Rattle.std.specs.Prelude.{◌≡◌, ◌<◌, ◌≤◌};
ghost use Rattle.rs_picture.specs.Bars.{IsProportional, bar_of};

/// How long the bar of a number is, in pixels, where that of the greatest number has the whole width. It is at most a
/// pixel longer than the exact part of the width, and never shorter: so a number above 0 is seen. Where no number is
/// above 0, no bar is.
pub fn bar_length(number: u64, most: u64, width: u32) -> u32
    ensures value { result ≡ bar_of number most width }
    ensures within { result ≤ width }
    ensures proportional { number ≤ most → 0 < most → IsProportional number most width result }
    ensures none { number ≡ 0 → result ≡ 0 }
{
    if most == 0 {
        return 0;
    }
    let (number, most) = (u128::from(number.min(most)), u128::from(most));
    (number * u128::from(width)).div_ceil(most) as u32
}
