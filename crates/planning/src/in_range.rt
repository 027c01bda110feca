// A number that is in range.
ghost use Rattle.std.specs.Prelude.{◌≤◌, ◌<◌, ◌^◌};

use figures::Signed;

// A number in range, its sign apart: at most fifteen digits, and at most fifteen of them behind the point.
#[derive(Clone, Copy)]
pub struct InRange {
    pub signed: Signed,
    pub ghost small: { signed.magnitude < 10 ^ 15 },
    pub ghost scaled: { signed.scale ≤ 15 },
}
