// What the chooser is asked for.
ghost use Rattle.std.specs.Prelude.{◌≤◌};

// A number or an instant, exactly: above / 10^scale, or above / 86,400,000 of a day. The sign stands apart. (A flag: the arms
// of an enum would hold the same number, and differ only in what it is divided by.)
#[derive(Clone, Copy)]
pub struct Sought {
    pub negative: bool,
    pub instant: bool,
    pub above: u64,
    pub scale: u32,
    pub ghost scaled: { scale ≤ 15 },
}
