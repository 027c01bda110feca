// What an item leaves for the next one by the rule for m.
ghost use Rattle.std.specs.Prelude.{◌≡◌, ◌||◌};
ghost use Rattle.date_rows.specs.Runs.{is_nothing, minutes_wait, answered};

// The nearest earlier run. An m of 1 or 2 that nothing before it makes minutes waits for the next run: said to be a month, it is
// wrong before seconds; said to be minutes, it is right before them alone.
#[derive(Clone, Copy, PartialEq)]
pub enum Earlier {
    Nothing,
    Hours,
    Seconds,
    Other,
    MonthWaits,
    MinutesWait,
}

impl Earlier {
    // Whether a run is right behind this one: an m that waits is what it is said to be.
    pub fn answers(self, run: Earlier) -> bool
        ensures { result ≡ answered self run }
    {
        if run == Earlier::Seconds {
            return self != Earlier::MonthWaits;
        }
        self != Earlier::MinutesWait
    }

    // Whether the items may not end with it: no run was met, or minutes wait for one.
    pub fn is_open(self) -> bool
        ensures { result ≡ (is_nothing self || minutes_wait self) }
    {
        matches!(self, Earlier::Nothing | Earlier::MinutesWait)
    }
}
