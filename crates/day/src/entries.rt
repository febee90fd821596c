// A tally by value: it begins empty and takes one log entry at a time. Reads no bank.
ghost use Rattle.std.specs.Prelude.{◌≡◌};
ghost use Rattle.day.specs.Tallies.{add_entry, empty};

// How many entries of a log are a day's, and the sum of their values.
#[derive(Clone, Copy, Debug, Default, PartialEq, Eq)]
pub struct Tally {
    pub count: u16,
    pub sum: u32,
}

impl Tally {
    // The last day: it ends at stamp 65,535.
    pub const LAST_DAY: u16 = 682;

    // The default, by the name that the scope paper has for it and docs/PROMISES.md promises.
    pub fn fresh() -> Tally
        ensures { result ≡ empty }
    {
        Tally::default()
    }

    // One log entry more.
    #[tactic(auto, unfolding(crate::specs::Days::day_of))]
    pub fn add_entry(self, day: u16, stamp: u16, value: u16) -> Tally
        ensures { result ≡ add_entry day self stamp value }
    {
        if stamp / 96 != day {
            return self;
        }
        Tally {
            count: self.count.saturating_add(1),
            sum: self.sum.saturating_add(u32::from(value)),
        }
    }
}
