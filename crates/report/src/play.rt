// The records of a file, applied to a bank one after another up to the first refusal. The bank is changed through the
// group's steps and the settler alone.
ghost use Rattle.std.specs.Prelude.{◌≡◌, ◌+◌, ◌≤◌, ◌<◌, ◌^◌, length};
ghost use Rattle.numbers.specs.Numbers.{given};
ghost use Rattle.file.specs.Promises.{asked_of, Apart};
ghost use Rattle.report.specs.Bench.{state, applied, play_from};

use bank::{Bank, Room};
use file::Asks;
use numbers::Refusal;

// The bank, and the steps applied to it so far.
#[derive(Drop)]
pub(crate) struct Player {
    pub(crate) bank: [u16; Bank::WORDS],
    pub(crate) steps: u32,
}

impl Player {
    // What one record asks for.
    #[tactic(auto, unfolding(crate::specs::Bench::applied))]
    fn apply(&mut self, asks: Asks) -> Result<(), Refusal>
        requires room { self.old.steps + 65535 < 2 ^ 32 }
        requires apart { Apart asks }
        ensures bank_after { state self.new.steps (given result) self.new.bank
            ≡ applied self.old.steps self.old.bank (asked_of asks) }
        ensures steps_bound { self.new.steps ≤ self.old.steps + 65535 }
    {
        match asks {
            Asks::Settle { budget } => {
                let settled = settler::settle::<Bank>(&mut self.bank, budget)?;
                self.steps += u32::from(settled.steps);
            }
            Asks::Step(asked) => {
                group::step::<Bank>(&mut self.bank, asked)?;
                self.steps += 1;
            }
        }
        Ok(())
    }

    // All records after the open. No iterator: the next place stands in the record, and a bad one ends it by `?`.
    #[tactic(auto, using(crate::proofs::Playing::plays_end, crate::proofs::Playing::plays_bad))]
    pub(crate) fn play(&mut self, s: &[u8]) -> Result<(), Refusal>
        requires within { (8 ≤ length s.now) × (length s.now ≤ 65536) }
        requires anew { self.old.steps ≡ 0 }
        ensures { state self.new.steps (given result) self.new.bank
            ≡ play_from (length s.now) s.now 8 0 self.old.bank }
    {
        let mut i = 8;
        while let Some(record) = file::find_at(s, i)? {
            self.apply(record.asks)?;
            i = record.next;
        }
        Ok(())
    }
}
