// What the bench prints, and the bench as one function from the bytes of a file to the bytes of its report.
#![tactic(auto)]

mod lines;
mod play;
mod text;

ghost use Rattle.std.specs.Prelude.{◌≤◌};
ghost use Rattle.report.specs.Bench.{BenchPromise, bench_of};
ghost use Rattle.report.specs.Text.{Prints};

use bank::{Bank, Room};
use numbers::Refusal;
use play::Player;
use text::Printer;

// No report is longer: the group 28 bytes, 32 messages 87 each, 16 controllers 376 each, the end 26, with ten digits
// allowed for every number.
pub const MOST: usize = 8854;

// Runs a file and prints the report into a lent buffer, as far as the buffer reaches; answers the report's length.
pub fn bench(input: &[u8], out: &mut [u8]) -> usize
    ensures bench_promise { BenchPromise input.now out.old result out.new }
    ensures upper_bound { result ≤ MOST }
{
    let mut printer = Printer::new(out);
    print_report(&mut printer, input);
    printer.place
}

// The report of a file, from the printer's place on.
#[tactic(auto, unfolding(crate::specs::Bench::bench_of))]
fn print_report(to: &mut Printer, input: &[u8])
    ensures { Prints to.old (bench_of input.now) to.new }
{
    if !file::begun(input) {
        return lines::end_line(to, 0, Err(Refusal::BadRecord));
    }
    let mut player = Player {
        bank: [0; Bank::WORDS],
        steps: 0,
    };
    let n = file::word_at(input, 4);
    let mode = file::word_at(input, 6);
    if let Err(refusal) = bank::open::<Bank>(&mut player.bank, n, mode) {
        return lines::end_line(to, 0, Err(refusal));
    }
    let ended = player.play(input);
    lines::bank_lines(to, &player.bank);
    lines::end_line(to, player.steps, ended);
}
