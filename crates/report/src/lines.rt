// The lines that the bench prints: those of a bank, which they only read, and the last.
ghost use Rattle.numbers.specs.Numbers.{given};
ghost use Rattle.bank.specs.Place;
ghost use Rattle.bank.specs.Layout.{paper, words, up_from};
ghost use Rattle.report.specs.Text.{Prints};
ghost use Rattle.report.specs.Lines;
ghost use Rattle.report.specs.Lines.{group_line, message_head, message_sets, message_line};
ghost use Rattle.report.specs.Lines.{up_or_down, controller_line, bank_lines, end_line};

use crate::text::Printer;
use bank::Bank;
use numbers::Refusal;

// N and mode.
fn group_line(to: &mut Printer, bank: &[u16])
    ensures { Prints to.old (group_line bank.now) to.new }
{
    to.number(b"group ", bank::word(bank, Bank::N));
    to.number(b" ", bank::word(bank, Bank::MODE));
    to.put(b'\n');
}

// Number, sender, stamp and value.
fn message_head(to: &mut Printer, bank: &[u16], m: u16)
    ensures { Prints to.old (message_head bank.now m) to.new }
{
    to.number(b"msg ", m);
    to.number(b" from ", bank::sender::<Bank>(bank, m));
    to.number(b" at ", bank::stamp::<Bank>(bank, m));
    to.number(b" value ", bank::value::<Bank>(bank, m));
}

// Who holds the message and who has delivered it.
fn message_sets(to: &mut Printer, bank: &[u16], m: u16)
    ensures { Prints to.old (message_sets bank.now m) to.new }
{
    to.set(b" held ", bank::held::<Bank>(bank, m));
    to.set(b" delivered ", bank::delivered::<Bank>(bank, m));
    to.put(b'\n');
}

// A message.
fn message_line(to: &mut Printer, bank: &[u16], m: u16)
    ensures { Prints to.old (message_line bank.now m) to.new }
{
    message_head(to, bank, m);
    message_sets(to, bank, m);
}

// The numbers of a log, each after one blank.
fn entries(to: &mut Printer, log: &[u16])
    ensures { Prints to.old (Lines.entries log.now) to.new }
{
    for m in log {
        to.number(b" ", *m);
    }
}

fn up_or_down(to: &mut Printer, up: bool)
    ensures { Prints to.old (up_or_down up) to.new }
{
    if up {
        to.put_all(b" up log");
    } else {
        to.put_all(b" down log");
    }
}

fn controller_line(to: &mut Printer, bank: &[u16], i: u16)
    ensures { Prints to.old (controller_line bank.now i) to.new }
{
    to.number(b"ctl ", i);
    up_or_down(to, sets::has(bank::word(bank, Bank::UP), i));
    entries(to, lists::log::<Bank>(bank, i));
    to.put(b'\n');
}

// A line for each message.
fn message_lines(to: &mut Printer, bank: &[u16])
    ensures { Prints to.old
        (Lines.lines (message_line bank.now) (up_from 0 (words paper bank.now Place.count)))
        to.new }
{
    for m in 0..bank::word(bank, Bank::COUNT) {
        message_line(to, bank, m);
    }
}

// A line for each controller. Like the messages', but for the bound and the line: no plainer with both as parameters.
fn controller_lines(to: &mut Printer, bank: &[u16])
    ensures { Prints to.old
        (Lines.lines (controller_line bank.now) (up_from 0 (words paper bank.now Place.N)))
        to.new }
{
    for i in 0..bank::word(bank, Bank::N) {
        controller_line(to, bank, i);
    }
}

// All that is printed of a bank.
#[tactic(auto, unfolding(crate::specs::Lines::bank_lines))]
pub(crate) fn bank_lines(to: &mut Printer, bank: &[u16])
    ensures { Prints to.old (bank_lines bank.now) to.new }
{
    group_line(to, bank);
    message_lines(to, bank);
    controller_lines(to, bank);
}

// The steps applied, and the refusal after them.
pub(crate) fn end_line(to: &mut Printer, steps: u32, ended: Result<(), Refusal>)
    ensures { Prints to.old (end_line steps (given ended)) to.new }
{
    to.put_all(b"end ");
    to.decimal(steps);
    to.number(b" ", numbers::given(ended));
    to.put(b'\n');
}
