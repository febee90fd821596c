// The groups that the cases begin with. No refusal is looked at here: what is printed of a bank afterwards shows it.
use crate::kinds::broadcast;
use bank::{Bank, Room};
use numbers::{Asked, Mode};

// A bank of n controllers.
pub(crate) fn opened(n: u16, mode: Mode) -> [u16; Bank::WORDS] {
    let mut bank = [0u16; Bank::WORDS];
    let _ = bank::open::<Bank>(&mut bank, n, mode as u16);
    bank
}

// A bank of n controllers in all-ack mode after some steps.
pub(crate) fn after(n: u16, steps: &[Asked]) -> [u16; Bank::WORDS] {
    let mut bank = opened(n, Mode::AllAck);
    for &asked in steps {
        let _ = group::step::<Bank>(&mut bank, asked);
    }
    bank
}

// 16 controllers after some broadcasts: eight controllers take turns.
pub(crate) fn after_broadcasts(times: usize) -> [u16; Bank::WORDS] {
    let mut bank = opened(16, Mode::AllAck);
    let eight = [
        broadcast(0, 0, 1),
        broadcast(1, 95, 2),
        broadcast(2, 96, 3),
        broadcast(3, 191, 4),
        broadcast(13, 192, 5),
        broadcast(14, 65472, 6),
        broadcast(15, 65535, 7),
        broadcast(7, 9600, 8),
    ];
    for &asked in eight.iter().cycle().take(times) {
        let _ = group::step::<Bank>(&mut bank, asked);
    }
    bank
}
