// Printing: a name and the number of what a call answered.
use bank::Bank;
use numbers::{Asked, Refusal};
use std::io;
use std::io::Print;

// What refuses the call, or 0.
pub(crate) fn refusal<T: Copy>(
    rt: &impl Print,
    what: &str,
    answer: Result<T, Refusal>,
) -> io::Result<()> {
    println!(rt; "{what} {}", numbers::given(answer.map(|_| ())))
}

// The answer to each step, one after the other.
pub(crate) fn steps(rt: &impl Print, bank: &mut [u16], steps: &[(&str, Asked)]) -> io::Result<()> {
    for &(what, asked) in steps {
        refusal(rt, what, group::step::<Bank>(bank, asked))?;
    }
    Ok(())
}
