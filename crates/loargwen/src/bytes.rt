// A bank of bytes and a bank of words, each made from the other. Words cross as two bytes, the low one first.
ghost use Rattle.std.specs.Prelude.{◌≡◌, ◌*◌, length, cond, Some, None};
ghost use Rattle.loargwen.specs.Bytes.{words_of, bytes_of};
ghost use Rattle.loargwen.specs.Face.{is_bank};
ghost use Rattle.loargwen.specs.OnWords.{OnWords};

use bank::{Bank, Room};
use numbers::Refusal;
use std::array;

// How many bytes a bank has; by the promise of `load` it is twice the layout's own number of words.
const BYTES: usize = 4488;

// The words of a bank's bytes; of another length no words.
pub(crate) fn load(bytes: &[u8]) -> Option<[u16; Bank::WORDS]>
    ensures { result ≡ cond (is_bank bytes.now) (Some (words_of bytes.now)) None }
{
    if bytes.len() != BYTES {
        return None;
    }
    Some(words(bytes))
}

// Of any number of words: a proof about exactly 2,244 would write each of them out. By index, here and below: of what
// stands in the chunks of `as_chunks`, or is written through an adapter of `iter_mut`, the check found no proof.
fn words<const N: usize>(bytes: &[u8]) -> [u16; N]
    requires { length bytes.now ≡ 2 * N }
    ensures { result ≡ words_of bytes.now }
{
    array::from_fn(|k| u16::from_le_bytes([bytes[2 * k], bytes[2 * k + 1]]))
}

fn store(words: &[u16], bytes: &mut [u8])
    requires { length bytes.old ≡ 2 * length words.now }
    ensures { bytes.new ≡ bytes_of words.now }
{
    for (k, word) in words.iter().enumerate() {
        bytes[2 * k..2 * k + 2].copy_from_slice(&word.to_le_bytes());
    }
}

// Calls on the words of a bank's bytes, and writes them back where it refuses nothing. Written out: of a `?` at a T
// that it knows nothing of, the check finds no proof.
pub(crate) fn on_words<T, F: FnOnce(&mut [u16; Bank::WORDS]) -> Result<T, Refusal>>(
    bank: &mut [u8],
    call: F,
) -> Result<T, Refusal>
    requires { F.IsAlwaysCallable call }
    ensures { OnWords F.FnOnce call bank.old result bank.new }
{
    let Some(mut words) = load(bank) else {
        return Err(Refusal::Unfit);
    };
    match call(&mut words) {
        Ok(answer) => {
            store(&words, bank);
            Ok(answer)
        }
        Err(refusal) => Err(refusal),
    }
}
