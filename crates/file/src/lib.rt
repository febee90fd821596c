// The bench's file: where a record stands in its bytes, what it carries and what makes it bad. Reads bytes alone. The
// bytes and a place stay two parameters: `word_at` and `find_at` are promised so (docs/PROMISES.md).
#![tactic(auto)]

ghost use Rattle.std.specs.Prelude.{◌≡◌, ◌+◌, ◌≤◌, ◌<◌, length, get_or};
ghost use Rattle.file.specs.Records.{number_at, record_length, well_cut};
ghost use Rattle.file.specs.Kinds.{record_kind_number, KindPromise};
ghost use Rattle.file.specs.Promises.{WordPromise, FindPromise, BegunPromise};

use numbers::{Asked, Kind, Refusal};

// The kinds of record that are no step, by their numbers in a file.
pub const OPEN: u16 = 16;

pub const SETTLE: u16 = 17;

// The kinds of record.
#[derive(Clone, Copy, Debug, PartialEq, Eq)]
enum RecordKind {
    Step(Kind),
    Open,
    Settle,
}

impl TryFrom<u16> for RecordKind {
    type Error = Refusal;

    ghost try_from_gives = { KindPromise };

    fn try_from(kind: u16) -> Result<RecordKind, Refusal> {
        match kind {
            OPEN => Ok(RecordKind::Open),
            SETTLE => Ok(RecordKind::Settle),
            _ => Ok(RecordKind::Step(Kind::try_from(kind)?)),
        }
    }
}

impl RecordKind {
    // How many bytes follow the length in a record of that kind.
    #[tactic(auto, unfolding(crate::specs::Records::record_length))]
    fn length(self) -> u16
        ensures { result ≡ record_length (record_kind_number self) }
    {
        match self {
            RecordKind::Step(Kind::Broadcast | Kind::Send | Kind::Receive | Kind::Lose) => 8,
            RecordKind::Open | RecordKind::Step(Kind::Deliver | Kind::Detect) => 6,
            RecordKind::Settle | RecordKind::Step(Kind::Crash) => 4,
        }
    }
}

// What a record after the open asks for: a step by its four numbers, 0 where it has none, or a settle.
#[derive(Clone, Copy, Debug, PartialEq, Eq)]
pub enum Asks {
    Step(Asked),
    Settle { budget: u16 },
}

// A record, and the place after it.
#[derive(Clone, Copy, Debug, PartialEq, Eq)]
pub struct Record {
    pub asks: Asks,
    pub next: usize,
}

fn byte_at(s: &[u8], i: usize) -> u8
    ensures { result ≡ get_or s.now i 0 }
{
    s.get(i).copied().unwrap_or(0)
}

// Two bytes, the low one first; 0 past the end.
pub fn word_at(s: &[u8], i: usize) -> u16
    ensures { WordPromise s.now i result }
{
    if s.len() <= i {
        return 0;
    }
    u16::from_le_bytes([byte_at(s, i), byte_at(s, i + 1)])
}

// Whether the record at place i is whole, of even length, at least 4.
fn well_cut(s: &[u8], i: usize) -> bool
    requires { i < length s.now }
    ensures { result ≡ well_cut s.now i }
{
    let left = s.len() - i;
    let n = word_at(s, i);
    2 <= left && usize::from(n) <= left - 2 && n % 2 == 0 && 4 <= n
}

// The k-th number of the record at place i, 0 where the record is too short for it.
fn number_at(s: &[u8], i: usize, k: u16) -> u16
    requires { (i < length s.now) × (k ≤ 3) }
    ensures { result ≡ number_at s.now i k }
{
    if word_at(s, i) < 2 + 2 * k {
        return 0;
    }
    word_at(s, i + 2 + 2 * usize::from(k))
}

// What stands at place i, after the file's first record: the end, a record, or one that is bad.
#[tactic(auto, unfolding(crate::specs::Records::find_at, crate::specs::Records::record_length))]
pub fn find_at(s: &[u8], i: usize) -> Result<Option<Record>, Refusal>
    ensures { FindPromise s.now i result }
{
    if s.len() <= i {
        return Ok(None);
    }
    Refusal::BadRecord.unless(well_cut(s, i))?;
    let number = word_at(s, i + 2);
    let kind = RecordKind::try_from(number)?;
    Refusal::NoStep.unless(kind != RecordKind::Open)?;
    Refusal::BadRecord.unless(word_at(s, i) == kind.length())?;
    let next = i + 2 + usize::from(kind.length());
    let a = number_at(s, i, 1);
    let asks = match kind {
        RecordKind::Settle => Asks::Settle { budget: a },
        _ => Asks::Step(Asked {
            kind: number,
            a,
            b: number_at(s, i, 2),
            c: number_at(s, i, 3),
        }),
    };
    Ok(Some(Record { asks, next }))
}

// Whether a file is short enough and begun by a whole open.
#[tactic(auto, unfolding(crate::specs::Records::begun))]
pub fn begun(s: &[u8]) -> bool
    ensures { BegunPromise s.now result }
{
    let opens = matches!(RecordKind::try_from(word_at(s, 2)), Ok(RecordKind::Open));
    s.len() <= 65536 && 8 <= s.len() && word_at(s, 0) == 6 && opens
}
