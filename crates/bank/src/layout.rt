// The two sizes of bank, and where each word of either stands. Nothing else knows the numbers of a size, but the C face
// how many bytes a bank has.
ghost use Rattle.std.specs.Prelude.{◌≡◌, ◌+◌, ℕ, Bool, true, false};
ghost use Rattle.bank.specs.Place.{view, log_length, log, acked, unsent, in_flight};
ghost use Rattle.bank.specs.Layout;
ghost use Rattle.bank.specs.Layout.{paper, rack, layout, record_size, record_at, offset, address};
ghost use Rattle.bank.specs.Rooms.{Laid, laid_out};

// A size of bank, as a type: whoever works on both takes it as a parameter. Each number stands twice, for the code and
// for clauses, which read a constant by its ghost; the check holds the two to be equal.
pub trait Room {
    // By which the definitions tell the two sizes apart.
    ghost room: { Bool };

    ghost CONTROLLERS: { ℕ };

    ghost MESSAGES: { ℕ };

    ghost WORDS: { ℕ };

    ghost LENGTHS: { ℕ };

    ghost LOGS: { ℕ };

    ghost LOG: { ℕ };

    ghost RECORDS: { ℕ };

    ghost RECORD: { ℕ };

    ghost UNSENT: { ℕ };

    ghost IN_FLIGHT: { ℕ };

    const CONTROLLERS: u16;

    const MESSAGES: u16;

    const WORDS: usize;

    const LENGTHS: usize;

    const LOGS: usize;

    const LOG: usize;

    const RECORDS: usize;

    const RECORD: usize;

    const UNSENT: usize;

    const IN_FLIGHT: usize;

    // Each number is the layout's.
    ghost laid: { Laid (layout room) CONTROLLERS MESSAGES WORDS LENGTHS LOGS LOG RECORDS RECORD UNSENT IN_FLIGHT };
}

// The paper's bank: a run of words that the caller lends. Where both sizes are alike, the numbers are its own.
#[derive(Clone, Copy)]
pub struct Bank {}

impl Bank {
    pub const N: usize = 0;

    pub const MODE: usize = 1;

    pub const COUNT: usize = 2;

    pub const UP: usize = 3;

    pub const VIEWS: usize = 4;

    pub const SENDER: usize = 0;

    pub const STAMP: usize = 1;

    pub const VALUE: usize = 2;

    pub const HELD: usize = 3;

    pub const DELIVERED: usize = 4;

    pub const ACKED: usize = 5;
}

impl Room for Bank {
    ghost room = { false };

    ghost CONTROLLERS = { 16 };

    ghost MESSAGES = { 32 };

    ghost WORDS = { 2244 };

    ghost LENGTHS = { 20 };

    ghost LOGS = { 36 };

    ghost LOG = { 32 };

    ghost RECORDS = { 548 };

    ghost RECORD = { 53 };

    ghost UNSENT = { 21 };

    ghost IN_FLIGHT = { 37 };

    const CONTROLLERS: u16 = 16;

    const MESSAGES: u16 = 32;

    const WORDS: usize = 2244;

    const LENGTHS: usize = 20;

    const LOGS: usize = 36;

    const LOG: usize = 32;

    const RECORDS: usize = 548;

    const RECORD: usize = 53;

    const UNSENT: usize = 21;

    const IN_FLIGHT: usize = 37;

    ghost laid = { laid_out paper };
}

// The seedling rack's smaller bank.
#[derive(Clone, Copy)]
pub struct Rack {}

impl Room for Rack {
    ghost room = { true };

    ghost CONTROLLERS = { 4 };

    ghost MESSAGES = { 8 };

    ghost WORDS = { 180 };

    ghost LENGTHS = { 8 };

    ghost LOGS = { 12 };

    ghost LOG = { 8 };

    ghost RECORDS = { 44 };

    ghost RECORD = { 17 };

    ghost UNSENT = { 9 };

    ghost IN_FLIGHT = { 13 };

    const CONTROLLERS: u16 = 4;

    const MESSAGES: u16 = 8;

    const WORDS: usize = 180;

    const LENGTHS: usize = 8;

    const LOGS: usize = 12;

    const LOG: usize = 8;

    const RECORDS: usize = 44;

    const RECORD: usize = 17;

    const UNSENT: usize = 9;

    const IN_FLIGHT: usize = 13;

    ghost laid = { laid_out rack };
}

// ---- in the bank

pub fn view_at(i: u16) -> usize
    ensures { result ≡ address paper (view i) }
{
    Bank::VIEWS + usize::from(i)
}

pub fn length_at<R: Room>(i: u16) -> usize
    ensures { result ≡ address (layout R.room) (log_length i) }
{
    R::LENGTHS + usize::from(i)
}

pub fn log_at<R: Room>(i: u16, k: u16) -> usize
    ensures { result ≡ address (layout R.room) (log i k) }
{
    R::LOGS + usize::from(i) * R::LOG + usize::from(k)
}

pub fn record_at<R: Room>(m: u16) -> usize
    ensures { result ≡ record_at (layout R.room) m }
{
    R::RECORDS + usize::from(m) * R::RECORD
}

pub fn record_end<R: Room>(m: u16) -> usize
    ensures { result ≡ record_at (layout R.room) m + record_size (layout R.room) }
{
    record_at::<R>(m) + R::RECORD
}

// ---- in a record

pub fn acked_at(i: u16) -> usize
    ensures { result ≡ offset paper (acked i) }
{
    Bank::ACKED + usize::from(i)
}

pub fn unsent_at<R: Room>(i: u16) -> usize
    ensures { result ≡ offset (layout R.room) (unsent i) }
{
    R::UNSENT + usize::from(i)
}

pub fn flight_at<R: Room>(i: u16) -> usize
    ensures { result ≡ offset (layout R.room) (in_flight i) }
{
    R::IN_FLIGHT + usize::from(i)
}
