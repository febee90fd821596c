// A u16 as a set of controllers. Every function takes all inputs; what each computes is in specs/Set.antt.
#![tactic(auto)]

ghost use Rattle.std.specs.Prelude.{◌≡◌, min};
ghost use Rattle.sets.specs.Set;

// Whether controller i is a member.
#[tactic(auto, using(crate::proofs::Words::has_none_above), unfolding(crate::specs::Set::has))]
pub fn has(w: u16, i: u16) -> bool
    ensures { result ≡ Set.has w i }
{
    i < 16 && (w >> i) % 2 == 1
}

// Bit i alone, and no bit where a word has none.
#[tactic(auto, using(crate::proofs::Words::checked_bit))]
fn bit(i: u16) -> u16
    ensures { result ≡ Set.join 0 i }
{
    1u16.checked_shl(u32::from(i)).unwrap_or(0)
}

// The set with controller i, as far as a word has a bit for it.
pub fn join(w: u16, i: u16) -> u16
    ensures { result ≡ Set.join w i }
{
    w | bit(i)
}

// The set without controller i.
#[tactic(auto, using(crate::proofs::Words::and_off, crate::proofs::Words::less_join))]
pub fn without(w: u16, i: u16) -> u16
    ensures { result ≡ Set.without w i }
{
    w & !bit(i)
}

// All controllers below n.
#[tactic(auto, using(crate::proofs::Words::shl_one), unfolding(crate::specs::Set::all_below))]
pub fn all_below(n: u16) -> u16
    ensures { result ≡ Set.all_below (min n 16) }
{
    if n < 16 { (1 << n) - 1 } else { u16::MAX }
}

// The members below n alone.
pub fn cut(w: u16, n: u16) -> u16
    ensures { result ≡ Set.cut w n }
{
    w & all_below(n)
}

// The set with all controllers below n; members of n and above stay.
pub fn with_all(w: u16, n: u16) -> u16
    ensures { result ≡ Set.with_all w (min n 16) }
{
    w | all_below(n)
}

// How many members are below n.
#[tactic(auto, using(crate::proofs::Counts::count_ones))]
pub fn count_below(w: u16, n: u16) -> u32
    ensures { result ≡ Set.count_below w n }
{
    cut(w, n).count_ones()
}

// Whether every member of u below n is a member of w.
#[tactic(auto, using(crate::proofs::Words::and_off, crate::proofs::Words::less_none))]
pub fn within(u: u16, w: u16, n: u16) -> bool
    ensures { result ≡ Set.within u w n }
{
    cut(u & !w, n) == 0
}

// The members of u that w does not have.
#[tactic(auto, using(crate::proofs::Words::and_off, crate::proofs::Least::less_word))]
pub fn less(u: u16, w: u16) -> u16
    ensures { result ≡ Set.less u w }
{
    u & !w
}

// The lowest member below n, or n where there is none: no Option, since its promise, `Set.lowest`, has n. A word has
// at most 16 trailing zeros, so that the cast loses nothing.
pub fn lowest(w: u16, n: u16) -> u16
    ensures { result ≡ Set.lowest w n }
{
    let members = cut(w, n);
    if members == 0 {
        return n;
    }
    members.trailing_zeros() as u16
}
