// The running tally: how many verdicts were seen, how many of them were true (selected), and how
// many were false (passed over). Document 01, "Tally".
ghost use Rattle.std.specs.Prelude.{◌≡◌, ◌+◌};
ghost use Rattle.tally.specs.Tally.{counted, Tallied, truth_of};

// Three counts that C lends and this crate alters where they stand.
#[repr(C)]
#[derive(Clone, Copy)]
pub struct Tally {
    pub seen: u32,
    pub selected: u32,
    pub passed_over: u32,
}

// Why a verdict is not counted.
#[derive(Clone, Copy)]
pub enum NotCounted {
    // The tally has seen as many verdicts as it can.
    AtLimit,
    // What it has seen is not the sum of the others.
    OutOfBalance,
}

// The number that C is given for either.
impl From<NotCounted> for u32 {
    ghost from_gives = { λ _ number. number ≡ 12 };

    fn from(_why: NotCounted) -> u32 {
        12
    }
}

// The sum of two counts. It is made in 64 bits, where it cannot wrap.
fn sum_of(a: u32, b: u32) -> u64
    ensures { result ≡ a + b }
{
    a as u64 + b as u64
}

// The tally with one verdict more, if it is neither full nor out of balance.
pub fn count(t: Tally, verdict: bool) -> Result<Tally, NotCounted>
    ensures { result ≡ counted t verdict }
{
    let full = t.seen == u32::MAX;
    if full {
        return Err(NotCounted::AtLimit);
    }
    let out_of_balance = t.seen as u64 != sum_of(t.selected, t.passed_over);
    if out_of_balance {
        return Err(NotCounted::OutOfBalance);
    }
    let seen = t.seen + 1;
    let selects = verdict;
    if selects {
        Ok(Tally {
            seen,
            selected: t.selected + 1,
            ..t
        })
    } else {
        Ok(Tally {
            seen,
            passed_over: t.passed_over + 1,
            ..t
        })
    }
}

// Counts a verdict in the tally where it stands: 0 is a false verdict, anything else a true one. A tally
// in which it is not counted stays as it was.
#[unsafe(no_mangle)]
pub extern "C" fn pz_tally(tally: &mut Tally, verdict: u32) -> u32
    ensures { Tallied tally.old (truth_of verdict) result tally.new }
{
    match count(*tally, verdict != 0) {
        Ok(more) => {
            *tally = more;
            0
        }
        Err(why) => why.into(),
    }
}
