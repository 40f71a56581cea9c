// What a search is asked.
ghost use Rattle.std.specs.Prelude.{◌≡◌, ◌≤◌};

use crate::refusals::Refusal;

// The place, how many hits are wanted at most, and the largest key wanted.
#[derive(Drop)]
pub struct Inquiry<P> {
    pub(crate) place: P,
    pub(crate) count: usize,
    pub(crate) limit: u64,
    ghost some: { 1 ≤ count },
    ghost few: { count ≤ 16 },
}

const MOST_HITS: u32 = 16;

impl<P: Copy> Inquiry<P> {
    ghost use Rattle.catalogue.specs.Inquiries.{asked};

    // At least one hit is asked for; a limit of 2^64 − 1 is no limit.
    pub fn new(place: P, count: u32, limit: u64) -> Result<Inquiry<P>, Refusal>
        ensures { result ≡ asked place count limit }
    {
        if !(1..=MOST_HITS).contains(&count) {
            return Err(Refusal::CountOutOfRange);
        }
        Ok(Inquiry {
            place,
            // as in Rust, usize has no From<u32>
            count: count as usize,
            limit,
        })
    }
}
