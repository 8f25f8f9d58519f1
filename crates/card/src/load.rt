//! The numbers of a load case.
ghost use Rattle.std.specs.Prelude.{◌≡◌, ◌+◌, ◌≤◌, length};
ghost use Rattle.card.specs.Faults.{Answers};
ghost use Rattle.card.specs.Parts.{force_fault, forces_fault, ForceAt, ForcesAt};
ghost use Rattle.card.specs.Reads.{LoadAs};

use crate::fault::Fault;
use crate::number::out_of_range;
use loads::{Case, Force, is_moderate};

// N bytes of the rest, and where they begin.
#[derive(Clone, Copy)]
pub(crate) struct Bytes<'a, const N: usize> {
    pub(crate) rest: &'a [u8],
    pub(crate) at: usize,
    ghost within: { at + N ≤ length rest.now },
}

impl<'a, const N: usize> Bytes<'a, N> {
    // M of the bytes, from one of them on.
    fn part<const M: usize>(&self, from: usize) -> Bytes<'a, M>
        requires { from + M ≤ N }
        ensures same_bytes { result.rest.now ≡ self.now.rest.now }
        ensures from_this_one_on { result.at ≡ self.now.at + from }
    {
        Bytes {
            rest: self.rest,
            at: self.at + from,
        }
    }
}

impl Bytes<'_, 4> {
    // A moment or a shear, or its fault.
    #[tactic(auto, unfolding(crate::specs::Numbers::load_fault))]
    fn load(&self) -> Result<i32, Fault>
        ensures { LoadAs self.now.rest.now self.now.at result }
    {
        let Bytes { rest, at } = *self;
        let load = i32::from_be_bytes([rest[at], rest[at + 1], rest[at + 2], rest[at + 3]]);
        if !is_moderate(load) {
            return Err(out_of_range(at));
        }
        Ok(load)
    }
}

impl Bytes<'_, 8> {
    // A moment and a shear, or their first fault.
    fn force(&self) -> Result<Force, Fault>
        ensures { Answers (force_fault self.now.rest.now self.now.at)
            (ForceAt self.now.rest.now self.now.at) result }
    {
        Ok(Force {
            moment: self.part::<4>(0).load()?,
            shear: self.part::<4>(4).load()?,
        })
    }
}

impl Bytes<'_, 24> {
    // The three forces of a load case, or their first fault.
    #[tactic(auto, using(crate::proofs::Offsets::shifts))]
    pub(crate) fn forces(&self) -> Result<Case, Fault>
        ensures { Answers (forces_fault self.now.rest.now self.now.at)
            (ForcesAt self.now.rest.now self.now.at) result }
    {
        Ok(Case {
            left: self.part::<8>(0).force()?,
            mid: self.part::<8>(8).force()?,
            right: self.part::<8>(16).force()?,
        })
    }
}
