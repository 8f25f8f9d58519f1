ghost use Rattle.round.specs.Workshop.{workshop_answer};

use books::book::Book;
use rebar::beam::Beam;
use rebar::cage::Cage;

// An article book of a workshop of its own, which no other crate knows.
#[derive(Clone, Copy)]
pub(crate) struct Workshop;

impl Book for Workshop {
    ghost answer = { λ _ beam cage. workshop_answer beam cage };

    fn check(&self, beam: &Beam, cage: &Cage) -> u8 {
        if 2000 * (cage.ties.mark as u16) < beam.member.span {
            200
        } else if 10 * beam.section.cover < cage.ties.spacing {
            255
        } else if 50 * (cage.bottom.mark as u16 + cage.top.mark as u16) < beam.section.height {
            120
        } else if 10 * (cage.bottom.number as u16) < beam.materials.aggregate {
            1
        } else {
            0
        }
    }

    fn refusal_at_every_spacing(&self, _beam: &Beam, _cage: &Cage) -> Option<u8> {
        None
    }
}
