//! A card whose map and length are right, and the parts of its beam.
ghost use Rattle.std.specs.Prelude.{◌≡◌, true, length};
ghost use Rattle.rebar.specs.Ranges.{Within};
ghost use Rattle.card.specs.Card.{shape_fault, BeamIs};
ghost use Rattle.card.specs.Faults.{Answers};
ghost use Rattle.card.specs.Layout.{field_count, least_covers};
ghost use Rattle.card.specs.Map.{offset, required};
ghost use Rattle.card.specs.Parts.{section_fault, materials_fault, member_fault, case_fault, loads_fault, values_fault, SectionIs, MaterialsIs, MemberIs, CaseIs, LoadsIs};

use crate::fault::{Fault, FaultKind};
use crate::layout::Field;
use crate::load::Bytes;
use crate::map::Map;
use crate::number::number;
use loads::{Case, LoadCase, Loads};
use rebar::{Beam, Materials, Member, Section};

// A card whose map and length are right: only its numbers are left to judge, by the least cover
// among others.
#[derive(Clone, Copy)]
pub(crate) struct Body<'a> {
    map: Map,
    rest: &'a [u8],
    least_cover: u16,
    ghost complete: { required map.bits ≡ true },
    ghost whole: { length rest.now ≡ offset map.bits field_count },
    ghost covers: { Within least_covers least_cover },
}

impl<'a> Body<'a> {
    ghost use Rattle.card.specs.Reads.{IsBodyOf};

    // The body of a card, or the fault of its map or length. The cover that an absent field means,
    // 40, may not be below the least.
    pub(crate) fn of(card: &'a [u8], least_cover: u16) -> Result<Body<'a>, Fault>
        requires { Within least_covers least_cover }
        ensures { Answers (shape_fault card.now) (IsBodyOf card.now least_cover) result }
    {
        let [high, low, rest @ ..] = card else {
            return Err(FaultKind::BytesMissing.at(card.len()));
        };
        let map = Map {
            bits: u16::from_be_bytes([*high, *low]),
        };
        map.judge(card.len())?;
        Ok(Body {
            map,
            rest,
            least_cover,
        })
    }
}

// The readers of section, materials and member are not one: their structs share no field.
impl Body<'_> {
    ghost use Rattle.card.specs.Reads.{Reads, FieldAs};

    // The value of a field, on the card or by its absence.
    #[tactic(auto, using(crate::proofs::Rows::default_allowed), unfolding(crate::specs::Numbers::field_fault, crate::specs::Numbers::value))]
    fn field(&self, field: Field) -> Result<u16, Fault>
        ensures { FieldAs field self.now result }
    {
        Ok(match self.map.place(field) {
            Some(at) => number(self.rest, at, field, self.least_cover)?,
            None => field.default(),
        })
    }

    // The section, or the first bad number of width, height and cover.
    fn section(&self) -> Result<Section, Fault>
        ensures { Reads section_fault SectionIs self.now result }
    {
        Ok(Section {
            width: self.field(Field::Width)?,
            height: self.field(Field::Height)?,
            cover: self.field(Field::Cover)?,
        })
    }

    // The materials, or the first bad number of concrete, steel and aggregate.
    #[tactic(auto, using(rebar::proofs::Grades::concrete_range, rebar::proofs::Grades::steel_range))]
    fn materials(&self) -> Result<Materials, Fault>
        ensures { Reads materials_fault MaterialsIs self.now result }
    {
        Ok(Materials {
            concrete: self.field(Field::Concrete)?,
            steel: self.field(Field::Steel)?,
            aggregate: self.field(Field::Aggregate)?,
        })
    }

    // The member, or the first bad number of frame, span and shear factor.
    #[tactic(auto, using(rebar::proofs::Grades::shear_factor_range))]
    fn member(&self) -> Result<Member, Fault>
        ensures { Reads member_fault MemberIs self.now result }
    {
        Ok(Member {
            in_frame: self.field(Field::Frame)? == 1,
            span: self.field(Field::Span)?,
            shear_factor: self.field(Field::ShearFactor)?,
        })
    }

    // A load case, on the card or no load at all.
    #[tactic(auto, unfolding(crate::specs::Parts::case_fault, crate::specs::Parts::load_number))]
    fn case(&self, case: LoadCase) -> Result<Case, Fault>
        ensures { Reads (λ _. case_fault case) (CaseIs case) self.now result }
    {
        let rest = self.rest;
        Ok(match self.map.place(case) {
            Some(at) => Bytes::<24> { rest, at }.forces()?,
            None => Case::NONE,
        })
    }

    // The loads, or the first bad number of the four load cases.
    fn loads(&self) -> Result<Loads, Fault>
        ensures { Reads (λ _. loads_fault) LoadsIs self.now result }
    {
        Ok(Loads {
            dead: self.case(LoadCase::Dead)?,
            live: self.case(LoadCase::Live)?,
            wind: self.case(LoadCase::Wind)?,
            earthquake: self.case(LoadCase::Earthquake)?,
        })
    }

    // The beam of the card, or its first bad number.
    pub(crate) fn beam(&self) -> Result<Beam, Fault>
        ensures { Reads values_fault BeamIs self.now result }
    {
        Ok(Beam::new(
            self.section()?,
            self.materials()?,
            self.member()?,
            self.loads()?,
        ))
    }
}
