ghost use Rattle.std.specs.Prelude.{◌≡◌, ◌≤◌};
ghost use Rattle.rebar.specs.Marks.{face_area};
ghost use Rattle.books.specs.Rules.{test};
ghost use Rattle.books.specs.Numbers.{room, row_length, rows_of, second_row_loss, effective_depth, rows_depth, d_of, face_depth, q_of, y_of};
ghost use Rattle.books.specs.General.{outer_row_fits, faces_apart};

use rebar::beam::Beam;
use rebar::cage::{Bars, Ties};

// The width inside the ties, in hundredths of a mm.
fn room_in(beam: &Beam, ties: &Ties) -> u64
    ensures { result ≡ room beam.now.section ties.now }
{
    100 * beam.section.width as u64 - 200 * beam.section.cover as u64 - 20 * ties.diameter() as u64
}

// The width of some bars in a row, in hundredths.
fn row_of(beam: &Beam, bars: &Bars, number: u64) -> u64
    requires { (1 ≤ number) × (number ≤ 12) }
    ensures { result ≡ row_length beam.now.materials bars.now number }
{
    let width = bars.diameter() as u64;
    let gap = (10 * width)
        .max(2500)
        .max(133 * beam.materials.aggregate as u64);
    10 * number * width + (number - 1) * gap
}

// The yield stress of the steel, in hundreds of kg/cm².
pub(crate) fn yield_stress(beam: &Beam) -> u64
    ensures hundredth_of_the_grade { result ≡ y_of beam.now.materials }
    ensures no_more_in_any_beam { result ≤ 42 }
{
    beam.materials.steel as u64 / 100
}

// q, the force of the bars at yield.
fn force_of(beam: &Beam, bars: &Bars) -> u64
    ensures area_by_yield_stress { result ≡ q_of beam.now.materials bars.now }
    ensures no_more_in_any_beam { result ≤ 507024 }
{
    bars.area() as u64 * yield_stress(beam)
}

// What the effective depth loses to a second row, in tenths.
fn loss_of(bars: &Bars) -> u64
    ensures loss_to_a_second_row { result ≡ second_row_loss bars.now }
    ensures no_more_in_any_beam { result ≤ 304 }
{
    let number = bars.number as u64;
    ((bars.diameter() as u64 + 250) * (number / 2)).div_ceil(number)
}

// How the bars of a face lie in a beam: in one row or two, and whether the outer row fits inside the ties.
#[derive(Clone, Copy)]
struct Layout<'a> {
    beam: &'a Beam,
    ties: &'a Ties,
    bars: &'a Bars,
    rows: u64,
    fits: bool,
    ghost one_row_or_two: { (1 ≤ rows) × (rows ≤ 2) },
}

impl<'a> Layout<'a> {
    fn of(beam: &'a Beam, ties: &'a Ties, bars: &'a Bars) -> Layout<'a>
        ensures of_these { (result.beam.now ≡ beam.now) × (result.ties.now ≡ ties.now)
            × (result.bars.now ≡ bars.now) }
        ensures one_row_where_all_fit { result.rows ≡ rows_of beam.now.section beam.now.materials
            ties.now bars.now }
        ensures whether_the_outer_row_fits { result.fits ≡ test
            (outer_row_fits beam.now.section beam.now.materials ties.now bars.now) }
    {
        let room = room_in(beam, ties);
        let number = bars.number as u64;
        let one_row = row_of(beam, bars, number) <= room;
        Layout {
            beam,
            ties,
            bars,
            rows: if one_row { 1 } else { 2 },
            fits: one_row || row_of(beam, bars, number.div_ceil(2)) <= room,
        }
    }

    // The effective depth of the face, in tenths.
    fn depth(&self) -> u64
        ensures depth_of_its_rows { result ≡ effective_depth self.now.beam.now.section
            self.now.ties.now self.now.bars.now self.now.rows }
        ensures no_more_in_any_beam { result ≤ 8800 }
    {
        let section = &self.beam.section;
        let straight = 10 * section.height as u64
            - 10 * section.cover as u64
            - self.ties.diameter() as u64
            - (self.bars.diameter() as u64).div_ceil(2);
        if self.rows == 1 {
            straight
        } else {
            straight - loss_of(self.bars)
        }
    }

    // How deep the rows stand into the section, in tenths.
    fn thickness(&self) -> u64
        ensures depth_taken_up { result ≡ rows_depth self.now.beam.now.section self.now.ties.now
            self.now.bars.now self.now.rows }
        ensures no_more_in_any_beam { result ≤ 1875 }
    {
        10 * self.beam.section.cover as u64
            + self.ties.diameter() as u64
            + self.bars.diameter() as u64 * self.rows
            + 250 * (self.rows - 1)
    }
}

// The bars of a face of a beam as the formulas take them: whether their outer row fits, how deep they stand into the section
// in tenths, their steel area in mm², their force q at yield, and their effective depth d in tenths.
#[derive(Clone, Copy)]
pub(crate) struct Face<'a> {
    pub beam: &'a Beam,
    pub fits: bool,
    pub thickness: u64,
    pub area: u64,
    pub force: u64,
    pub depth: u64,
    ghost no_more_in_any_beam: { (thickness ≤ 1875) × (area ≤ 12072) × (force ≤ 507024)
        × (depth ≤ 8800) },
}

impl<'a> Face<'a> {
    // The face that these bars make. In line, for the same reason as what asks of it (general.rt).
    #[inline(always)]
    pub(crate) fn of(beam: &'a Beam, ties: &Ties, bars: &Bars) -> Face<'a>
        ensures of_the_beam { result.beam.now ≡ beam.now }
        ensures whether_the_outer_row_fits { result.fits ≡ test
            (outer_row_fits beam.now.section beam.now.materials ties.now bars.now) }
        ensures depth_taken_up { result.thickness ≡ face_depth beam.now.section beam.now.materials
            ties.now bars.now }
        ensures area_of_the_bars { result.area ≡ face_area bars.now }
        ensures force_at_yield { result.force ≡ q_of beam.now.materials bars.now }
        ensures depth_of_the_face { result.depth ≡ d_of beam.now.section beam.now.materials ties.now
            bars.now }
    {
        let layout = Layout::of(beam, ties, bars);
        Face {
            beam,
            fits: layout.fits,
            thickness: layout.thickness(),
            area: bars.area() as u64,
            force: force_of(beam, bars),
            depth: layout.depth(),
        }
    }

    // Whether this face and the one across stand apart.
    pub(crate) fn stands_apart(&self, across: &Face) -> bool
        ensures { result ≡ test
            (faces_apart self.now.beam.now.section self.now.thickness across.now.thickness) }
    {
        self.thickness + across.thickness + 250 <= 10 * self.beam.section.height as u64
    }
}

// The two faces of a cage in a beam, and the ties round them.
#[derive(Clone, Copy)]
pub(crate) struct Faces<'a> {
    pub beam: &'a Beam,
    pub ties: &'a Ties,
    pub bottom: Face<'a>,
    pub top: Face<'a>,
}

impl Faces<'_> {
    ghost use Rattle.books.specs.Faces.{least_depth};

    // z, the smaller of the two effective depths.
    pub(crate) fn depth(&self) -> u64
        ensures { result ≡ least_depth self.now }
    {
        self.bottom.depth.min(self.top.depth)
    }
}
