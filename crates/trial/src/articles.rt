use crate::reference::beam;
use books::pile::{STANDARD_PILE, check_framed};
use rebar::cage::{Bars, Cage, Ties};
use std::test::Fail;

// Bars of one face.
fn bars(number: u8, mark: u8) -> Result<Bars, Fail> {
    Bars::new(mark, number).ok_or_else(|| Fail::new("there are no such bars"))
}

// A cage with #3 ties at a spacing.
fn cage(bottom: Bars, top: Bars, spacing: u16) -> Result<Cage, Fail> {
    let ties = Ties::new(3, spacing).ok_or_else(|| Fail::new("there are no such ties"))?;
    Ok(Cage { bottom, top, ties })
}

// What the frame layer over the general book answers for the reference beam.
fn answer(in_frame: bool, bottom: Bars, top: Bars, spacing: u16) -> Result<u8, Fail> {
    let cage = cage(bottom, top, spacing)?;
    Ok(check_framed(&STANDARD_PILE, &beam(in_frame)?, &cage))
}

#[test]
fn bending_and_shear(rt: HostRuntime) -> Result<(), Fail> {
    assert_eq!(rt; answer(false, bars(3, 5)?, bars(4, 5)?, 200)?, 0);
    assert_eq!(rt; answer(false, bars(3, 5)?, bars(3, 5)?, 200)?, 7);
    assert_eq!(rt; answer(false, bars(2, 5)?, bars(4, 5)?, 200)?, 6);
    assert_eq!(rt; answer(false, bars(3, 5)?, bars(4, 5)?, 225)?, 13);
    assert_eq!(rt; answer(false, bars(3, 5)?, bars(4, 5)?, 125)?, 13);
    assert_eq!(rt; answer(false, bars(3, 5)?, bars(4, 5)?, 150)?, 0);
    Ok(())
}

#[test]
fn too_much_steel(rt: HostRuntime) -> Result<(), Fail> {
    assert_eq!(rt; answer(false, bars(12, 11)?, bars(4, 5)?, 200)?, 1);
    assert_eq!(rt; answer(false, bars(2, 11)?, bars(2, 11)?, 200)?, 4);
    Ok(())
}

#[test]
fn in_a_frame(rt: HostRuntime) -> Result<(), Fail> {
    assert_eq!(rt; answer(true, bars(3, 5)?, bars(4, 5)?, 150)?, 26);
    assert_eq!(rt; answer(true, bars(3, 5)?, bars(4, 5)?, 100)?, 0);
    Ok(())
}

// A worked cage at a spacing.
fn worked_cage(spacing: u16) -> Result<Cage, Fail> {
    cage(bars(3, 5)?, bars(4, 5)?, spacing)
}

#[test]
fn steel_of_the_worked_cages(rt: HostRuntime) -> Result<(), Fail> {
    assert_eq!(rt; beam(false)?.steel(&worked_cage(200)?), 9_604_780);
    assert_eq!(rt; beam(true)?.steel(&worked_cage(100)?), 12_041_500);
    Ok(())
}
