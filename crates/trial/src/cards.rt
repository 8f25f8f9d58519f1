use crate::reference::{CARD, beam};
use card::reader::read_card;
use rebar::beam::Beam;
use std::process::Abort;
use std::test::Fail;

// All thirteen fields: 400 by 600, cover 25, concrete 280, steel 2800, aggregate 10, in the frame, span 6,000, factor 60;
// dead -1,000 and 2,000 at the left, live moment 3,000 at mid, wind moment 5,000 at the left, earthquake shear -100,000 at the right.
const WHOLE: [u8; 112] = *b"\x1f\xff\x01\x90\x02\x58\x19\x01\x18\x0a\xf0\x0a\x01\x17\x70\x3c\
    \xff\xff\xfc\x18\x00\x00\x07\xd0\0\0\0\0\0\0\0\0\0\0\0\0\0\0\0\0\
    \0\0\0\0\0\0\0\0\x00\x00\x0b\xb8\0\0\0\0\0\0\0\0\0\0\0\0\
    \x00\x00\x13\x88\0\0\0\0\0\0\0\0\0\0\0\0\0\0\0\0\0\0\0\0\
    \0\0\0\0\0\0\0\0\0\0\0\0\0\0\0\0\0\0\0\0\xff\xfe\x79\x60";

// The card is refused with this number at this byte place.
fn check_refused(rt: &impl Abort, card: &[u8], number: u8, place: usize) -> Result<(), Fail> {
    let Err(fault) = read_card(card) else {
        return Err(Fail::new("the card is accepted"));
    };
    assert_eq!(rt; (u8::from(fault.kind), fault.place), (number, place));
    Ok(())
}

// Width, height, cover, concrete, steel, aggregate, span, shear factor.
fn sizes(beam: &Beam) -> [u16; 8] {
    [
        beam.section.width,
        beam.section.height,
        beam.section.cover,
        beam.materials.concrete,
        beam.materials.steel,
        beam.materials.aggregate,
        beam.member.span,
        beam.member.shear_factor,
    ]
}

// Bottom and top moment, shear, gravity shear.
fn actions(beam: &Beam) -> [u32; 4] {
    [
        beam.actions.bottom,
        beam.actions.top,
        beam.actions.shear,
        beam.actions.gravity,
    ]
}

#[test]
fn reference_card(rt: HostRuntime) -> Result<(), Fail> {
    let beam = beam(false)?;
    assert_eq!(rt; sizes(&beam), [300, 500, 40, 210, 4200, 20, 5000, 75]);
    assert_eq!(rt; actions(&beam), [68_000, 96_000, 124_000, 124_000]);
    assert!(rt; !beam.member.in_frame);
    Ok(())
}

#[test]
fn card_of_all_fields(rt: HostRuntime) -> Result<(), Fail> {
    let beam = read_card(&WHOLE).map_err(|_| Fail::new("the card is refused"))?;
    assert_eq!(rt; sizes(&beam), [400, 600, 25, 280, 2800, 10, 6000, 60]);
    assert_eq!(rt; actions(&beam), [71_000, 92_000, 1_000_000, 28_000]);
    assert_eq!(rt; beam.loads.earthquake.right.shear, -100_000);
    assert!(rt; beam.member.in_frame);
    Ok(())
}

#[test]
fn wrong_lengths(rt: HostRuntime) -> Result<(), Fail> {
    check_refused(&rt, &CARD[0..57], 4, 57)?;
    check_refused(&rt, &CARD[0..1], 4, 1)?;
    check_refused(&rt, &CARD[0..0], 4, 0)?;
    let mut long = [0; 59];
    let front = &mut long[0..58];
    front.copy_from_slice(&CARD);
    check_refused(&rt, &long, 7, 58)
}

#[test]
fn wrong_maps(rt: HostRuntime) -> Result<(), Fail> {
    let mut card = CARD;
    card[0] = 0x26;
    check_refused(&rt, &card, 5, 0)?;
    card[0] = 0x06;
    card[1] = 0x8a;
    check_refused(&rt, &card, 6, 0)
}

#[test]
fn numbers_out_of_range(rt: HostRuntime) -> Result<(), Fail> {
    let mut card = CARD;
    card[2] = 0;
    card[3] = 249;
    check_refused(&rt, &card, 8, 2)?;
    let mut card = CARD;
    card[10] = 0;
    card[11] = 1;
    card[12] = 0x86;
    card[13] = 0xa1;
    check_refused(&rt, &card, 8, 10)
}
