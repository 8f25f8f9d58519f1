use card::fault::Fault;
use loads::loads::Case;
use rebar::beam::Beam;
use std::fmt;

// The line of a card: the numbers of its beam with its actions, or its fault.
#[derive(Clone, Copy)]
pub(crate) struct Line {
    pub(crate) answer: Result<Beam, Fault>,
}

// The six numbers of a load case in the order of the card.
#[derive(Clone, Copy)]
struct Numbers {
    case: Case,
}

impl fmt::Display for Numbers {
    fn fmt<W: fmt::Write>(&self, f: &mut fmt::Formatter<W>) -> fmt::Result {
        let Case { left, mid, right } = self.case;
        write!(f, "{} {} ", left.moment, left.shear)?;
        write!(f, "{} {} ", mid.moment, mid.shear)?;
        write!(f, "{} {}", right.moment, right.shear)
    }
}

impl fmt::Display for Line {
    fn fmt<W: fmt::Write>(&self, f: &mut fmt::Formatter<W>) -> fmt::Result {
        match self.answer {
            Ok(beam) => write_beam(&beam, f),
            Err(fault) => write!(f, "FAULT {} {}", u8::from(fault.kind), fault.place),
        }
    }
}

// The numbers of a beam in the order of the card, then its actions.
fn write_beam<W: fmt::Write>(beam: &Beam, f: &mut fmt::Formatter<W>) -> fmt::Result {
    let Beam {
        section,
        materials,
        member,
        loads,
        actions,
    } = beam;
    let frame = member.in_frame as u8;
    write!(
        f,
        "BEAM {} {} {}",
        section.width, section.height, section.cover
    )?;
    write!(
        f,
        " {} {} {}",
        materials.concrete, materials.steel, materials.aggregate
    )?;
    write!(f, " {} {} {}", frame, member.span, member.shear_factor)?;
    write!(
        f,
        " D {} L {}",
        Numbers { case: loads.dead },
        Numbers { case: loads.live }
    )?;
    write!(
        f,
        " W {} E {}",
        Numbers { case: loads.wind },
        Numbers {
            case: loads.earthquake
        }
    )?;
    write!(f, " ACTIONS {} {}", actions.bottom, actions.top)?;
    write!(f, " {} {}", actions.shear, actions.gravity)
}
