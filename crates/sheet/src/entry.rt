ghost use Rattle.std.specs.Prelude.{◌≡◌};
ghost use Rattle.sheet.specs.Places.{opened, reopened};

use crate::change::Change;
use rebar::beam::Beam;
use search::decision::Decision;

// A beam on the sheet with its decision. It is open until it is decided, and open again when its
// decision may no longer be right.
#[derive(Clone, Copy)]
pub(crate) struct Entry {
    pub(crate) beam: Beam,
    pub(crate) decision: Option<Decision>,
}

impl Entry {
    // A beam that is open.
    pub(crate) fn open(beam: Beam) -> Entry
        ensures { result ≡ opened beam }
    {
        Entry {
            beam,
            decision: None,
        }
    }

    // Opens the beam again where its decision may no longer be right, after a mark came in or went out.
    pub(crate) fn reopen(&mut self, change: &Change)
        ensures { self.new
            ≡ reopened change.now.item.kind change.now.item.mark change.now.is_in self.old }
    {
        match &self.decision {
            Some(Decision::Chosen(choice)) if !change.is_in && !change.touches(&choice.cage) => {}
            _ => self.decision = None,
        }
    }
}
