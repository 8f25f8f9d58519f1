ghost use Rattle.std.specs.Prelude.{◌≡◌};
ghost use Rattle.sheet.specs.Places.{uses};

use rebar::cage::Cage;
use stock::kind::Kind;
use stock::stock_mark::StockMark;

// A mark that comes in or goes out.
#[derive(Clone, Copy)]
pub(crate) struct Change {
    pub(crate) item: StockMark,
    pub(crate) is_in: bool,
}

impl Change {
    // Whether a cage has a bar of the mark in its kind.
    pub(crate) fn touches(&self, cage: &Cage) -> bool
        ensures { result ≡ uses self.now.item.kind self.now.item.mark cage.now }
    {
        let mark = self.item.mark;
        match self.item.kind {
            Kind::Main => cage.bottom.mark == mark || cage.top.mark == mark,
            Kind::Tie => cage.ties.mark == mark,
        }
    }
}
