// Makes a bill of one line with its total, begins another with the next line, and prints both.
#![tactic(auto)]

ghost use Rattle.std.specs.Prelude.{◌≡◌, IfOk, OnErr};
ghost use Rattle.totalled.specs.Written.{BillsAs, Left, AreOn};

use bill::bill::{Begun, Refused};
use bill::refusal::Refusal;
use rebar::cage::{Bars, Cage, Ties};
use search::decision::Choice;
use sheet::reading::{Reading, Shown};
use std::io::Write;

// The refusal of a step whose bill is handed back, and then torn.
fn torn(refused: Refused) -> Refusal
    ensures why { result ≡ refused.refusal }
{
    let Refused { bill, refusal } = refused;
    bill.tear();
    refusal
}

// A bill of one line with its total on one page. A line after that begins another bill, on the next page. How many bytes each
// has.
fn write_bills(
    page: &mut [u8],
    next: &mut [u8],
    reading: &Reading,
) -> Result<(usize, usize), Refusal>
    ensures two_bills_or_refused { BillsAs page.old next.old reading.now result page.new next.new }
    ensures written_before_a_refusal { OnErr result
        (Left page.old next.old reading.now.place reading.now.shown page.new next.new) }
    ensures on_the_pages { IfOk result (λ written. AreOn written page.new next.new) }
{
    let begun = Begun::begin(page)?;
    let lined = begun.line(page, reading).map_err(torn)?;
    let totalled = lined.total(page).map_err(torn)?;
    let first = totalled.written();
    let another = Begun::begin(next)?;
    let lined = another.line(next, reading).map_err(torn)?;
    Ok((first, lined.tear()))
}

fn main(rt: HostRuntime) -> anyhow::Result<()> {
    let cage = Cage {
        bottom: Bars { mark: 5, number: 3 },
        top: Bars { mark: 5, number: 4 },
        ties: Ties {
            mark: 3,
            spacing: 200,
        },
    };
    let shown = Shown::Chosen(Choice {
        cage,
        steel: 9604780,
    });
    let mut page = [0; 64];
    let mut next = [0; 64];
    match write_bills(&mut page, &mut next, &Reading { place: 7, shown }) {
        Ok((first, second)) => {
            rt.stdout().write_all(&page[..first])?;
            rt.stdout().write_all(&next[..second])?;
        }
        Err(refusal) => println!(rt; "REFUSED {}", u8::from(refusal))?,
    }
    Ok(())
}
