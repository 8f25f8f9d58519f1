// Begins a bill and tears it, and prints the bytes that were written.
#![tactic(auto)]

ghost use Rattle.std.specs.Prelude.{◌≤◌, length, IfOk};
ghost use Rattle.bill.specs.Bill.{head_text};
ghost use Rattle.bill.specs.Steps.{AppendedAs};

use bill::bill::Begun;
use bill::refusal::Refusal;
use std::io::Write;

// Begins a bill and tears it, and says how many bytes it has written.
fn write_head(page: &mut [u8]) -> Result<usize, Refusal>
    ensures head_on_the_page_or_refused { AppendedAs page.old 0 head_text result page.new }
    ensures on_the_page { IfOk result (λ written. written ≤ length page.new) }
{
    let begun = Begun::begin(page)?;
    let written = begun.tear();
    Ok(written)
}

fn main(rt: HostRuntime) -> anyhow::Result<()> {
    let mut page = [0; 8];
    match write_head(&mut page) {
        Ok(written) => rt.stdout().write_all(&page[..written])?,
        Err(refusal) => println!(rt; "REFUSED {}", u8::from(refusal))?,
    }
    Ok(())
}
