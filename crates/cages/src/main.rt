// Reads a stream of orders from standard input, and prints the line of each order as soon as its last byte has come, and the bill
// at the end: on the frame layer over the general book.
#![tactic(auto)]

use books::pile::STANDARD_PILE;
use console::answer_orders;

fn main(rt: HostRuntime) -> anyhow::Result<()> {
    answer_orders(STANDARD_PILE, &mut rt.stdin(), &mut rt.stdout())?;
    Ok(())
}
