// Reads a stream of orders from standard input, and prints the console's answer: on a haulage layer over the pile of `cages`.
#![tactic(auto)]

mod haulage; // the haulage layer, articles 71 and 72

use crate::haulage::Haulage;
use books::pile::STANDARD_PILE;
use console::answer_orders;
use std::io;

fn main(rt: HostRuntime) -> io::Result<()> {
    let pile = Haulage {
        below: STANDARD_PILE,
        bed: 6000,
        lifts: 75,
    };
    answer_orders(pile, &mut rt.stdin(), &mut rt.stdout())
}
