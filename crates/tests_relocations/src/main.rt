// Relocates objects by orders, both given in its input. It writes a line for each pair: what the functions of
// `calls_judge` and `relocations_apply` give.
//
//     r   the first a bytes are the object, the b bytes from 1,048,640 on are the order, and the image has c bytes
#![tactic(auto)]

mod lines;
mod pairs;

use std::io;

fn main(rt: HostRuntime) -> io::Result<()> {
    tests_harness::run(rt, tests_harness::PAIR, |out, space, command| {
        match tests_harness::pair(space, command) {
            Some((object, order)) => pairs::line(out, object, order, command.c as usize),
            None => Ok(()),
        }
    })
}
