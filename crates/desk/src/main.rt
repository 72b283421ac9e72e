// The desk: a console on the box. It lends one memory to the calls of the box and one bench card to the scan of `card`; what it does beside that
// stands in docs/DESK.md.
#![tactic(auto)]

mod carding;
mod doing;
mod input;
mod lending;
mod output;
mod poking;

use desk_answers::NotDone;
use desk_lines::Line;
use doing::Desk;
use input::Input;
use lending::Stores;
use output::Output;

// The life of a desk, to the input's end, with an empty profile at its start. There are more turns than any run takes, so the loop is seen to end.
fn main(rt: HostRuntime) {
    let mut stores = Stores::new();
    let mut desk = Desk::new();
    let mut input = Input::new(rt.stdin());
    let mut line = Line::new();
    let mut output = Output::new();
    let mut memory = stores.memory(desk.lent);
    let _ = emptying::empty(&mut memory);
    for _ in 0..u64::MAX {
        let line_ended = input.take_line(&mut line);
        if !line_ended {
            output.flush(&rt);
            if input.read_more() {
                continue;
            }
        }
        match line.command() {
            Ok(Some(command)) => {
                let mut memory = stores.memory(desk.lent);
                output.tell(&rt, desk.answer(command, &mut memory));
            }
            Ok(None) => {}
            Err(fault) => output.tell(&rt, Err(NotDone::from(fault))),
        }
        line.clear();
        // The input's end is its last line's too.
        if !line_ended {
            output.flush(&rt);
            return;
        }
    }
}
