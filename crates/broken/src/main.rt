// Hands broken engine values to every call. One line for each way to break the soundness rule: how many calls answered 19.
#![tactic(auto)]

mod breach;
mod calls;

use crate::breach::Breach;
use text::draft::Draft;

fn line(name: &[u8], breach: Breach) -> Draft<100> {
    let mut line = Draft::<100>::new();
    line.push(name);
    line.push(b": 19 from ");
    line.decimal(calls::refused(breach.engine()));
    line.push(b" of 24 calls\n");
    line
}

// A line that can't be written is only missing: who compares the lines sees that.
fn main(rt: HostRuntime) {
    for (name, breach) in breach::ALL {
        let _ = console::write_all(&mut rt.stdout(), line(name, breach).as_slice());
    }
}
