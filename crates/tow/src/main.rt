//! Plans the tows of a tape of calls: reads the files `charges`, `links` and `tape`, and prints what each call answers.
#![tactic(auto)]

use inputs::read_input;
use tow_report::tow_lines;

fn main(rt: HostRuntime) -> anyhow::Result<()> {
    let charges = read_input(&rt, "charges")?;
    let links = read_input(&rt, "links")?;
    let tape = read_input(&rt, "tape")?;
    let lines = tow_lines(
        rt.alloc(),
        charges.as_slice(),
        links.as_slice(),
        tape.as_slice(),
    )?;
    print!(rt; "{lines}")?;
    Ok(())
}
