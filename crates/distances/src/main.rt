//! Prints the least distances between the berths of the sheet `edges`, or why it is refused.
#![tactic(auto)]

use distance_report::distance_lines;
use inputs::read_input;

fn main(rt: HostRuntime) -> anyhow::Result<()> {
    let sheet = read_input(&rt, "edges")?;
    let lines = distance_lines(rt.alloc(), sheet.as_slice())?;
    print!(rt; "{lines}")?;
    Ok(())
}
