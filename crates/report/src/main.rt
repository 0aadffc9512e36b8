// Reads a sheet file from standard input, and prints the report on it.
#![tactic(auto)]

use reports::{LONGEST, report};
use std::fmt;
use std::io::Read;

// Some bytes more of the input; false at its end. What is read comes to the heap only then, so that an input without bytes
// asks for none.
fn read_more<R: Read>(source: &mut R, input: &mut Vec<u8>) -> anyhow::Result<bool> {
    let mut buffer = [0; 512];
    let count = source.read(&mut buffer)?;
    input.extend_from_slice(&buffer[..count])?;
    Ok(count > 0)
}

// The input, as far as it matters: one byte more than a report takes is enough to refuse the file.
fn read_input(rt: &HostRuntime) -> anyhow::Result<Vec<u8>> {
    let mut source = rt.stdin().take(LONGEST as u64 + 1);
    let mut input = Vec::new(rt.alloc());
    // Each turn but the last has a byte or more.
    for _ in 0..=LONGEST + 1 {
        if !read_more(&mut source, &mut input)? {
            break;
        }
    }
    Ok(input)
}

fn run(rt: &HostRuntime) -> anyhow::Result<()> {
    let input = read_input(rt)?;
    // A report for which there is no memory is told of as text that can't be written.
    let text = report(rt.alloc(), input.as_slice()).map_err(|_| fmt::Error)?;
    print!(rt; "{text}")?;
    Ok(())
}

fn main(rt: HostRuntime) -> anyhow::Result<()> {
    run(&rt)
}
