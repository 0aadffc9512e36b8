// Prints the report on each of many sheet files. A line of standard input has a name and the file's bytes, two hexadecimal
// digits each; what is printed is compared with what a second hand's program prints.
#![tactic(auto)]

ghost use Rattle.std.specs.Prelude.{◌≡◌, ◌≤◌};

use anyhow::anyhow;
use reports::report;
use std::alloc::{AllocError, Global};
use std::fmt;
use std::io::{BufRead, BufReader};

fn digit(c: u8) -> u8
    ensures bound { result ≤ 15 }
{
    match c {
        b'0'..=b'9' => c - b'0',
        b'a'..=b'f' => c - b'a' + 10,
        _ => 0,
    }
}

fn decode(heap: Global, text: &str) -> Result<Vec<u8>, AllocError> {
    let mut bytes = Vec::new(heap);
    for pair in text.as_bytes().as_chunks::<2>().0 {
        let [high, low] = *pair;
        bytes.push(digit(high) * 16 + digit(low))?;
    }
    Ok(bytes)
}

fn run(rt: &HostRuntime) -> anyhow::Result<()> {
    for line in BufReader::new(rt.alloc(), rt.stdin())?.lines(rt.alloc()) {
        let line = line?;
        let (name, hex) = line
            .as_str()
            .split_once(' ')
            .ok_or_else(|| anyhow!("a line wants a name and a file"))?;
        let input = decode(rt.alloc(), hex)?;
        // A report for which there is no memory is told of as text that can't be written.
        let text = report(rt.alloc(), input.as_slice()).map_err(|_| fmt::Error)?;
        print!(rt; "# {name}\n{text}")?;
    }
    Ok(())
}

fn main(rt: HostRuntime) -> anyhow::Result<()> {
    run(&rt)
}
