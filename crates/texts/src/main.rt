// The text of each of the 256 error codes, a line each.
#![tactic(auto)]

use std::io::{self, Stdout, Write};

fn write_line(mut to: Stdout, code: u8) -> io::Result<()> {
    let mut line = [0u8; 256];
    match att_text::write_text(code, &mut line) {
        Ok(n) => {
            to.write_all(line.get(..n).unwrap_or(&[]))?;
            to.write_all(b"\n")
        }
        Err(_) => to.write_all(b"refused\n"),
    }
}

fn main(rt: HostRuntime) -> io::Result<()> {
    for code in 0..=255u8 {
        write_line(rt.stdout(), code)?;
    }
    Ok(())
}
