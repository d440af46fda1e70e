// A section's number in decimal and its bytes in hexadecimal.
use std::io;
use std::io::Write;

pub fn section(out: &mut impl Write, t: usize, bytes: &[u8]) -> io::Result<()> {
    write!(out, " {t} ")?;
    for &byte in bytes {
        write!(out, "{byte:02x}")?;
    }
    Ok(())
}
