// Words and numbers on the standard output.
use endian::refusals::Refusal;
use std::io;

pub(crate) fn put(rt: &impl Print, text: &[u8]) -> io::Result<()> {
    rt.write_all(text)
}

fn put_front(rt: &impl Print, text: &[u8], length: usize) -> io::Result<()> {
    if length <= text.len() {
        put(rt, &text[0..length])?;
    }
    Ok(())
}

// Spaces up to a width, of at most 20.
fn pad(rt: &impl Print, width: usize, used: usize) -> io::Result<()> {
    if used < width {
        put_front(rt, b"                    ", width - used)?;
    }
    Ok(())
}

pub(crate) fn put_left(rt: &impl Print, text: &[u8], width: usize) -> io::Result<()> {
    put(rt, text)?;
    pad(rt, width, text.len())
}

pub(crate) fn put_number(rt: &impl Print, n: u64, width: usize) -> io::Result<()> {
    print!(rt; "{n:>width$}")
}

pub(crate) fn put_refusal(rt: &impl Print, refusal: Refusal) -> io::Result<()> {
    println!(rt; "{refusal}")
}
