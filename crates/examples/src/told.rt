// Lines on standard output: an example is right, or it is not and what was said stands before its line.
use std::io;

// Whether what was said is what is wanted; else both are written.
pub(crate) fn right(rt: &impl Print, said: &str, wanted: &str) -> io::Result<bool> {
    let ok = said == wanted;
    if !ok {
        println!(rt; "DIFFERENCE said {said} wanted {wanted}")?;
    }
    Ok(ok)
}

// Writes the line of an example.
pub(crate) fn tell(rt: &impl Print, name: &str, ok: bool) -> io::Result<()> {
    let told = if ok { "ok" } else { "not ok" };
    println!(rt; "{name} {told}")
}
