// Writing a file anew.

use std::fs::{self, File};
use std::io::{self, ErrorKind, Write};
use std::rt::Files;

// Writes a file anew, in parts. They go into a file beside it, which then takes its name: where anything fails it has the bytes that it
// had. What a link leads to is written, and the link stays. Who may read it stays so.
pub(crate) fn rewrite<H: AllocGlobal + Files>(
    rt: &H,
    path: &str,
    parts: &[&[u8]],
) -> io::Result<()> {
    let path = fs::canonicalize(rt, path)?.into_string();
    let beside = format!(in rt.alloc(); "{path}.laid")?;
    let metadata = fs::metadata(rt, path.as_str())?;
    // What is no file, as a pipe, keeps its place.
    if !metadata.is_file() {
        return Err(io::Error::from(ErrorKind::InvalidInput));
    }
    let mut file = File::create_new(rt, beside.as_str())?;
    let written = write_parts(&mut file, parts)
        .and_then(|()| fs::set_permissions(rt, beside.as_str(), metadata.permissions()))
        .and_then(|()| fs::rename(rt, beside.as_str(), path.as_str()));
    if written.is_err() {
        let _ = fs::remove_file(rt, beside.as_str());
    }
    written
}

// Writes all parts in order.
fn write_parts<W: Write>(file: &mut W, parts: &[&[u8]]) -> io::Result<()> {
    for part in parts {
        file.write_all(part)?;
    }
    Ok(())
}
