//! Rows of requests and replies: `|` stands for CR LF, words are parted by blanks, and requests by `; `.

ghost use Rattle.std.specs.Prelude.{◌≡◌, IfOk};
ghost use Rattle.test_support.specs.Rows.{row_bytes};

use std::alloc::{AllocError, Global};

/// The bytes of a row, in which `|` stands for CR LF. `AllocError` where there is no memory for them.
pub fn bytes_of(alloc: Global, row: &str) -> Result<Vec<u8>, AllocError>
    ensures { IfOk result (λ bytes. bytes.items ≡ row_bytes row.now) }
{
    let mut bytes = Vec::new(alloc);
    for byte in row.as_bytes() {
        match *byte {
            b'|' => bytes.extend_from_slice(b"\r\n")?,
            byte => bytes.push(byte)?,
        }
    }
    Ok(bytes)
}

/// The bytes of requests as a client sends them: a list parted by `; `, with words parted by blanks, of which `''` is
/// the empty one. `AllocError` where there is no memory for them.
pub fn requests_of(alloc: Global, row: &str) -> Result<Vec<u8>, AllocError> {
    let mut bytes = Vec::new(alloc);
    for request in row.split("; ") {
        let head = format!(in alloc; "*{}\r\n", request.split(' ').count())?;
        bytes.extend_from_slice(head.as_bytes())?;
        for word in request.split(' ') {
            let word = if word == "''" { "" } else { word };
            let line = format!(in alloc; "${}\r\n{word}\r\n", word.len())?;
            bytes.extend_from_slice(line.as_bytes())?;
        }
    }
    Ok(bytes)
}
