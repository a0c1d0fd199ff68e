// What a fault is called.
use std::io::{self, Cursor, Write};

// Writes a line: what failed, as the caller names it, a colon and the system's words for the error.
pub fn say<W: Write>(to: &mut W, what: &[u8], fault: io::Error) {
    let mut words = Cursor::new([0u8; 320]);
    let mut number = Cursor::new([0u8; 32]);
    let _ = write!(words, "{fault}");
    // std puts the error's number after the system's words.
    if let Some(code) = fault.raw_os_error() {
        let _ = write!(number, " (os error {code})");
    }
    let end = words.position().saturating_sub(number.position());
    let text = words.into_inner();
    let n = (end as usize).min(text.len());
    let _ = crate::put(to, what);
    let _ = crate::put(to, b": ");
    let _ = crate::put(to, &text[..n]);
    let _ = crate::put(to, b"\n");
}
