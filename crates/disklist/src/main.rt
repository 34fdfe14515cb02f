// disklist: one disk on standard input; what restart finds on it is printed (document 01, "Program disklist"). Crate `listing` proves the text.
#![tactic(auto)]

use listing::{INPUT_LEN, TEXT_LEN, list_input};
use std::io;
use std::io::{Read, Write};

// Fills the buffer from the front as far as the input goes, and says how far. A read that fails counts as the input's end.
fn read_full<R: Read>(from: &mut R, buffer: &mut [u8]) -> usize {
    let mut there = 0usize;
    for _ in 0..buffer.len() {
        match from.read(&mut buffer[there..]) {
            Ok(0) => break,
            Ok(n) => there += n,
            Err(_) => break,
        }
    }
    there
}

fn main(rt: HostRuntime) -> io::Result<()> {
    let mut input = [0u8; INPUT_LEN];
    let n = read_full(&mut rt.reader(), &mut input);
    let mut text = [0u8; TEXT_LEN];
    let k = list_input(&mut input, n, &mut text);
    io::writer(&rt).write_all(&text[..k])
}
