// Reads a job sheet from standard input and prints its round: the listing of document 01.
// Proved is the text: of the n bytes read, whatever they are, the first r bytes written are the listing of document 01, whole; and
// where the 4096 bytes do not hold the input whole, its listing is still that of the whole input, as no accepted sheet has more
// than 1304 bytes (round_text::write). Not proved, but the system's: that these n bytes are the input's first, and that what is
// written arrives.
#![tactic(auto)]

use std::io;
use std::io::Write;

fn main(rt: HostRuntime) -> io::Result<()> {
    let mut buffer = [0u8; 4096];
    let sheet = input::read(&rt, &mut buffer)?;
    let mut work = [0u32; 16384];
    let mut out = [0u16; 3072];
    let mut text = [0u8; 20480];
    let r = round_text::write(sheet, &mut work, &mut out, &mut text);
    io::writer(&rt).write_all(&text[..r])
}
