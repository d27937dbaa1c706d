// A table of texts, each answered as the count program answers it. Standard input is a sheet of 64 by 64 cells, one long river.
#![tactic(auto)]

use reading::read_text;
use std::io;
use std::io::{Read, Write};

// A heading, and the texts under it.
struct Group(&'static [u8], &'static [&'static [u8]]);

const GROUPS: [Group; 14] = [
    // Sheets of the paper.
    Group(
        b"# sheets A, B, C, D, H, L\n",
        &[
            b"1 1\n1\n",
            b"1 1\n255\n",
            b"1 3\n1 1 1\n",
            b"1 3\n1 255 16\n",
            b"3 3\n2 4 8\n1 4 16\n128 4 32\n",
            b"2 2\n4 1\n1 64\n",
        ],
    ),
    // Sheets with a loop.
    Group(
        b"# 4: sheets E, F, a loop of four, two loops\n",
        &[
            b"1 2\n1 16\n",
            b"1 4\n1 1 1 16\n",
            b"2 2\n1 4\n64 16\n",
            b"1 5\n1 16 0 1 16\n",
        ],
    ),
    // Sheets with a bad code.
    Group(
        b"# 3: a bad code first and later, 254, above 255, sheet G\n",
        &[
            b"1 3\n1 3 5\n",
            b"1 1\n254\n",
            b"1 2\n1 256\n",
            b"1 2\n257 1\n",
            b"1 1\n9999\n",
            b"1 3\n1 300 3\n",
            b"1 3\n3 300 1\n",
            b"1 3\n1 16 3\n",
        ],
    ),
    // Sides outside the bounds, whatever follows.
    Group(
        b"# 1: no rows, no columns, 65, more\n",
        &[
            b"0 1\n",
            b"1 0\n\n",
            b"65 1\n1\n",
            b"1 65\nx",
            b"64 65\n",
            b"9999 9999\n\n\n",
        ],
    ),
    // Sides at the bounds.
    Group(b"# 64 by 64, and nothing after\n", &[b"64 64\n"]),
    // First lines cut short.
    Group(
        b"# 11: a first line cut short\n",
        &[b"", b"3", b"3 ", b"3 3"],
    ),
    // Numbers that are none, in the first line.
    Group(
        b"# 11: needless zeros, five digits\n",
        &[b"03 3\n", b"3 03\n", b"00 3\n", b"12345 1\n", b"1 12345\n"],
    ),
    // Other bytes in the first line.
    Group(
        b"# 11: other bytes\n",
        &[
            b" 1 1\n",
            b"1  1\n",
            b"1\t1\n",
            b"1 1 \n",
            b"1 1\r\n1\r\n",
            b"-1 1\n",
            b"\n",
            b"1\n1\n",
            b"x 1\n",
            b"\x00",
        ],
    ),
    // A malformed first line comes before its sides.
    Group(b"# 11 before 1\n", &[b"0 x\n", b"65 1", b"0 0 \n"]),
    // Lines of codes cut short.
    Group(
        b"# 11: lines of codes cut short\n",
        &[b"1 1\n", b"1 1\n1", b"1 2\n1 ", b"2 1\n1\n"],
    ),
    // Numbers that are none, in a line of codes.
    Group(
        b"# 11: needless zeros, five digits\n",
        &[b"1 1\n00\n", b"1 1\n03\n", b"1 1\n12345\n"],
    ),
    // Other bytes in a line of codes.
    Group(
        b"# 11: too few, too many, other bytes\n",
        &[
            b"1 2\n1\n2\n",
            b"2 1\n1 2\n",
            b"1 1\n\n1\n",
            b"1 2\n1\t1\n",
            b"1 1\n1\r\n",
            b"1 1\n1 \n",
            b"1 2\n1,1\n",
        ],
    ),
    // A byte after the last line.
    Group(
        b"# 11: a byte too many\n",
        &[b"1 1\n1\n\n", b"1 1\n1\n1\n", b"1 1\n1\n\x00"],
    ),
    // What is malformed comes before a bad code.
    Group(
        b"# 11 before 3\n",
        &[b"1 2\n3 x\n", b"1 1\n3", b"1 1\n3\nx", b"1 2\n256 00\n"],
    ),
];

// Answers one text.
fn tell<W: Write>(to: &mut W, text: &[u8]) -> io::Result<()> {
    let mut grid = [0u8; 4096];
    let mut counts = [0u32; 4096];
    let mut out = [0u8; 20680];
    let m = answer::answer(text, &mut grid, &mut counts, &mut out);
    to.write_all(&out[..m])
}

// Answers standard input.
fn tell_input<R: Read, W: Write>(from: &mut R, to: &mut W) -> io::Result<()> {
    to.write_all(b"# standard input\n")?;
    let mut text = [0u8; 20487];
    let n = read_text(from, &mut text)?;
    tell(to, &text[..n])
}

fn main(rt: HostRuntime) -> io::Result<()> {
    let to = &mut rt.stdout();
    for Group(heading, texts) in &GROUPS {
        to.write_all(heading)?;
        for text in texts.iter() {
            tell(to, text)?;
        }
    }
    tell_input(&mut rt.stdin(), to)
}
