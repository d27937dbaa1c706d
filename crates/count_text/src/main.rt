// The count program: reads a sheet as text from standard input, and writes its counts or why it is refused.
// No proper text of sides within 1 to 64 has more than 20,486 bytes, and the first 20,487 decide the answer. Text, grid, counts and answer take 61,647 bytes.
#![tactic(auto)]

use reading::read_text;
use std::io::Write;

// Says on standard error that something has failed; where that fails too, nothing more can be said.
fn say(rt: &HostRuntime, what: &[u8]) {
    let _ = rt.stderr().write_all(what);
}

fn main(rt: HostRuntime) {
    let mut text = [0u8; 20487];
    let mut grid = [0u8; 4096];
    let mut counts = [0u32; 4096];
    let mut out = [0u8; 20680];
    let Ok(n) = read_text(&mut rt.stdin(), &mut text) else {
        say(
            &rt,
            b"count_text: standard input cannot be read; nothing is answered\n",
        );
        return;
    };
    let m = answer::answer(&text[..n], &mut grid, &mut counts, &mut out);
    if rt.stdout().write_all(&out[..m]).is_err() {
        say(
            &rt,
            b"count_text: the answer was not written, or not all of it\n",
        );
    }
}
