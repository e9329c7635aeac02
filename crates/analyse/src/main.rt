// The program `analyse` (document 01): standard input is a request, standard output its answer. All but reading and writing is `reply`.
#![tactic(auto)]

ghost use Rattle.std.specs.Prelude.{◌≤◌, length, IfOk};

use std::io;
use std::io::{Read, Stdin, Write};

// All of standard input, or as much of it as text is long. A read may bring fewer bytes than it is asked for, and none at the end; `n`
// is what has come. There is no heap, so no `read_to_end`.
fn read_text(input: &mut Stdin, text: &mut [u8]) -> io::Result<usize>
    ensures { IfOk result (λ n. n ≤ length text.new) }
{
    let mut n: usize = 0;
    while n < text.len() {
        let more = input.read(&mut text[n..])?;
        if more == 0 {
            break;
        }
        n += more;
    }
    Ok(n)
}

fn main(rt: HostRuntime) {
    let mut text = [0u8; 65537];
    let Ok(n) = read_text(&mut rt.stdin(), &mut text) else {
        let _ = rt
            .stderr()
            .write_all(b"analyse: standard input cannot be read\n");
        return;
    };
    let mut out = [0u8; 65536];
    let length = text_reply::reply(&text[..n], &mut out);
    if rt.stdout().write_all(&out[..length]).is_err() {
        let _ = rt
            .stderr()
            .write_all(b"analyse: standard output cannot be written\n");
    }
}
