//! The program `encode`: with no names it reads `script.txt` and `fields.txt` here and writes `script.img`; with three names these.
#![tactic(auto)]

use encoder::files::{encode_paths, print_usage};
use filing::{Argument, argument_count};

fn main(rt: HostRuntime) {
    // argument 0 is the program's own name
    match argument_count(&rt) {
        1 => encode_paths(&rt, b"script.txt", b"fields.txt", b"script.img"),
        4 => {
            let text = Argument::new(&rt, 1);
            let list = Argument::new(&rt, 2);
            let image = Argument::new(&rt, 3);
            encode_paths(&rt, text.bytes(), list.bytes(), image.bytes());
        }
        _ => print_usage(&rt),
    }
}
