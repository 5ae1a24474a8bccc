//! The listing program of document 01: reads `script.img` and `choices.bin` here and prints the listing of their run.
#![tactic(auto)]

fn main(rt: HostRuntime) {
    lister::list_paths(&rt, b"script.img", b"choices.bin");
}
