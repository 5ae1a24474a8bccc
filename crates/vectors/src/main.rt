//! The vectors of docs/VECTORS.md: for each two arguments, an image and its choices, the name of the image and the
//! listing that the listing program prints for the two files.
#![tactic(auto)]

fn main(rt: HostRuntime) {
    filing::for_each_pair(
        &rt,
        |script, choices| lister::list_paths(&rt, script, choices),
    );
}
