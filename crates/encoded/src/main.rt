//! The vectors of written texts (docs/VECTORS.md): for each two arguments, a text and a list of fields, the name of the text and what the
//! program `encode` would print for the two files, with the image, which is not written, as a line of hexadecimal digits.
#![tactic(auto)]

fn main(rt: HostRuntime) {
    filing::for_each_pair(
        &rt,
        |text, list| encoder::files::show_paths(&rt, text, list),
    );
}
