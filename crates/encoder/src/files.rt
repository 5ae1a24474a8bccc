//! The two files and the image. Of a text 262,145 bytes are read at the most and of a list 4,097: one more than the limits is enough to see that
//! a file is too long (proofs/Cut). The image is made whole or not at all.
ghost use Rattle.std.specs.Prelude.{◌≡◌, ◌≤◌, length};
ghost use Rattle.text.specs.Written.{HasRoom};
ghost use Rattle.filing.specs.Names.{most_name};
ghost use Rattle.encoder.specs.Encodes.{lent_bytes};
ghost use Rattle.encoder.specs.Says.{most_printed, ImageFits};

use crate::answer::{MOST_LIST, MOST_TEXT, answer};
use filing::{is_read, make_file, open_read, print_lines, read_full};
use std::io::Read;
use std::rt::Files;
use text::Page;

// The bytes of the largest image, and of the longest of what is printed.
const MOST_IMAGE: usize = 16426;

const MOST_PRINTED: usize = 4608;

// Room for the longest text and one byte more. A function of its own, whose contract is proved by a law: the check of a larger one would count the zeros
// one by one.
fn text_room() -> [u8; MOST_TEXT + 1]
    ensures { 262145 ≡ length result }
{
    [0; MOST_TEXT + 1]
}

// Room for the longest list and one byte more: the one behind it tells that a list is too long.
fn list_room() -> [u8; MOST_LIST + 1]
    ensures { 4097 ≡ length result }
{
    [0; MOST_LIST + 1]
}

fn answer_files<F: Read>(
    page: &mut Page,
    text: &mut Option<F>,
    list: &mut Option<F>,
    name: &[u8],
    img: &mut [u8],
) -> Option<usize>
    requires room { HasRoom most_printed page.old }
    requires name_len_bound { length name.now ≤ most_name }
    requires lent_bytes_in_bounds { lent_bytes ≤ length img.old }
    ensures { ImageFits result img.new }
{
    let mut bytes = text_room();
    let n = read_full(text, &mut bytes);
    let mut rows = list_room();
    let m = read_full(list, &mut rows);
    let text = is_read(text, n, MOST_TEXT + 1).then_some(&bytes[..n]);
    let list = is_read(list, m, MOST_LIST + 1).then_some(&rows[..m]);
    answer(page, text, list, name, img)
}

// Both files are opened before either is read.
fn answer_paths<R: Files>(
    rt: &R,
    page: &mut Page,
    text: &[u8],
    list: &[u8],
    name: &[u8],
    img: &mut [u8],
) -> Option<usize>
    requires room { HasRoom most_printed page.old }
    requires name_len_bound { length name.now ≤ most_name }
    requires lent_bytes_in_bounds { lent_bytes ≤ length img.old }
    ensures { ImageFits result img.new }
{
    let mut t = open_read(rt, text);
    let mut l = open_read(rt, list);
    answer_files(page, &mut t, &mut l, name, img)
}

/// What the program `encode` does with the names that it is given. The lines are printed only after the image stands under its name.
pub fn encode_paths<R: Files + Print + Eprint>(rt: &R, text: &[u8], list: &[u8], image: &[u8])
    requires { length image.now ≤ most_name }
{
    let mut img = [0; MOST_IMAGE];
    let mut lines = [0; MOST_PRINTED];
    let mut page = Page::new(&mut lines);
    if let Some(bytes) = answer_paths(rt, &mut page, text, list, image, &mut img) {
        if !make_file(rt, image, &img[..bytes]) {
            return;
        }
    }
    print_lines(rt, page.text());
}

fn print_bytes<R: Print>(rt: &R, bytes: &[u8]) {
    for byte in bytes {
        let _ = print!(rt; "{byte:02x}");
    }
    let _ = Print::write_all(rt, b"\n");
}

/// What the program `encoded` does: the same lines, and the image as a line of hexadecimal digits; no file is written.
pub fn show_paths<R: Files + Print + Eprint>(rt: &R, text: &[u8], list: &[u8]) {
    let mut img = [0; MOST_IMAGE];
    let mut lines = [0; MOST_PRINTED];
    let mut page = Page::new(&mut lines);
    let image = answer_paths(rt, &mut page, text, list, b"script.img", &mut img);
    print_lines(rt, page.text());
    if let Some(bytes) = image {
        print_bytes(rt, &img[..bytes]);
    }
}

/// What it does with any other number of names.
pub fn print_usage<R: Print + Eprint>(rt: &R) {
    print_lines(rt, b"usage: encode [TEXT FIELDS IMAGE]\n");
}
