//! A value at the end of a line: its words, each after a space, and the line's end.
ghost use Rattle.std.specs.Prelude.{[], ◌∷◌};
ghost use Rattle.std.specs.Int.{w32};
ghost use Rattle.std.proofs.Common.{to_z};
ghost use Rattle.text.specs.Ascii.{ascii};
ghost use Rattle.text.specs.Text.{decimal, signed, further};
ghost use Rattle.listed.specs.Listing.{chain_word, value_words};
ghost use Rattle.rules.specs.declared.Value.TheVariants.{Field};
ghost use Rattle.text.specs.Written.{HasRoom, Adds};

use crate::codes::code_of;
use rules::{Chain, Value};
use text::Page;

// An integer by its 32 bits.
fn put_int(page: &mut Page, bits: u32)
    requires { HasRoom 27 page.old }
    ensures { Adds 27 page.old (further (ascii "int" ∷ signed (to_z w32 bits) ∷ [])) page.new }
{
    page.put_text(b" int ");
    page.put_signed(bits.cast_signed());
    page.put_text(b"\n");
}

// The frame of a procedure's chain, by its number, or none.
fn put_chain(page: &mut Page, chain: Chain)
    requires { HasRoom 22 page.old }
    ensures { Adds 22 page.old (further (chain_word chain ∷ [])) page.new }
{
    match chain {
        Chain::Empty => page.put_text(b" none\n"),
        Chain::From(frame) => page.put_last(b"", u64::from(frame)),
    }
}

// A procedure by its proc node and its chain.
fn put_proc(page: &mut Page, node: u32, chain: Chain)
    requires { HasRoom 48 page.old }
    ensures { Adds 48 page.old (further (ascii "proc" ∷ decimal node ∷ chain_word chain ∷ [])) page.new }
{
    page.put_pair(b" proc", u64::from(node));
    put_chain(page, chain);
}

// A field by its attribute code.
fn put_field(page: &mut Page, img: &[u8], field: u32)
    requires { HasRoom 28 page.old }
    ensures { Adds 28 page.old (further (value_words img.now (Field field))) page.new }
{
    page.put_last(b" field", code_of(img, field));
}

/// A value as the listing writes it.
pub fn put_value(page: &mut Page, img: &[u8], value: Value)
    requires { HasRoom 48 page.old }
    ensures { Adds 48 page.old (further (value_words img.now value)) page.new }
{
    match value {
        Value::Nothing => page.put_text(b"\n"),
        Value::Null => page.put_text(b" null\n"),
        Value::Int(bits) => put_int(page, bits),
        Value::Field(field) => put_field(page, img, field),
        Value::Object(object) => page.put_last(b" object", u64::from(object)),
        Value::Proc(node, chain) => put_proc(page, node, chain),
        Value::Unset => page.put_text(b" unset\n"),
    }
}
