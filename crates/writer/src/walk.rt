// A node written from left to right, and its children in their places. The children's numbers fall, so the way down ends.
ghost use Rattle.std.specs.Prelude.{◌≡◌, ◌<◌, ◌≤◌};
ghost use Rattle.rules.specs.Image.{nodes_of, node_at, tree_at, fields_of, halves};
ghost use Rattle.writer.specs.Forms.{test_before};
ghost use Rattle.writer.specs.Fields.{words_for};
ghost use Rattle.writer.specs.Walk.{WritesInt, WritesField, WritesNode, WritesChild, WritesWord, WordFits, ChildFits, HasTest};

use crate::fields::Fields;
use crate::forms::{How, form_of};
use crate::spelling::Spelling;
use pen::Pen;
use pen::kinds::{CLOSING_PARENTHESIS, FIELD_NAME, OPENING_PARENTHESIS, SIGN};
use rules::Node;

const INTEGER: usize = 2;

const EQUAL: usize = 18;

const LESS: usize = 19;

const WHILE: usize = 39;

const IF: usize = 40;

// An integer from its halves: below 2^31 a number, from there on a sign and a number.
#[tactic(auto, using(crate::proofs::Cited::walk_put_int_lemmas), unfolding(rules::specs::Image::halves))]
fn put_int(pen: &mut Pen<'_>, low: usize, high: usize)
    requires { (low < 65536) × (high < 65536) }
    ensures { WritesInt (halves low high) pen.old pen.new }
{
    let n = low as u64 + 65536 * high as u64;
    if n < 1 << 31 {
        pen.put_number(n);
        return;
    }
    pen.put_mark(Some(SIGN));
    pen.put_number((1 << 32) - n);
}

impl<'a> Spelling<'a> {
    // A field by its index from 1.
    #[tactic(auto, using(crate::proofs::Cited::walk_put_field_lemmas))]
    fn put_field(&self, pen: &mut Pen<'_>, f: usize)
        requires { (1 ≤ f) × (f ≤ fields_of self.now.script.now) }
        ensures { WritesField (words_for self.now.script.now self.now.fields) f pen.old pen.new }
    {
        match self.fields {
            Fields::MadeUp => pen.put_field_name(f as u64 - 1),
            Fields::Listed(list, rows) => {
                let name = rows.names[f - 1];
                pen.put_token(FIELD_NAME, &list[name.from..name.to]);
            }
        }
    }

    // Does an operand stand before word b: does the test of a while or an if end with one?
    #[tactic(auto, using(crate::proofs::TestLaws::tests))]
    fn test_before(&self, x: Node) -> bool
        requires { HasTest self.now.script.now x }
        ensures { result ≡ test_before (tree_at (node_at self.now.script.now)) x.tag x.a }
    {
        let script = self.script;
        match x.tag {
            WHILE | IF => matches!(script.image.tag_of(x.a), EQUAL | LESS),
            _ => false,
        }
    }

    // A child, in parentheses where they are asked for.
    #[cycle(put_child_put_node_put_word)]
    fn put_child(&self, pen: &mut Pen<'_>, how: How, w: usize, front: bool)
        requires { ChildFits self.now.script.now how w }
        ensures { WritesChild self.now.script.now (words_for self.now.script.now self.now.fields) how w front pen.old pen.new }
    {
        let script = self.script;
        let tag = script.image.tag_of(w);
        let before = how.passes(front);
        if how.asks(tag, self.ends[w], front) {
            pen.put_mark(Some(OPENING_PARENTHESIS));
            self.put_node(pen, w, before);
            pen.put_mark(Some(CLOSING_PARENTHESIS));
            return;
        }
        self.put_node(pen, w, before);
    }

    // A word of a node.
    #[cycle(put_child_put_node_put_word)]
    fn put_word(&self, pen: &mut Pen<'_>, how: How, w: usize, front: bool)
        requires { WordFits self.now.script.now how w }
        ensures { WritesWord self.now.script.now (words_for self.now.script.now self.now.fields) how w front pen.old pen.new }
    {
        match how {
            How::Nothing => {}
            How::Name => pen.put_name(w as u64),
            How::Field => self.put_field(pen, w),
            _ => self.put_child(pen, how, w, front),
        }
    }

    /// A node of the script, where an operand stands before it or none.
    #[cycle(put_child_put_node_put_word)]
    pub fn put_node(&self, pen: &mut Pen<'_>, n: usize, front: bool)
        requires { n < nodes_of self.now.script.now }
        ensures { WritesNode self.now.script.now (words_for self.now.script.now self.now.fields) n front pen.old pen.new }
    {
        let script = self.script;
        let x = script.image.read(n);
        if x.tag == INTEGER {
            put_int(pen, x.a, x.b);
            return;
        }
        let form = form_of(x.tag);
        let behind_test = self.test_before(x);
        pen.put_mark(form.first);
        pen.put_mark(form.second);
        self.put_word(pen, form.a, x.a, front);
        pen.put_mark(form.third);
        self.put_word(pen, form.b, x.b, behind_test);
        pen.put_mark(form.fourth);
        self.put_word(pen, form.c, x.c, false);
        pen.put_mark(form.last);
    }
}
