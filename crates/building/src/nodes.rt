// The nodes so far, in a local image: each node that comes out is put behind the others and counted, as long as there is room.
ghost use Rattle.std.specs.Prelude.{◌≡◌, List, ◌++◌, ◌<◌, ◌≤◌, length, replicate};
ghost use Rattle.std.specs.Option.{ForSome};
ghost use Rattle.rules.specs.Image.{most_nodes};
ghost use Rattle.grammar.specs.Reads.{most_bytes};
ghost use Rattle.reading.specs.Table.{Due, pass, does};
ghost use Rattle.dues.specs.Words.{due_word, made_items};
ghost use Rattle.dues.specs.Stack.{DueFits, Stacked, Standing, passing, PassesAll, passed_items};
ghost use Rattle.building.specs.Room.{Roomy};
ghost use Rattle.building.specs.Built.{WordPasses, Passed, EndSays};

use dues::{Deed, Made, stack};

pub(crate) const MOST_NODES: usize = 2048;

/// The nodes of a text so far, in buffers of their own.
#[derive(Drop)]
pub struct Nodes {
    /// The image: the bytes of its nodes stand one behind the other from `start` on.
    pub image: [u8; 16426],
    /// The first node of each node's tree, and zeros behind them.
    pub firsts: [u16; 2048],
    pub start: usize,
    /// How many nodes there are; 2,049 stands for more than 2,048, and of those beyond none is put.
    pub count: usize,
    ghost roomy: { Roomy start image firsts },
    ghost few: { count ≤ 2049 },
}

impl Nodes {
    ghost use Rattle.building.specs.Grown.{Grows};

    /// No node, in an image whose nodes are to begin at byte `start`.
    pub fn new(start: usize) -> Nodes
        requires { start ≤ 42 }
        ensures counts { (result.start ≡ start) × (result.count ≡ 0) }
        ensures zeros { (result.image ≡ replicate most_bytes 0) × (result.firsts ≡ replicate most_nodes 0) }
    {
        Nodes {
            image: [0; 16426],
            firsts: [0; 2048],
            start,
            count: 0,
        }
    }

    /// A node, or none, behind those that are there.
    #[tactic(auto, using(crate::proofs::BuildLaws::no_node, crate::proofs::BuildLaws::no_room, crate::proofs::Cited::build_put_made_lemmas))]
    pub fn put(&mut self, made: Option<Made>)
        requires { ForSome made (λ m. m.tag < 65536) }
        ensures { Grows (made_items made) self.old self.new }
    {
        let Some(made) = made else {
            return;
        };
        if self.count < MOST_NODES {
            tables::nodes::put_node(
                &mut self.image,
                &mut self.firsts,
                self.start,
                self.count,
                made.tag as usize,
                made.value,
            );
            self.count += 1;
        } else {
            self.count = MOST_NODES + 1;
        }
    }

    // The node of a thing due that a token of this kind passes.
    fn put_passing(&mut self, w: u32, kind: u32)
        requires { WordPasses w kind }
        ensures { (d : Due) → DueFits d → w ≡ due_word d → does d kind 0 ≡ pass (passing d) → Grows (passing d) self.old self.new }
    {
        if let Deed::Pass(made) = stack::does(w, kind, 0) {
            self.put(made);
        }
    }

    /// The nodes of all that a token of this kind passes, from the top of the stack down to its first `floor` words.
    pub fn put_passed(&mut self, work: &[u32], depth: usize, floor: usize, kind: u32)
        requires { Passed work.now depth floor kind }
        ensures { (above left : List Due) → Stacked (above ++ left) depth work.now → length left ≡ floor → PassesAll above kind → Grows (passed_items above) self.old self.new }
    {
        for i in (floor..depth).rev() {
            self.put_passing(work[i], kind);
        }
    }
}

/// Whether a text may end here: every thing due passes the end, which is of kind 0.
pub fn all_pass(work: &[u32], depth: usize) -> bool
    requires { Standing depth work.now }
    ensures { (ds : List Due) → Stacked ds depth work.now → EndSays ds result }
{
    for i in (0..depth).rev() {
        let Deed::Pass(_) = stack::does(work[i], 0, 0) else {
            return false;
        };
    }
    true
}
