//! An argument of the program as a value, with its bytes.
ghost use Rattle.std.specs.Prelude.{◌≤◌, length};
ghost use Rattle.filing.specs.Names.{most_name};

use std::rt::Env;

/// An argument of the program, of at most 4,096 bytes.
#[derive(Drop)]
pub struct Argument {
    room: [u8; crate::MOST_NAME],
    length: usize,
    ghost within: { length ≤ 4096 },
}

impl Argument {
    /// Argument `i` of the program, counted from its own name, which is argument 0. One that is missing or longer has no bytes.
    pub fn new<R: Env>(rt: &R, i: usize) -> Argument {
        let mut room = [0; crate::MOST_NAME];
        let length = crate::argument(rt, i, &mut room);
        Argument { room, length }
    }

    /// Its bytes.
    pub fn bytes(&self) -> &[u8]
        ensures { length result.now ≤ most_name }
    {
        &self.room[..self.length]
    }
}
