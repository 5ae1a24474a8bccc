//! The program `turns`: of the script in the first file it makes a choice file under the second name.
#![tactic(auto)]

use chooser::files::{choose_paths, print_usage};
use filing::{Argument, argument_count};
use std::rt::{Env, Files};

fn with_names<R: Env + Files + Print + Eprint>(rt: &R) {
    let script = Argument::new(rt, 1);
    let choices = Argument::new(rt, 2);
    // the choices would take the script's place, and the script would be lost
    if script.bytes() == choices.bytes() {
        return print_usage(rt);
    }
    choose_paths(rt, script.bytes(), choices.bytes());
}

fn main(rt: HostRuntime) {
    // argument 0 is the program's own name
    match argument_count(&rt) {
        3 => with_names(&rt),
        _ => print_usage(&rt),
    }
}
