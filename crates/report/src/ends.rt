//! The line of a run's end, of at most 128 bytes. `NoRule`, which no run of an accepted script ends with, has the number 0.
ghost use Rattle.rules.specs.declared.Stop.TheVariants.{Faulted, Full};
ghost use Rattle.rules.specs.declared.End.TheVariants.{Stopped};
ghost use Rattle.listed.specs.Listing.{end_line};
ghost use Rattle.text.specs.Written.{HasRoom, Adds};

use rules::{End, Stop};
use text::Page;

fn fault_line(page: &mut Page, number: u32, node: u32, steps: usize)
    requires { HasRoom 128 page.old }
    ensures { Adds 128 page.old (end_line (Stopped (Faulted number node)) steps) page.new }
{
    page.put_pair(b"end 2 fault", u64::from(number));
    page.put_pair(b" node", u64::from(node));
    page.put_last(b" steps", steps as u64);
}

fn room_line(page: &mut Page, number: u32, steps: usize)
    requires { HasRoom 128 page.old }
    ensures { Adds 128 page.old (end_line (Stopped (Full number)) steps) page.new }
{
    page.put_pair(b"end 3 room", u64::from(number));
    page.put_last(b" steps", steps as u64);
}

fn stop_line(page: &mut Page, stop: Stop, steps: usize)
    requires { HasRoom 128 page.old }
    ensures { Adds 128 page.old (end_line (Stopped stop) steps) page.new }
{
    match stop {
        Stop::Faulted(number, node) => fault_line(page, number, node, steps),
        Stop::Full(number) => room_line(page, number, steps),
        Stop::OutOfRange => page.put_last(b"end 5 steps", steps as u64),
        Stop::NoRule => page.put_last(b"end 0 steps", steps as u64),
    }
}

/// The end and how many steps were taken.
pub fn end_line(page: &mut Page, end: End, steps: usize)
    requires { HasRoom 128 page.old }
    ensures { Adds 128 page.old (end_line end steps) page.new }
{
    match end {
        End::Done => page.put_last(b"end 1 steps", steps as u64),
        End::UsedUp => page.put_last(b"end 4 steps", steps as u64),
        End::Stopped(stop) => stop_line(page, stop, steps),
    }
}
