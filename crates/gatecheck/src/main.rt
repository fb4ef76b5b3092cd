//! Reads a class body from standard input and prints the gate's reports and its verdict.

#![tactic(auto)]

ghost use Rattle.std.specs.Prelude.{◌≤◌, IfOk, vec_len};

use gate::judge;
use list::list::List;
use std::io::Read;

// One byte more than the longest text, so that a longer one is seen to be longer and no more of it is held.
const MOST: usize = 65_537;

// The places of each list.
const PLACES: usize = 256;

fn read_input(rt: &HostRuntime) -> anyhow::Result<Vec<u8>>
    ensures { IfOk result (λ text. vec_len text ≤ 65537) }
{
    // Room for one byte more than is read, so that the vector never grows once a byte is read.
    let mut text = Vec::with_capacity(rt.alloc(), MOST + 1)?;
    rt.stdin().take(MOST as u64).read_to_end(&mut text)?;
    // No more is read, but `read_to_end` does not say so where nothing is known of the input.
    text.truncate(MOST);
    Ok(text)
}

fn main(rt: HostRuntime) -> anyhow::Result<()> {
    let text = read_input(&rt)?;
    let mut report_room = vec![in rt.alloc(); blanks::report(); PLACES]?;
    let mut member_room = vec![in rt.alloc(); blanks::member(); PLACES]?;
    let mut reports = List::new(report_room.as_mut_slice());
    let mut members = List::new(member_room.as_mut_slice());
    let verdict = judge(text.as_slice(), &mut reports, &mut members);
    for report in reports.as_slice() {
        println!(rt; "{report}")?;
    }
    println!(rt; "{verdict}")?;
    Ok(())
}
