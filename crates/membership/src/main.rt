// Asks each test of a character at every scalar value, one by one, and prints the members of each as merged ranges.
#![tactic(auto)]

use std::io;

// Of a surrogate, and past the last scalar value, no test holds.
fn holds<F: Fn(u32) -> bool>(test: &F, c: u32) -> bool
    requires { F.IsAlwaysCallable test.now }
{
    char::from_u32(c).is_some() && test(c)
}

// How many scalar values there are, how many the test holds of, and in how many ranges: one begins at a member behind none. Each is asked once.
fn print_counts<F: Fn(u32) -> bool>(rt: &impl Print, name: &str, test: &F) -> io::Result<()>
    requires { F.IsAlwaysCallable test.now }
{
    let asked = (0..=0x10FFFF)
        .filter(|c| char::from_u32(*c).is_some())
        .count();
    let mut members = 0u32;
    let mut ranges = 0u32;
    let mut inside = false;
    for c in 0..=0x10FFFF {
        let member = holds(test, c);
        members = members.wrapping_add(u32::from(member));
        ranges = ranges.wrapping_add(u32::from(member && !inside));
        inside = member;
    }
    println!(rt; "{name} asked {asked} members {members} ranges {ranges}")
}

// One place past the last scalar value ends a range that goes so far.
fn print_ranges<F: Fn(u32) -> bool>(rt: &impl Print, test: &F) -> io::Result<()>
    requires { F.IsAlwaysCallable test.now }
{
    let mut range = None;
    for c in 0..=0x110000u32 {
        range = match (range, holds(test, c)) {
            (None, true) => Some((c, c)),
            (Some((low, _)), true) => Some((low, c)),
            (Some((low, high)), false) => {
                println!(rt; "{low:04x} {high:04x}")?;
                None
            }
            (None, false) => None,
        };
    }
    Ok(())
}

fn print_test<F: Fn(u32) -> bool + Drop>(rt: &impl Print, name: &str, test: F) -> io::Result<()>
    requires { F.IsAlwaysCallable test }
{
    print_counts(rt, name, &test)?;
    print_ranges(rt, &test)
}

fn main(rt: HostRuntime) -> io::Result<()> {
    print_test(&rt, "is_xid_start", ucd::is_xid_start)?;
    print_test(&rt, "is_xid_continue", ucd::is_xid_continue)?;
    print_test(&rt, "is_emoji", ucd::is_emoji)?;
    print_test(&rt, "is_white_space", ucd::is_white_space)?;
    print_test(&rt, "is_whitespace", lexer::is_whitespace)?;
    print_test(&rt, "is_id_start", lexer::is_id_start)?;
    print_test(&rt, "is_id_continue", lexer::is_id_continue)
}
