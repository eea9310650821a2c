// A report's values in words, for the rehearsal desk.
#![tactic(auto)]

use amounts::put_amount;
use dictionary::{Finding, Unclean};
use print::print_bytes;
use readback::report_values;
use std::io;

// What stands before each value of a report, in the order of their places, and whether it is an amount.
const NAMES: [(&str, bool); 11] = [
    (" report ", false),
    (": trade type ", false),
    (", made at ", false),
    (", quantity ", true),
    (" at price ", true),
    (", settled on ", false),
    (", match type ", false),
    (", instrument ", false),
    (" by source ", false),
    (", side ", false),
    (", execution ", false),
];

// The bytes of a body from a start to an end.
fn tell_part(rt: &impl Print, body: &[u8], start: u64, end: u64) -> io::Result<()> {
    match body.get(start as usize..end as usize) {
        Some(part) => print_bytes(rt, part),
        None => Ok(()),
    }
}

// An amount behind its name.
fn tell_amount(rt: &impl Print, name: &str, whole: u64, places: u64) -> io::Result<()> {
    if 999_999_999_999_999 < whole || 8 < places {
        return Ok(());
    }
    let mut digits = [0u8; 24];
    let end = put_amount(&mut digits, 0, whole, places);
    rt.print(name)?;
    print_bytes(rt, &digits[..end])
}

// One party: its identifier, the source of that, and its role.
fn tell_party(rt: &impl Print, party: &[u64; 6], body: &[u8]) -> io::Result<()> {
    let [name, name_end, source, source_end, role, role_end] = *party;
    rt.print("; party ")?;
    tell_part(rt, body, name, name_end)?;
    rt.print(" by source ")?;
    tell_part(rt, body, source, source_end)?;
    rt.print(" in role ")?;
    tell_part(rt, body, role, role_end)
}

// (At a text's place stand whether it is given, its start and its end; at an amount's whether it is given, its whole number and its places.)
fn tell_values(rt: &impl Print, values: &[u64; 82], body: &[u8]) -> io::Result<()> {
    let (places, _) = values[..33].as_chunks::<3>();
    for ((name, is_amount), [given, first, second]) in NAMES.iter().zip(places) {
        if *is_amount {
            tell_amount(rt, name, *first, *second)?;
        } else if *given != 0 {
            rt.print(name)?;
            tell_part(rt, body, *first, *second)?;
        }
    }
    let (parties, _) = values[34..].as_chunks::<6>();
    for party in parties.iter().take(values[33] as usize) {
        tell_party(rt, party, body)?;
    }
    rt.println("")
}

// What the library reads in the body of a report: its values, or why there are none.
pub fn tell_report(rt: &impl Print, body: &[u8]) -> io::Result<()> {
    let mut values = [0u64; 82];
    match report_values(body, &mut values) {
        Ok(()) => tell_values(rt, &values, body),
        Err(Unclean::Found(Finding { reason, tag })) => println!(rt; " reason {reason}, tag {tag}"),
        Err(Unclean::NoBody) => rt.println(" refusal 10"),
    }
}
