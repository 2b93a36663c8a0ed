//! Model files: which are read, which are refused and where, and what is written.
use crate::models::lone;
use file::write::write;
use legend::Legend;
use model::game::{Game, Marked};
use model::ring::Ring;
use model::table::Table;
use reader::{CopyFault, copy, read, restore};
use refusal::Numbered;
use std::process::Abort;
use std::test::Fail;

/// The table of one state with these counts.
fn table(agents: u8, counts: [u8; 6]) -> Result<Table, Fail> {
    Ok(lone(agents, counts).ok_or("no such table")?)
}

/// The first `count` of three names.
fn legend(rt: &impl Abort, count: u8) -> Legend {
    let mut legend = Legend::empty();
    let names = [*b"home    ", *b"b2      ", *b"c       "];
    for name in names.into_iter().take(count.into()) {
        assert!(rt; legend.add(name).is_some());
    }
    legend
}

/// The file is refused with this number at this place; the table and the legend stay.
fn refused(rt: &impl Abort, input: &[u8], number: u8, place: usize) -> Result<(), Fail> {
    let mut table = table(3, [2, 1, 2, 0, 0, 0])?;
    let mut names = legend(rt, 1);
    let Err(fault) = read(input, &mut table, &mut names) else {
        return Err(Fail::new("the file is accepted"));
    };
    assert_eq!(rt; fault.number(), number);
    assert_eq!(rt; fault.place, place);
    assert!(rt; table.states() == 1 && table.agents() == 3);
    assert_eq!(rt; table.marks(0), Some(5));
    assert_eq!(rt; table.choices(0, 2), Some(2));
    assert!(rt; names.count() == 1);
    assert_eq!(rt; names.find(b"home"), Some(0));
    Ok(())
}

/// The file of one state and one agent is read, with so many names; so many bytes, each 255, are the rest.
fn accepted(rt: &impl Abort, input: &[u8], count: u8, after: usize) -> Result<Legend, Fail> {
    let mut table = table(3, [2, 1, 2, 0, 0, 0])?;
    let mut names = legend(rt, 3);
    let rest = read(input, &mut table, &mut names)?;
    assert_eq!(rt; rest.len(), after);
    assert!(rt; rest.iter().all(|byte| *byte == 255));
    assert!(rt; table.states() == 1 && table.agents() == 1);
    assert_eq!(rt; table.marks(0), Some(0));
    assert_eq!(rt; table.choices(0, 0), Some(1));
    assert_eq!(rt; table.out(0, 0), Some(0));
    assert_eq!(rt; table.out(0, 1), None);
    assert!(rt; names.count() == count);
    Ok(names)
}

/// The shortest file, and a byte after it.
pub(crate) fn shortest() -> [u8; 19] {
    [1, 1, 1, 0, 3, 0, 0, 1, 0, 0, 0, 0, 0, 4, 0, 5, 0, 1, 255]
}

#[test]
fn lengths(rt: HostRuntime) -> Result<(), Fail> {
    let bytes = shortest();
    accepted(&rt, &bytes[..18], 0, 0)?;
    accepted(&rt, &bytes, 0, 1)?;
    for len in 0..18 {
        let place = match len {
            ..4 => 0,
            ..13 => 4,
            ..15 => 13,
            _ => 15,
        };
        refused(&rt, &bytes[..len], 1, place)?;
    }
    Ok(())
}

/// The shortest file with another byte at `at` is refused with this number at this place.
fn broken(rt: &impl Abort, at: usize, byte: u8, number: u8, place: usize) -> Result<(), Fail> {
    let mut bytes = shortest();
    assert!(rt; at < 19);
    bytes[at] = byte;
    refused(rt, &bytes, number, place)
}

#[test]
fn rules(rt: HostRuntime) -> Result<(), Fail> {
    broken(&rt, 0, 0, 2, 0)?;
    broken(&rt, 0, 3, 2, 0)?;
    broken(&rt, 1, 0, 3, 0)?;
    broken(&rt, 1, 7, 3, 0)?;
    broken(&rt, 2, 0, 3, 0)?;
    broken(&rt, 2, 65, 3, 0)?;
    broken(&rt, 3, 17, 3, 0)?;
    broken(&rt, 3, 1, 2, 4)?;
    broken(&rt, 4, 2, 2, 4)?;
    broken(&rt, 4, 6, 2, 4)?;
    broken(&rt, 5, 1, 5, 4)?;
    broken(&rt, 6, 1, 5, 4)?;
    broken(&rt, 7, 0, 6, 4)?;
    broken(&rt, 7, 65, 6, 4)?;
    broken(&rt, 8, 1, 6, 4)?;
    broken(&rt, 12, 1, 6, 4)?;
    broken(&rt, 7, 2, 2, 15)?;
    broken(&rt, 13, 5, 2, 13)?;
    broken(&rt, 14, 1, 7, 13)?;
    broken(&rt, 15, 4, 2, 15)?;
    broken(&rt, 16, 1, 8, 15)?;
    broken(&rt, 17, 0, 8, 15)?;
    broken(&rt, 17, 2, 8, 15)?;
    refused(&rt, &[255], 2, 0)?;
    refused(&rt, &[1, 2, 1, 0, 3, 0, 0, 5, 13, 0, 0, 0, 0], 6, 4)?;
    refused(&rt, &[1, 2, 1, 0, 3, 0, 1, 5, 13, 0, 0, 0, 0], 5, 4)
}

/// The shortest file with two marks: `a`, and this name with this number.
fn named(number: u8, name: [u8; 8]) -> [u8; 38] {
    let mut bytes = [0; 38];
    bytes[..15].copy_from_slice(b"\x01\x01\x01\x02\x02\x00a       \x02");
    bytes[15] = number;
    bytes[16..24].copy_from_slice(&name);
    bytes[24..].copy_from_slice(&shortest()[4..18]);
    bytes
}

#[test]
fn names(rt: HostRuntime) -> Result<(), Fail> {
    for name in [*b"true1   ", *b"z9      ", *b"abcdefgh"] {
        let read = accepted(&rt, &named(1, name), 2, 0)?;
        assert_eq!(rt; read.name(1), Some(name));
        assert_eq!(rt; read.find(b"a"), Some(0));
        assert_eq!(rt; read.find(b"home"), None);
    }
    for name in [
        *b"a       ",
        *b"true    ",
        *b"b c     ",
        *b" b      ",
        *b"1b      ",
        *b"B       ",
        *b"        ",
    ] {
        refused(&rt, &named(1, name), 4, 14)?;
    }
    refused(&rt, &named(0, *b"b       "), 4, 14)?;
    refused(&rt, &named(2, *b"b       "), 4, 14)
}

#[test]
fn widest(rt: HostRuntime) -> Result<(), Fail> {
    let mut bytes = [9; 256];
    let made = table(2, [8, 8, 0, 0, 0, 0])?;
    assert_eq!(rt; write(&made, &legend(&rt, 3), &mut bytes)?, 174);
    let mut table = Table::blank();
    let mut names = Legend::empty();
    assert_eq!(rt; read(&bytes, &mut table, &mut names)?.len(), 82);
    assert!(rt; table.states() == 1 && table.agents() == 2);
    assert_eq!(rt; table.marks(0), Some(5));
    assert_eq!(rt; table.choices(0, 1), Some(8));
    assert_eq!(rt; table.out(0, 63), Some(0));
    assert_eq!(rt; table.out(0, 64), None);
    assert_eq!(rt; names.find(b"c"), Some(2));
    Ok(())
}

/// A ring of 6 positions isn't written with so many names into so many bytes, which stay.
fn unwritten(rt: &impl Abort, count: u8, room: usize, number: u8) -> Result<(), Fail> {
    let ring = Ring::new(6)?;
    let mut bytes = [9; 256];
    assert!(rt; room <= 256);
    let Err(fault) = write(&ring, &legend(rt, count), &mut bytes[..room]) else {
        return Err(Fail::new("the ring is written"));
    };
    assert_eq!(rt; fault.number(), number);
    assert!(rt; bytes.iter().all(|byte| *byte == 9));
    Ok(())
}

#[test]
fn round(rt: HostRuntime) -> Result<(), Fail> {
    unwritten(&rt, 0, 256, 35)?;
    unwritten(&rt, 0, 0, 35)?;
    unwritten(&rt, 1, 0, 36)?;
    unwritten(&rt, 1, 118, 36)?;
    let ring = Ring::new(6)?;
    let mut bytes = [9; 256];
    assert_eq!(rt; write(&ring, &legend(&rt, 1), &mut bytes)?, 119);
    assert!(rt; bytes[119..].iter().all(|byte| *byte == 9));
    let mut table = Table::blank();
    let mut names = Legend::empty();
    assert_eq!(rt; read(&bytes[..119], &mut table, &mut names)?.len(), 0);
    assert!(rt; table.states() == 6 && table.agents() == 2);
    for s in 0..7 {
        assert_eq!(rt; table.marks(s), ring.marks(s));
        assert_eq!(rt; table.choices(s, 1), ring.choices(s, 1));
        for j in 0..5 {
            assert_eq!(rt; table.out(s, j), ring.out(s, j));
        }
    }
    assert!(rt; names.count() == 1);
    assert_eq!(rt; names.find(b"home"), Some(0));
    Ok(())
}

#[test]
fn copies(rt: HostRuntime) -> Result<(), Fail> {
    let input = shortest();
    let mut bytes = [9; 20];
    let Err(CopyFault::Write(fault)) = copy(&input, &mut bytes[..17]) else {
        return Err(Fail::new("there is no room for the file"));
    };
    assert_eq!(rt; fault.number(), 36);
    let Err(CopyFault::Read(fault)) = copy(&input[..17], &mut bytes) else {
        return Err(Fail::new("the file isn't whole"));
    };
    assert!(rt; fault.number() == 1 && fault.place == 15);
    assert!(rt; bytes.iter().all(|byte| *byte == 9));
    assert_eq!(rt; copy(&input, &mut bytes)?, 18);
    assert_eq!(rt; &bytes[..18], &input[..18]);
    assert!(rt; bytes[18] == 9 && bytes[19] == 9);
    Ok(())
}

#[test]
fn restores(rt: HostRuntime) -> Result<(), Fail> {
    let made = table(2, [2, 3, 0, 0, 0, 0])?;
    let mut bytes = [9; 64];
    let Err(fault) = restore(&made, &legend(&rt, 3), &mut bytes[..57]) else {
        return Err(Fail::new("there is no room for the file"));
    };
    assert_eq!(rt; fault.number(), 36);
    assert!(rt; bytes[0] == 9);
    let (back, names) = restore(&made, &legend(&rt, 3), &mut bytes)?;
    assert_eq!(rt; back.choices(0, 1), Some(3));
    assert_eq!(rt; back.marks(0), Some(5));
    assert_eq!(rt; names.find(b"b2"), Some(1));
    assert!(rt; bytes[0] == 1 && bytes[57] == 6 && bytes[58] == 9);
    Ok(())
}
