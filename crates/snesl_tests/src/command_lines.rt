// What command lines say: tables of them, as text.

use flow_drives::{Config, Drive};
use snesl_run::command_line::settings;
use std::alloc::{AllocError, Global};
use std::process::Abort;
use std::test::Fail;

// What a configuration says: the drive, the capacity, the chunk, the number of threads, the idle turns, and the share of each node.
type Said<'a> = (Drive, [usize; 4], &'a [u8]);

// Each a command line, with a bar between two words, or none for no word; and what it says.
const LAWFUL: [(&str, Said<'static>); 13] = [
    ("snesl", (Drive::Rings, [256, 16, 2, 64], &[0, 1])),
    ("", (Drive::Rings, [256, 16, 2, 64], &[0, 1])),
    ("snesl|--", (Drive::Rings, [256, 16, 2, 64], &[0, 1])),
    ("--help", (Drive::Rings, [256, 16, 2, 64], &[0, 1])),
    (
        "snesl|--drive=rings",
        (Drive::Rings, [256, 16, 2, 64], &[0, 1]),
    ),
    (
        "snesl|--drive=rounds",
        (Drive::Rounds, [256, 16, 2, 64], &[0, 1]),
    ),
    (
        "snesl|--drive|serial|--deal|0110",
        (Drive::Serial, [256, 16, 2, 64], &[0, 1, 1, 0]),
    ),
    (
        "snesl|--deal|09af|--threads|16",
        (Drive::Rings, [256, 16, 16, 64], &[0, 9, 10, 15]),
    ),
    (
        "snesl|--idle|+7|--chunk|0008",
        (Drive::Rings, [256, 8, 2, 7], &[0, 1]),
    ),
    ("|--threads|3", (Drive::Rings, [256, 16, 3, 64], &[0, 1, 2])),
    // The least and the greatest of each.
    (
        "snesl|--capacity|1|--chunk|1|--threads|1|--idle|1",
        (Drive::Rings, [1, 1, 1, 1], &[0]),
    ),
    (
        "x|--capacity=65536|--chunk=1024|--threads=16|--idle=1000000",
        (
            Drive::Rings,
            [65_536, 1_024, 16, 1_000_000],
            &[0, 1, 2, 3, 4, 5, 6, 7, 8, 9, 10, 11, 12, 13, 14, 15],
        ),
    ),
    (
        "snesl|--deal|0101010101010101010101010101010101010101010101010101010101010101",
        (Drive::Rings, [256, 16, 2, 64], &ALTERNATING),
    ),
];

const ALTERNATING: [u8; 64] = [
    0, 1, 0, 1, 0, 1, 0, 1, 0, 1, 0, 1, 0, 1, 0, 1, 0, 1, 0, 1, 0, 1, 0, 1, 0, 1, 0, 1, 0, 1, 0, 1,
    0, 1, 0, 1, 0, 1, 0, 1, 0, 1, 0, 1, 0, 1, 0, 1, 0, 1, 0, 1, 0, 1, 0, 1, 0, 1, 0, 1, 0, 1, 0, 1,
];

// Each line a command line that is refused.
const REFUSED: &str = "\
snesl|--capacity|0
snesl|--capacity|65537
snesl|--chunk|0
snesl|--chunk|1025
snesl|--threads|0
snesl|--threads|17
snesl|--idle|0
snesl|--idle|1000001
snesl|--idle|18446744073709551617
snesl|--capacity
snesl|--capacity=
snesl|--capacity|
snesl|--capacity|ten
snesl|--capacity| 5
snesl|--capacity|-5
snesl|--capacity=-5
snesl|--capacity|5|--capacity|5
snesl|--capacity|5|6
snesl|word
snesl|
snesl|-
snesl|--|word
snesl|--cap|5
snesl|-c|5
snesl|--help
snesl|-h
snesl|--version
snesl|-V
snesl|help
snesl|--drive|Rounds
snesl|--drive|ring
snesl|--drive|Serial
snesl|--drive=
snesl|--deal|2
snesl|--deal=
snesl|--threads|16|--deal|F
snesl|--threads|16|--deal|g
snesl|--deal|00000000000000000000000000000000000000000000000000000000000000000
snesl|--threads|1|--deal|01
snesl|--deal|0,1
snesl|--capacity|5.0
snesl|--capacity|0x10
snesl|--capacity|1_000
snesl|--capacity|--chunk|5
snesl|--capacity=5=6
snesl|--deal|é
";

// The words of a line.
fn words_of<'a>(alloc: Global, line: &'a str) -> Result<Vec<&'a str>, AllocError> {
    let mut words = Vec::new(alloc);
    if !line.is_empty() {
        for word in line.split('|') {
            words.push(word)?;
        }
    }
    Ok(words)
}

// What a configuration says.
fn said_of(config: &Config) -> Said<'_> {
    let (capacity, chunk) = (config.capacity, config.chunk);
    let numbers = [capacity, chunk, config.threads, config.idle];
    (config.drive, numbers, config.share.as_slice())
}

// Asserts what a line says, or the number of its refusal.
fn assert_line(
    rt: &impl Abort,
    alloc: Global,
    line: &str,
    wanted: Result<Said<'_>, u8>,
) -> Result<(), AllocError> {
    let words = words_of(alloc, line)?;
    let config = settings(alloc, &words);
    let said = match &config {
        Ok(config) => Ok(said_of(config)),
        Err(refusal) => Err(refusal.number()),
    };
    assert_eq!(rt; said, wanted, "{line}");
    Ok(())
}

#[test]
fn lines(rt: HostRuntime) -> Result<(), Fail> {
    for (line, said) in LAWFUL {
        assert_line(&rt, rt.alloc(), line, Ok(said))?;
    }
    assert!(rt; REFUSED.lines().count() == 46);
    for line in REFUSED.lines() {
        assert_line(&rt, rt.alloc(), line, Err(10))?;
    }
    Ok(())
}
