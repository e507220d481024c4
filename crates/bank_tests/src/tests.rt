//! Small examples of the banks and the layers.
use crate::{lend_open, lend_packed, strip_over_strip, through_open, through_packed};
use banks::{Bank, OpenBank, PackedBank, PatchBoard, Refusal, Strip};
use signals::{Doubtful, Plain};
use std::process::Abort;
use std::test::Fail;

/// The open bank over so many slots counts so many points.
fn open_counts(rt: &impl Abort, given: usize, count: usize) {
    let mut slots = [Plain::Off; 800];
    assert!(rt; given <= 800);
    let bank = OpenBank::over(&mut slots[0..given]);
    assert_eq!(rt; bank.count(), count);
}

#[test]
fn open_count(rt: HostRuntime) {
    let cases = [
        (0, 0),
        (1, 1),
        (255, 255),
        (256, 256),
        (767, 767),
        (768, 768),
        (769, 768),
        (800, 768),
    ];
    for (given, count) in cases {
        open_counts(&rt, given, count);
    }
}

#[test]
fn open_edge(rt: HostRuntime) {
    let mut slots = [Plain::Off; 769];
    assert_eq!(rt; lend_open(&mut slots, 767, Plain::On), Some(Plain::On));
    assert_eq!(rt; lend_open(&mut slots, 768, Plain::On), None);
    assert_eq!(rt; slots[766], Plain::Off);
    assert_eq!(rt; slots[767], Plain::On);
    assert_eq!(rt; slots[768], Plain::Off);
}

/// The packed bank over so many bytes counts so many points.
fn packed_counts(rt: &impl Abort, given: usize, count: usize) {
    let mut bytes = [0u8; 200];
    assert!(rt; given <= 200);
    let bank = PackedBank::over(&mut bytes[0..given]);
    assert_eq!(rt; bank.count(), count);
}

#[test]
fn packed_count(rt: HostRuntime) {
    let cases = [
        (0, 0),
        (1, 4),
        (64, 256),
        (191, 764),
        (192, 768),
        (193, 768),
    ];
    for (given, count) in cases {
        packed_counts(&rt, given, count);
    }
}

#[test]
fn packed_bits(rt: HostRuntime) {
    let mut bytes = [0b11_00_01_10u8, 0b11_11_11_11u8];
    let bank = PackedBank::over(&mut bytes);
    let cases = [
        (0, Some(Doubtful::Unknown)),
        (1, Some(Doubtful::Off)),
        (2, Some(Doubtful::On)),
        (3, Some(Doubtful::Unknown)),
        (8, None),
    ];
    for (index, signal) in cases {
        assert_eq!(rt; bank.read(index), signal);
    }
    assert_eq!(rt;
        lend_packed(&mut bytes, 5, Doubtful::On),
        Some(Doubtful::On)
    );
    assert_eq!(rt;
        lend_packed(&mut bytes, 7, Doubtful::Unknown),
        Some(Doubtful::Unknown)
    );
    assert_eq!(rt; bytes[0], 0b11_00_01_10);
    assert_eq!(rt; bytes[1], 0b11_01_11_10);
}

/// A marked input is inverted if it is below the count.
fn strip_reads(
    rt: &impl Abort,
    given: usize,
    input: usize,
    signal: Option<Plain>,
) -> Result<(), Fail> {
    let mut slots = [Plain::Off; 800];
    assert!(rt; given <= 800);
    let mut strip = Strip::over(OpenBank::over(&mut slots[0..given]));
    strip.mark(input, true)?;
    assert_eq!(rt; strip.read(input), signal);
    assert_eq!(rt; strip.read(256), (given > 256).then_some(Plain::Off));
    Ok(())
}

#[test]
fn strip(rt: HostRuntime) -> Result<(), Fail> {
    let cases = [
        (0, 0, None),
        (1, 0, Some(Plain::On)),
        (255, 255, None),
        (256, 255, Some(Plain::On)),
        (768, 255, Some(Plain::On)),
    ];
    for (given, input, signal) in cases {
        strip_reads(&rt, given, input, signal)?;
    }
    Ok(())
}

/// The inputs 0 and 255 change places if the bank below has all inputs.
fn board_reads(rt: &impl Abort, given: usize, first: Plain) -> Result<(), Fail> {
    let mut slots = [Plain::Off; 800];
    slots[0] = Plain::On;
    assert!(rt; given <= 800);
    let mut board = PatchBoard::over(OpenBank::over(&mut slots[0..given]));
    board.exchange(0, 255)?;
    assert_eq!(rt; board.read(0), Some(first));
    board.exchange(255, 0)?;
    assert_eq!(rt; board.read(0), Some(Plain::On));
    Ok(())
}

#[test]
fn board(rt: HostRuntime) -> Result<(), Fail> {
    let cases = [
        (1, Plain::On),
        (255, Plain::On),
        (256, Plain::Off),
        (767, Plain::Off),
        (768, Plain::Off),
        (800, Plain::Off),
    ];
    for (given, first) in cases {
        board_reads(&rt, given, first)?;
    }
    Ok(())
}

#[test]
fn refusals(rt: HostRuntime) {
    let mut slots = [Plain::Off; 256];
    let mut strip = Strip::over(OpenBank::over(&mut slots));
    assert_eq!(rt; strip.mark(256, true), Err(Refusal::NoSuchInput));
    let mut board = PatchBoard::over(strip);
    assert_eq!(rt; board.exchange(0, 256), Err(Refusal::NoSuchInput));
    assert_eq!(rt; board.exchange(256, 0), Err(Refusal::NoSuchInput));
    assert_eq!(rt; Refusal::NoSuchInput.number(), 15);
}

#[test]
fn piles(rt: HostRuntime) {
    let mut slots = [Plain::On; 256];
    assert_eq!(rt;
        through_open(&mut slots, 3, 200, Plain::On),
        Some(Plain::On)
    );
    assert_eq!(rt; slots[3], Plain::On);
    assert_eq!(rt; slots[200], Plain::Off);
    let mut bytes = [0u8; 64];
    assert_eq!(rt;
        through_packed(&mut bytes, 3, 200, Doubtful::Off),
        Some(Doubtful::Off)
    );
    assert_eq!(rt; bytes[0], 0);
    assert_eq!(rt; bytes[50], 0b01_00_00_00);
    assert_eq!(rt;
        strip_over_strip(OpenBank::over(&mut slots), 3, 3),
        Some(Plain::On)
    );
    assert_eq!(rt;
        strip_over_strip(PackedBank::over(&mut bytes), 200, 200),
        Some(Doubtful::On)
    );
}
