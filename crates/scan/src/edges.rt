// The edges of the formats: each number at its limit and one past it, counts, lengths, and what is torn at the end of a file.
use crate::answers::{BAD_FORM, CUT, RANGE, of_file, of_message, of_record};
use orders::read::ReadError;
use orders::write::write;
use orders::{Entry, NO_ENTRIES, Order, Record, Refusal};
use protocol::Name;

// The tables name a refusal by its variant; docs/FORMAT.md has its number.
#[test]
fn numbers(rt: HostRuntime) {
    assert_eq!(rt; Refusal::BadForm.number(), 1);
    assert_eq!(rt; Refusal::OutOfRange.number(), 2);
}

// What a done record with this name is read as.
fn of_name(houses: u8, home: u8, start: u32, number: u32) -> Result<usize, ReadError> {
    let mut out = [0; 10];
    let name = Name {
        home,
        start,
        number,
    };
    let _ = write(&mut out, Record::Done(name), &NO_ENTRIES);
    of_record(houses, &out)
}

#[test]
fn names(rt: HostRuntime) {
    let table = [
        (4, 0, 1, 0, Ok(10)),
        (4, 3, 65535, 65535, Ok(10)),
        (4, 4, 1, 0, RANGE),
        (4, 3, 0, 0, RANGE),
        (4, 3, 65536, 0, RANGE),
        (4, 3, 1, 65536, RANGE),
        (1, 0, 1, 0, Ok(10)),
        (16, 15, 1, 0, Ok(10)),
        (0, 0, 1, 0, RANGE),
        (17, 0, 1, 0, RANGE),
    ];
    for (houses, home, start, number, answer) in table {
        assert_eq!(rt;
            of_name(houses, home, start, number),
            answer,
            "{houses} houses: {home} {start} {number}"
        );
    }
}

// A held record, or a hold message, of (0, 1, 0) with so many reads and writes of key 0.
fn order(kind: u8, reads: u8, writes: u8) -> [u8; 276] {
    let mut bytes = [0; 276];
    bytes[0] = kind;
    bytes[5] = 1;
    bytes[10] = reads;
    bytes[11] = writes;
    bytes
}

#[test]
fn counts(rt: HostRuntime) {
    let table = [
        (0, 0, 12, Ok(12)),
        (16, 0, 140, Ok(140)),
        (0, 16, 140, Ok(140)),
        (16, 16, 268, Ok(268)),
        (16, 16, 267, CUT),
        (17, 0, 276, BAD_FORM),
        (0, 17, 276, BAD_FORM),
        (17, 0, 11, BAD_FORM),
        (16, 17, 12, BAD_FORM),
        (16, 17, 11, CUT),
        (17, 17, 10, CUT),
    ];
    for (reads, writes, len, answer) in table {
        assert!(rt; len <= 276);
        assert_eq!(rt;
            of_record(1, &order(2, reads, writes)[0..len]),
            answer,
            "{reads} reads, {writes} writes, {len} bytes"
        );
    }
}

// What a held record is read as that read and writes a shelf of such a key, at the largest amount.
fn of_keys(read: u32, written: u32) -> Result<usize, ReadError> {
    let name = Name {
        home: 0,
        start: 1,
        number: 0,
    };
    let order = Order {
        reads: [entry(read); 16],
        read_count: 1,
        writes: [entry(written); 16],
        write_count: 1,
    };
    let mut out = [0; 28];
    let _ = write(&mut out, Record::Held(name), &order);
    of_record(2, &out)
}

fn entry(key: u32) -> Entry {
    Entry {
        key,
        amount: u32::MAX,
    }
}

#[test]
fn keys(rt: HostRuntime) {
    let table = [
        (0, Ok(28)),
        (4095, Ok(28)),
        (4096, RANGE),
        (65536 + 4095, Ok(28)),
        (65536 + 4096, RANGE),
        (2 * 65536, RANGE),
        (256 * 65536, RANGE),
    ];
    for (key, answer) in table {
        assert_eq!(rt; of_keys(key, 0), answer, "{key} read");
        assert_eq!(rt; of_keys(0, key), answer, "{key} written");
    }
}

#[test]
fn messages(rt: HostRuntime) {
    let table = [
        ([7, 0, 0, 0, 0, 0, 1, 0, 0, 0, 0], Ok(11)),
        ([7, 1, 0, 0, 0, 0, 1, 0, 0, 0, 0], Ok(11)),
        ([7, 2, 0, 0, 0, 0, 1, 0, 0, 0, 0], RANGE),
        ([7, 0, 2, 0, 0, 0, 1, 0, 0, 0, 0], RANGE),
        ([8, 0, 0, 0, 0, 0, 1, 0, 0, 0, 0], Ok(11)),
        ([8, 1, 0, 0, 0, 0, 1, 0, 0, 0, 0], Ok(11)),
        ([8, 2, 0, 0, 0, 0, 1, 0, 0, 0, 0], BAD_FORM),
        ([8, 1, 0, 0, 0, 0, 0, 0, 0, 0, 0], RANGE),
        ([1, 0, 0, 0, 0, 0, 1, 0, 0, 0, 0], BAD_FORM),
        ([9, 0, 0, 0, 0, 0, 1, 0, 0, 0, 0], BAD_FORM),
    ];
    for (bytes, answer) in table {
        assert_eq!(rt; of_message(2, &bytes), answer, "{bytes:?}");
    }
    assert_eq!(rt; of_message(2, &order(6, 16, 16)[0..268]), Ok(268));
    assert_eq!(rt; of_message(2, &order(6, 17, 0)[0..148]), BAD_FORM);
    assert_eq!(rt; of_message(0, &[7, 0, 0, 0, 0, 0, 1, 0, 0, 0, 0]), RANGE);
}

// Behind a began record: bytes that are torn are cut off, unless they can't be a record.
#[test]
fn tails(rt: HostRuntime) {
    let many_reads = [1, 2, 0, 0, 0, 0, 1, 0, 0, 0, 0, 17];
    let many_writes = [1, 2, 0, 0, 0, 0, 1, 0, 0, 0, 0, 16, 17];
    let range = [1, 3, 9, 0, 0, 0, 1, 0, 0, 0, 0];
    assert_eq!(rt; of_file(4, &[]), Ok(0));
    assert_eq!(rt; of_file(4, &[1, 1, 2]), Ok(2));
    assert_eq!(rt; of_file(4, &[1, 0]), BAD_FORM, "no kind 0");
    assert_eq!(rt; of_file(4, &[1, 6]), BAD_FORM, "a message's kind");
    assert_eq!(rt; of_file(4, &many_reads[0..11]), Ok(1));
    assert_eq!(rt; of_file(4, &many_reads), BAD_FORM);
    assert_eq!(rt; of_file(4, &many_writes[0..12]), Ok(1));
    assert_eq!(rt; of_file(4, &many_writes), BAD_FORM);
    assert_eq!(rt;
        of_file(4, &range[0..10]),
        Ok(1),
        "the range is looked at in whole records"
    );
    assert_eq!(rt; of_file(4, &range), RANGE);
    assert_eq!(rt; of_file(17, &[1]), RANGE);
}
