// What is printed for small ledgers: each finding, and which of two comes first.
use crate::print::write_report;
use audit_search::audit;
use orders::write::write;
use orders::{Entry, NO_ENTRIES, Order, Record};
use protocol::Name;
use std::alloc::Global;
use std::process::Abort;
use std::test::Fail;

const A: Name = Name {
    home: 0,
    start: 1,
    number: 0,
};

const B: Name = Name {
    home: 1,
    start: 1,
    number: 7,
};

// Writes item 5 of house 0 to be 3, and item 6 of house 1 to be 2.
fn both() -> Order {
    let mut order = NO_ENTRIES;
    order.writes[0] = Entry { key: 5, amount: 3 };
    order.writes[1] = Entry {
        key: 65542,
        amount: 2,
    };
    order.write_count = 2;
    order
}

// The record that a letter stands for: `b` began; of A: `h` held, `d` done, `x` dropped, `r` ruled; of B: `H` held, `D` done.
fn record(letter: u8) -> Record {
    match letter {
        b'h' => Record::Held(A),
        b'd' => Record::Done(A),
        b'x' => Record::Dropped(A),
        b'r' => Record::Ruled(A),
        b'H' => Record::Held(B),
        b'D' => Record::Done(B),
        _ => Record::Began,
    }
}

// Adds the record to the file.
fn push_record(rt: &impl Abort, file: &mut Vec<u8>, record: Record) -> Result<(), Fail> {
    let mut bytes = [0; 64];
    let len = write(&mut bytes, record, &both())?;
    assert!(rt; len <= 64);
    file.extend_from_slice(&bytes[0..len])?;
    Ok(())
}

// The file of the records that the letters stand for.
fn file(rt: &impl Abort, heap: Global, letters: &str) -> Result<Vec<u8>, Fail> {
    let mut all = Vec::new(heap);
    for letter in letters.as_bytes() {
        push_record(rt, &mut all, record(*letter))?;
    }
    Ok(all)
}

// What is printed of two houses with these records.
fn check_audit(
    rt: &impl Abort,
    heap: Global,
    first: &str,
    second: &str,
    said: &str,
) -> Result<(), Fail> {
    let files = vec![in heap; file(rt, heap, first)?, file(rt, heap, second)?]?;
    let mut out = Vec::new(heap);
    write_report(&mut out, &audit(heap, files.as_slice()))?;
    assert_eq!(rt; out.as_slice(), said.as_bytes(), "{first} and {second}");
    Ok(())
}

#[test]
fn findings(rt: HostRuntime) -> Result<(), Fail> {
    let table = [
        ("bh", "bh", "sound\n"),
        ("bhr", "bh", "sound\n"),
        ("bhrd", "bh", "sound\n5 3\n"),
        ("bhrd", "bhd", "sound\n5 3\n65542 2\n"),
        ("", "", "sound\n"),
        ("bh", "bhd", "done without ruling 1 0 1 0\n"),
        ("bhd", "bhd", "done without ruling 0 0 1 0\n"),
        ("bhr", "bhx", "ruled and missing 1 0 1 0\n"),
        ("br", "bhx", "ruled and missing 0 0 1 0\n"),
        ("bhrd", "b", "ruled and missing 1 0 1 0\n"),
        ("br", "bHD", "done without ruling 1 1 1 7\n"),
        ("d", "bhd", "refused 3 0\n"),
        ("bhd", "h", "refused 3 1\n"),
    ];
    for (first, second, said) in table {
        check_audit(&rt, rt.alloc(), first, second, said)?;
    }
    Ok(())
}
