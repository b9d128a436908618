// An example of each record and each message with its bytes, as docs/FORMAT.md has them: written, read, cut at every byte, and with a byte behind.
use crate::answers::{BAD_FORM, CUT, of_file, of_message, of_record};
use crate::checksum::scan_checksum;
use orders::encode::Encode;
use orders::read::ReadError;
use orders::write::{append, write};
use orders::{Entry, Message, NO_ENTRIES, Order, Record};
use protocol::Name;
use std::process::Abort;
use std::test::Fail;

const NAME: Name = Name {
    home: 1,
    start: 2,
    number: 515,
};

// Read the shelf of item 5 of house 0 at 3; writes item 4,095 of house 1 to be 65,538.
const ORDER: Order = Order {
    reads: [Entry { key: 5, amount: 3 }; 16],
    read_count: 1,
    writes: [Entry {
        key: 69631,
        amount: 65538,
    }; 16],
    write_count: 1,
};

const BEGAN: [u8; 1] = [0x01];

const HELD: [u8; 28] = [
    0x02, 0x01, 0x00, 0x00, 0x00, 0x02, 0x00, 0x00, 0x02, 0x03, 0x01, 0x01, 0x00, 0x00, 0x00, 0x05,
    0x00, 0x00, 0x00, 0x03, 0x00, 0x01, 0x0f, 0xff, 0x00, 0x01, 0x00, 0x02,
];

const DONE: [u8; 10] = [0x03, 0x01, 0x00, 0x00, 0x00, 0x02, 0x00, 0x00, 0x02, 0x03];

const DROPPED: [u8; 10] = [0x04, 0x01, 0x00, 0x00, 0x00, 0x02, 0x00, 0x00, 0x02, 0x03];

const RULED: [u8; 12] = [
    0x05, 0x01, 0x00, 0x00, 0x00, 0x02, 0x00, 0x00, 0x02, 0x03, 0x00, 0x00,
];

const HOLD: [u8; 28] = [
    0x06, 0x01, 0x00, 0x00, 0x00, 0x02, 0x00, 0x00, 0x02, 0x03, 0x01, 0x01, 0x00, 0x00, 0x00, 0x05,
    0x00, 0x00, 0x00, 0x03, 0x00, 0x01, 0x0f, 0xff, 0x00, 0x01, 0x00, 0x02,
];

const YES: [u8; 11] = [
    0x07, 0x03, 0x01, 0x00, 0x00, 0x00, 0x02, 0x00, 0x00, 0x02, 0x03,
];

const TOLD: [u8; 11] = [
    0x08, 0x01, 0x01, 0x00, 0x00, 0x00, 0x02, 0x00, 0x00, 0x02, 0x03,
];

// The value is written as these bytes, and nothing behind them is touched. They are read; cut at any byte, or with a byte behind them, they are read as `cut` and as `longer`.
fn check<T: Encode, F: Fn(u8, &[u8]) -> Result<usize, ReadError>>(
    rt: &impl Abort,
    value: T,
    order: &Order,
    bytes: &[u8],
    read: F,
    cut: Result<usize, ReadError>,
    longer: Result<usize, ReadError>,
) -> Result<(), Fail>
    requires { F.IsAlwaysCallable read }
{
    let mut out = [0xee; 40];
    let len = write(&mut out, value, order)?;
    assert!(rt; len == bytes.len() && len < 40);
    assert_eq!(rt; &out[0..len], bytes);
    assert_eq!(rt; out[len], 0xee, "the byte behind it");
    for k in 0..len {
        assert_eq!(rt; read(4, &bytes[0..k]), cut, "cut at {k}");
    }
    assert_eq!(rt; read(4, bytes), Ok(len));
    assert_eq!(rt; read(4, &out[0..len + 1]), longer);
    Ok(())
}

// A byte behind a record is none of it.
fn check_record(rt: &impl Abort, record: Record, order: &Order, bytes: &[u8]) -> Result<(), Fail> {
    check(rt, record, order, bytes, of_record, CUT, Ok(bytes.len()))
}

// A message is refused when it is cut, and with a byte behind it.
fn check_message(
    rt: &impl Abort,
    message: Message,
    order: &Order,
    bytes: &[u8],
) -> Result<(), Fail> {
    check(rt, message, order, bytes, of_message, BAD_FORM, BAD_FORM)
}

#[test]
fn records(rt: HostRuntime) -> Result<(), Fail> {
    check_record(&rt, Record::Began, &NO_ENTRIES, &BEGAN)?;
    check_record(&rt, Record::Held(NAME), &ORDER, &HELD)?;
    check_record(&rt, Record::Done(NAME), &NO_ENTRIES, &DONE)?;
    check_record(&rt, Record::Dropped(NAME), &NO_ENTRIES, &DROPPED)?;
    check_record(&rt, Record::Ruled(NAME), &NO_ENTRIES, &RULED)
}

#[test]
fn messages(rt: HostRuntime) -> Result<(), Fail> {
    check_message(&rt, Message::Hold(NAME), &ORDER, &HOLD)?;
    check_message(&rt, Message::Yes(3, NAME), &NO_ENTRIES, &YES)?;
    check_message(&rt, Message::Told(true, NAME), &NO_ENTRIES, &TOLD)
}

// A file of began, held and done; its numbers come to 6 for the kinds, 2 * 518 for the names and 135,177 for the entries.
#[test]
fn file(rt: HostRuntime) -> Result<(), Fail> {
    let mut out = [0; 64];
    let one = append(&mut out, 0, Record::Began, &NO_ENTRIES)?;
    let two = append(&mut out, one, Record::Held(NAME), &ORDER)?;
    let three = append(&mut out, two, Record::Done(NAME), &NO_ENTRIES)?;
    assert!(rt; three == 39);
    assert_eq!(rt; of_file(4, &out[0..39]), Ok(39));
    assert_eq!(rt; of_file(4, &out[0..38]), Ok(29), "cut in the last record");
    assert_eq!(rt; scan_checksum(4, &out[0..39]), 6 + 2 * 518 + 135177);
    assert_eq!(rt; scan_checksum(4, &out[0..38]), 3 + 518 + 135177);
    assert_eq!(rt;
        append(&mut out, 65, Record::Began, &NO_ENTRIES).is_ok(),
        false
    );
    Ok(())
}
