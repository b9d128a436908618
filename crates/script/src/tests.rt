// Lines of each kind, and lines that are none.
use crate::Line;
use crate::read::read_line;
use orders::Refusal;
use std::test::Fail;

fn is_bad(line: &[u8]) -> bool {
    matches!(read_line(line), Err(Refusal::BadForm))
}

// Whether the line, if it is in form, is within the limits of two houses.
fn in_range(line: &[u8]) -> Option<bool> {
    Some(read_line(line).ok()?.in_range(2))
}

#[test]
fn spaces_separate(rt: HostRuntime) -> Result<(), Fail> {
    let Ok(Line::Vote(house, voter, name)) = read_line(b"  vote 1   0 300 007 4294967295 ") else {
        return Err(Fail::new("no vote"));
    };
    assert_eq!(rt; house, 1);
    assert_eq!(rt; voter, 0);
    assert_eq!(rt; name.home, 300);
    assert_eq!(rt; name.start, 7);
    assert_eq!(rt; name.number, 4294967295);
    Ok(())
}

#[test]
fn order_is_read(rt: HostRuntime) -> Result<(), Fail> {
    let Ok(Line::Submit(_, name, order)) = read_line(b"submit 0 0 1 2 1 5 3 2 5 2 65541 1") else {
        return Err(Fail::new("no submit"));
    };
    let (seen, second_key) = (order.reads[0].amount, order.writes[1].key);
    assert_eq!(rt; name.number, 2);
    assert_eq!(rt; order.read_count, 1);
    assert_eq!(rt; seen, 3);
    assert_eq!(rt; order.write_count, 2);
    assert_eq!(rt; second_key, 65541);
    Ok(())
}

#[test]
fn out_of_form(rt: HostRuntime) {
    let bad: [&[u8]; 8] = [
        b"show\r",
        b"\t",
        b"sync 4294967296",
        b"sync +1",
        b"sync 1 1",
        b"learn 0 2 0 1 0",
        b" # no comment",
        b"submit 0 0 1 0 17",
    ];
    assert!(rt; bad.iter().all(|line| is_bad(line)));
    assert!(rt; matches!(read_line(b"# \xff"), Ok(Line::Skip)));
    assert!(rt; matches!(read_line(b"   "), Ok(Line::Skip)));
}

#[test]
fn limits_are_apart_from_form(rt: HostRuntime) {
    assert_eq!(rt; in_range(b"hold 1 0 1 0"), Some(true));
    assert_eq!(rt; in_range(b"hold 2 0 1 0"), Some(false));
    assert_eq!(rt; in_range(b"hold 1 256 1 0"), Some(false));
    assert_eq!(rt; in_range(b"submit 0 0 1 0 0 1 4096 1"), Some(false));
}
