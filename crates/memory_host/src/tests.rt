// A house over hosts in memory: what it says where calls fail, and what it comes up with.
use crate::faulty::*;
use crate::memory::*;
use entries::named::NamedOrder;
use ledger::getters::*;
use orders::{Entry, NO_ENTRIES};
use protocol::Name;
use std::alloc::Global;
use std::process::Abort;
use steps::hold::hold;
use steps::start::come_up;

// An order that writes one shelf of house 0.
fn sample() -> NamedOrder {
    let mut order = NO_ENTRIES;
    order.writes[0] = Entry { key: 5, amount: 3 };
    order.write_count = 1;
    NamedOrder {
        name: Name {
            home: 0,
            start: 1,
            number: 0,
        },
        order,
    }
}

// How many messages a house sent whose host lets so many calls succeed: cut, append and sync to come up, then append, sync and send to hold.
fn sent_with(rt: &impl Abort, heap: Global, left: usize) -> usize {
    let mut shelves = [0u32; 4096];
    let mut host = FaultyHost {
        inner: MemoryHost::new(heap),
        left,
    };
    match come_up(heap, &mut host, 2, 0, &mut shelves) {
        Ok(mut ledger) => {
            let answer = hold(&mut host, &mut ledger, &mut shelves, &sample());
            assert!(rt; answer.is_ok() == (left >= 6));
        }
        Err(_) => assert!(rt; left < 3),
    }
    host.inner.sent.len()
}

#[test]
fn failed_host_says_nothing(rt: HostRuntime) {
    for left in 0..6 {
        assert_eq!(rt; sent_with(&rt, rt.alloc(), left), 0);
    }
    assert_eq!(rt; sent_with(&rt, rt.alloc(), 6), 1);
}
