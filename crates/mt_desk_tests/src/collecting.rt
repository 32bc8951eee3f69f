//! What a collector keeps.

use mt_event::Reply;
use mt_workers::{CollectFault, Collector, Message};
use std::test::Fail;

/// Messages by worker and line, and what each is answered. The first four are those that are waited for.
static MESSAGES: [(u16, u64, Result<(), CollectFault>); 8] = [
    (0, 0, Ok(())),
    (1, 1, Ok(())),
    (1, 0, Ok(())),
    (0, 1, Ok(())),
    (1, 1, Err(CollectFault::Double)),
    (0, 0, Err(CollectFault::Double)),
    (0, 2, Err(CollectFault::Stranger)),
    (2, 0, Err(CollectFault::Stranger)),
];

/// Whether each message is answered so, and all lines are there from the fourth on.
fn are_collected(collector: &mut Collector) -> bool {
    for (index, (worker, line, answer)) in MESSAGES.iter().enumerate() {
        let message = Message {
            worker: *worker,
            line: *line,
            reply: Ok(Reply::Done),
        };
        if collector.add(message) != *answer || collector.whole() != (index >= 3) {
            return false;
        }
    }
    true
}

#[test]
fn each_line_is_kept_once(rt: HostRuntime) -> Result<(), Fail> {
    let mut collector = Collector::new(rt.alloc(), &[2, 2])?;
    assert!(rt; !collector.whole() && are_collected(&mut collector));
    Ok(())
}
