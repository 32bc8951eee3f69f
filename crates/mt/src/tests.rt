//! Tests of the exports, each once; `checks/embed` tries them from C and Python.

use crate::exports::{mt_close, mt_command, mt_open, mt_run, mt_version};
use crate::handle::Handle;

#[test]
fn a_session_answers_a_line(rt: HostRuntime) {
    let mut session = Handle::closed();
    let mut answer = [0; 2416];
    let mut written = 0;
    assert!(rt; mt_open(rt.alloc(), &mut session, b"customer  commerce") == 0);
    let status = mt_command(
        rt.alloc(),
        &mut session,
        b"rules",
        &mut answer,
        &mut written,
    );
    assert!(rt; status == 0);
    assert!(rt; &answer[..written] == b"{\"rules\":[]}\n".as_slice());
    mt_close(rt.alloc(), &mut session);
}

#[test]
fn a_script_runs_as_a_whole(rt: HostRuntime) {
    let mut output = [0; 64];
    let mut written = 0;
    let script = b"keyspace commerce\n# nothing\ntable commerce corder\n";
    assert!(rt; mt_run(rt.alloc(), b"commerce", script, &mut output, &mut written) == 0);
    assert!(rt; &output[..written] == b"ok\nok\n".as_slice());
}

#[test]
fn the_version_is_told(rt: HostRuntime) {
    assert!(rt; mt_version() == 1_000_000);
}
