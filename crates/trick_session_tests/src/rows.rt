//! What the sessions of journals are sent.

use crate::listener::heard;
use std::process::Abort;

/// A number that counts the seconds.
const COUNTER: &str = "class Counter : public Trick::SimObject {
  public:
    long n;
    void step() { n += 1; }
    Counter() { (1.0, \"scheduled\") step(); }
};
Counter counter;
";

/// Nothing is wrong.
const RIGHT: &str = "nothing is wrong";

/// What a session was sent.
fn sent_to(rt: &(impl Abort + AllocGlobal), heard: &[(u32, Vec<u8>)], session: u32) -> Vec<u8> {
    let mut text = Vec::new(rt.alloc());
    for (to, bytes) in heard {
        if *to == session {
            text.extend_from_slice(bytes).expect(rt, "memory");
        }
    }
    text
}

// Whether a session was sent just this text.
fn is_sent(
    rt: &(impl Abort + AllocGlobal),
    heard: &[(u32, Vec<u8>)],
    session: u32,
    text: &str,
) -> bool {
    sent_to(rt, heard, session).as_slice() == text.as_bytes()
}

// What is wrong with what was heard, or that nothing is: just these sessions are sent messages, and these.
fn judged(
    rt: &(impl Abort + AllocGlobal),
    heard: &[(u32, Vec<u8>)],
    sessions: &[(u32, &str)],
) -> &'static str {
    let mut messages: usize = 0;
    for (session, text) in sessions {
        if !is_sent(rt, heard, *session, text) {
            return "a session is sent something else";
        }
        messages = messages.wrapping_add(text.lines().count());
    }
    // each message is a line
    if heard.len() == messages {
        RIGHT
    } else {
        "another session is sent something"
    }
}

// Nothing is wrong with what sessions are sent under an input and a journal.
fn are_sent(rt: &(impl Abort + AllocGlobal), input: &str, journal: &str, sessions: &[(u32, &str)]) {
    let heard = heard(rt, COUNTER, input, journal);
    let wrong = judged(rt, &heard, sessions);
    assert!(rt; wrong == RIGHT, "{wrong}");
}

#[test]
fn a_client_lets_a_run_go_on(rt: HostRuntime) {
    // the last frame has one tic, and no sample is due there
    let journal = "tricks journal 1
from 0
0 join 1
0 cmd 1 trick.var_add(\"counter.n\")
0 cmd 1 trick.var_add(\"counter.zz\")
0 cmd 1 trick.var_cycle(1.0)
0 cmd 1 trick.exec_run()
end 4
";
    let text = "0\t1\tBAD_REF\n0\t2\tBAD_REF\n0\t3\tBAD_REF\n";
    are_sent(
        &rt,
        "trick.stop(3.0)\ntrick.freeze()",
        journal,
        &[(1, text)],
    );
}

#[test]
fn replies_come_before_the_sample(rt: HostRuntime) {
    let journal = "tricks journal 1
from 0
0 join 1
0 cmd 1 trick.var_add(\"counter.n\")
0 cmd 1 trick.var_send()
0 cmd 1 trick.var_exists(\"counter.n\")
0 cmd 1 hello
end 1
";
    let text = "1\t1\n4\tbad command\n0\t0\n";
    are_sent(
        &rt,
        "trick.stop(3.0)\ntrick.freeze()",
        journal,
        &[(1, text)],
    );
}

#[test]
fn sessions_come_and_leave(rt: HostRuntime) {
    // the first is sampled every two seconds, the second in each frame until it pauses and once as it leaves, and the
    // last in its one frame
    let journal = "tricks journal 1
from 0
0 join 1
0 cmd 1 trick.var_add(\"counter.n\")
0 cmd 1 trick.var_cycle(2.0)
0 join 2
0 cmd 2 trick.var_exists(\"counter.zz\")
0 cmd 2 trick.var_add(\"counter.n\")
1 cmd 2 trick.var_pause()
1 cmd 1 trick.var_send()
2 cmd 2 trick.var_send()
2 leave 2 Exit
3 cmd 1 trick.exec_set_job_onoff(\"counter.step\", 2, False)
3 cmd 1 trick.var_clear()
3 cmd 1 trick.var_send()
3 join 5
3 cmd 5 counter.n = 70
3 cmd 5 trick.var_add(\"counter.n\")
3 cmd 5 trick.var_send()
3 leave 5 HungUp
end 4
";
    let texts = [
        (1, "0\t2\n4\tbad command\n"),
        (2, "1\t0\n0\t1\n0\t3\n"),
        (5, "0\t71\n"),
    ];
    are_sent(&rt, "trick.stop(3.0)", journal, &texts);
}
