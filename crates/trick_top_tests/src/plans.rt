//! The texts of a plan; the plans of the tests with clients, and their logs.

/// The texts of a plan.
#[derive(Clone, Copy)]
pub(crate) struct Texts {
    pub(crate) s_define: &'static str,
    pub(crate) input: &'static str,
}

/// A counter that is raised once a second.
const COUNTER: &str = "class Counter : public Trick::SimObject {
  public:
    long n;
    void step() { n += 1; }
    Counter() { (1.0, \"scheduled\") step(); }
};
Counter counter;
";

/// A counter that is raised once a second, for three seconds, and recorded. Its run begins in Freeze.
pub(crate) const FROZEN: Texts = Texts {
    s_define: COUNTER,
    input: "g = trick.DRAscii('g')
g.set_cycle(1.0)
g.add_variable('counter.n')
trick.add_data_record_group(g)
trick.stop(3.0)
trick.freeze()
",
};

/// The log of a counter that nobody changes.
pub(crate) const COUNTED: &[u8] = b"tic,counter.n\n0,1\n1000000,2\n2000000,3\n3000000,4\n";

/// The log of a run that stays in Freeze.
pub(crate) const UNCOUNTED: &[u8] = b"tic,counter.n\n";

/// A counter on a thread of its own. Its run does not wait for a client.
pub(crate) const BESIDE: Texts = Texts {
    s_define: "class Counter : public Trick::SimObject {
  public:
    long n;
    void step() { n += 1; }
    Counter() { C1 (1.0, \"scheduled\") step(); }
};
Counter counter;
",
    input: "trick.stop(3.0)\n",
};

/// A counter whose count is recorded. Its run does not wait for a client.
pub(crate) const RECORDED: Texts = Texts {
    s_define: COUNTER,
    input: "g = trick.DRAscii('g')
g.set_cycle(1.0)
g.add_variable('counter.n')
trick.add_data_record_group(g)
trick.stop(3.0)
",
};
