//! The plans of the tests of threads. One has eight threads of five jobs each, which are due at each of three tics.
//! Each tic is a software frame and has a row of a log, and a checkpoint is written in the second frame. The others
//! have must-finish and asynchronous threads.

use crate::plans::Texts;

/// The plan of eight threads.
pub(crate) const EIGHT: Texts = Texts {
    s_define: S_DEFINE,
    input: INPUT,
};

/// A plan with a scheduled thread and two must-finish threads, of which one adds up what thread 0 and the other one
/// what the scheduled thread counts, in cycles of two and of three tics. What they publish is recorded, and a
/// checkpoint is written while they are at work.
pub(crate) const CLERKS: Texts = Texts {
    s_define: "class W : public Trick::SimObject {
  public:
    long x;
    void step() { x = (x * 3 + 1) % 1009; }
    W() { (0.000001, \"scheduled\") step(); }
};
class V : public Trick::SimObject {
  public:
    long y;
    void step() { y = (y * 5 + 2) % 1013; }
    V() { C1 (0.000001, \"scheduled\") step(); }
};
class M : public Trick::SimObject {
  public:
    long sum;
    void add() { sum = sum + w.x; }
    M() { C2 (0.000001, \"scheduled\") add(); }
};
class N : public Trick::SimObject {
  public:
    long sum;
    void add() { sum = sum + v.y; }
    N() { C3 (0.000001, \"scheduled\") add(); }
};
W w;
V v;
M m;
N n;
",
    input: "trick.exec_set_thread_process_type(2, trick.PROCESS_TYPE_AMF_CHILD)
trick.exec_set_thread_process_type(3, trick.PROCESS_TYPE_AMF_CHILD)
trick.exec_set_thread_amf_cycle_time(2, 0.000002)
trick.exec_set_thread_amf_cycle_time(3, 0.000003)
trick.exec_set_software_frame(0.000001)
g = trick.DRAscii('g')
g.set_cycle(0.000001)
g.add_variable('m.sum')
g.add_variable('n.sum')
trick.add_data_record_group(g)
trick.add_read(0.000007, 'trick.checkpoint()')
trick.stop(0.000012)
",
};

/// A plan whose asynchronous thread 1 copies what thread 0 counts, while a job of the scheduled thread 2 runs at each
/// tic. Each of a hundred tics is a software frame.
pub(crate) const HELD: Texts = Texts {
    s_define: "class W : public Trick::SimObject {
  public:
    long x;
    void step() { x += 1; }
    W() { (0.000001, \"scheduled\") step(); }
};
class P : public Trick::SimObject {
  public:
    long seen;
    void look() { seen = w.x; }
    P() { C1 (0.000001, \"scheduled\") look(); }
};
class V : public Trick::SimObject {
  public:
    long y;
    void step() { y += 1; }
    V() { C2 (0.000001, \"scheduled\") step(); }
};
W w;
P p;
V v;
",
    input: "trick.exec_set_thread_process_type(1, trick.PROCESS_TYPE_ASYNC_CHILD)
trick.exec_set_software_frame(0.000001)
trick.stop(0.000099)
",
};

/// A plan with two must-finish and three asynchronous threads, all of which read what thread 0 counts. A checkpoint is
/// written while they are at work.
pub(crate) const ROUNDS: Texts = Texts {
    s_define: "class W : public Trick::SimObject {
  public:
    long x;
    void step() { x = (x * 3 + 1) % 1009; }
    W() { (0.000001, \"scheduled\") step(); }
};
class M : public Trick::SimObject {
  public:
    long sum;
    void add() { sum = sum + w.x; }
    M() { C1 (0.000001, \"scheduled\") add(); }
};
class N : public Trick::SimObject {
  public:
    long sum;
    void add() { sum = sum + w.x; }
    N() { C2 (0.000001, \"scheduled\") add(); }
};
class P : public Trick::SimObject {
  public:
    long sum;
    void add() { sum = sum + w.x; }
    P() { C3 (0.000001, \"scheduled\") add(); }
};
class Q : public Trick::SimObject {
  public:
    long sum;
    void add() { sum = sum + w.x; }
    Q() { C4 (0.000001, \"scheduled\") add(); }
};
class R : public Trick::SimObject {
  public:
    long sum;
    void add() { sum = sum + w.x; }
    R() { C5 (0.000001, \"scheduled\") add(); }
};
W w;
M m;
N n;
P p;
Q q;
R r;
",
    input: "trick.exec_set_thread_process_type(1, trick.PROCESS_TYPE_AMF_CHILD)
trick.exec_set_thread_process_type(2, trick.PROCESS_TYPE_AMF_CHILD)
trick.exec_set_thread_amf_cycle_time(1, 0.000002)
trick.exec_set_thread_amf_cycle_time(2, 0.000003)
trick.exec_set_thread_process_type(3, trick.PROCESS_TYPE_ASYNC_CHILD)
trick.exec_set_thread_process_type(4, trick.PROCESS_TYPE_ASYNC_CHILD)
trick.exec_set_thread_process_type(5, trick.PROCESS_TYPE_ASYNC_CHILD)
trick.exec_set_software_frame(0.000001)
g = trick.DRAscii('g')
g.set_cycle(0.000001)
g.add_variable('m.sum')
g.add_variable('n.sum')
trick.add_data_record_group(g)
trick.add_read(0.000007, 'trick.checkpoint()')
trick.stop(0.000040)
",
};

/// An object on each of eight threads, thread 0 first. Job `three` of each but the first reads what that of the one
/// before it writes, and job `five` of the first reads what `three` of the last one writes. Where `y` is even, `four`
/// of all but the first divides by zero.
const S_DEFINE: &str = "class A : public Trick::SimObject {
  public:
    long x, y;
    void one() { x = x * 3 + 1; }
    void two() { x = x % 1009; }
    void three() { y = x; }
    void four() { x = x + y; }
    void five() { x = x + h.y; }
    A() {
      P1 (0.000001, \"scheduled\") one();
      P2 (0.000001, \"scheduled\") two();
      P3 (0.000001, \"scheduled\") three();
      P4 (0.000001, \"scheduled\") four();
      P5 (0.000001, \"scheduled\") five();
    }
};
class B : public Trick::SimObject {
  public:
    long x, y;
    void one() { x = x * 3 + 2; }
    void two() { x = x % 1009; }
    void three() { y = a.y * 7 + x; }
    void four() { x = x / (y % 2); }
    void five() { x = x + y % 13; }
    B() {
      C1 P1 (0.000001, \"scheduled\") one();
      C1 P2 (0.000001, \"scheduled\") two();
      C1 P3 (0.000001, \"scheduled\") three();
      C1 P4 (0.000001, \"scheduled\") four();
      C1 P5 (0.000001, \"scheduled\") five();
    }
};
class C : public Trick::SimObject {
  public:
    long x, y;
    void one() { x = x * 3 + 3; }
    void two() { x = x % 1009; }
    void three() { y = b.y * 7 + x; }
    void four() { x = x / (y % 2); }
    void five() { x = x + y % 13; }
    C() {
      C2 P1 (0.000001, \"scheduled\") one();
      C2 P2 (0.000001, \"scheduled\") two();
      C2 P3 (0.000001, \"scheduled\") three();
      C2 P4 (0.000001, \"scheduled\") four();
      C2 P5 (0.000001, \"scheduled\") five();
    }
};
class D : public Trick::SimObject {
  public:
    long x, y;
    void one() { x = x * 3 + 4; }
    void two() { x = x % 1009; }
    void three() { y = c.y * 7 + x; }
    void four() { x = x / (y % 2); }
    void five() { x = x + y % 13; }
    D() {
      C3 P1 (0.000001, \"scheduled\") one();
      C3 P2 (0.000001, \"scheduled\") two();
      C3 P3 (0.000001, \"scheduled\") three();
      C3 P4 (0.000001, \"scheduled\") four();
      C3 P5 (0.000001, \"scheduled\") five();
    }
};
class E : public Trick::SimObject {
  public:
    long x, y;
    void one() { x = x * 3 + 5; }
    void two() { x = x % 1009; }
    void three() { y = d.y * 7 + x; }
    void four() { x = x / (y % 2); }
    void five() { x = x + y % 13; }
    E() {
      C4 P1 (0.000001, \"scheduled\") one();
      C4 P2 (0.000001, \"scheduled\") two();
      C4 P3 (0.000001, \"scheduled\") three();
      C4 P4 (0.000001, \"scheduled\") four();
      C4 P5 (0.000001, \"scheduled\") five();
    }
};
class F : public Trick::SimObject {
  public:
    long x, y;
    void one() { x = x * 3 + 6; }
    void two() { x = x % 1009; }
    void three() { y = e.y * 7 + x; }
    void four() { x = x / (y % 2); }
    void five() { x = x + y % 13; }
    F() {
      C5 P1 (0.000001, \"scheduled\") one();
      C5 P2 (0.000001, \"scheduled\") two();
      C5 P3 (0.000001, \"scheduled\") three();
      C5 P4 (0.000001, \"scheduled\") four();
      C5 P5 (0.000001, \"scheduled\") five();
    }
};
class G : public Trick::SimObject {
  public:
    long x, y;
    void one() { x = x * 3 + 7; }
    void two() { x = x % 1009; }
    void three() { y = f.y * 7 + x; }
    void four() { x = x / (y % 2); }
    void five() { x = x + y % 13; }
    G() {
      C6 P1 (0.000001, \"scheduled\") one();
      C6 P2 (0.000001, \"scheduled\") two();
      C6 P3 (0.000001, \"scheduled\") three();
      C6 P4 (0.000001, \"scheduled\") four();
      C6 P5 (0.000001, \"scheduled\") five();
    }
};
class H : public Trick::SimObject {
  public:
    long x, y;
    void one() { x = x * 3 + 8; }
    void two() { x = x % 1009; }
    void three() { y = g.y * 7 + x; }
    void four() { x = x / (y % 2); }
    void five() { x = x + y % 13; }
    H() {
      C7 P1 (0.000001, \"scheduled\") one();
      C7 P2 (0.000001, \"scheduled\") two();
      C7 P3 (0.000001, \"scheduled\") three();
      C7 P4 (0.000001, \"scheduled\") four();
      C7 P5 (0.000001, \"scheduled\") five();
    }
};
A a;
B b;
C c;
D d;
E e;
F f;
G g;
H h;
";

/// Who reads runs after who writes.
const INPUT: &str = "trick.exec_add_depends_on_job('b.three', 1, 'a.three', 1)
trick.exec_add_depends_on_job('c.three', 1, 'b.three', 1)
trick.exec_add_depends_on_job('d.three', 1, 'c.three', 1)
trick.exec_add_depends_on_job('e.three', 1, 'd.three', 1)
trick.exec_add_depends_on_job('f.three', 1, 'e.three', 1)
trick.exec_add_depends_on_job('g.three', 1, 'f.three', 1)
trick.exec_add_depends_on_job('h.three', 1, 'g.three', 1)
trick.exec_add_depends_on_job('a.five', 1, 'h.three', 1)
trick.exec_set_software_frame(0.000001)
g = trick.DRAscii('g')
g.set_cycle(0.000001)
g.add_variable('a.x')
trick.add_data_record_group(g)
trick.add_read(0.000001, 'trick.checkpoint()')
trick.stop(0.000002)
";
