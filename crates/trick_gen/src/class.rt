//! A class: three variables, a step for each, and a job for each step.

ghost use Rattle.std.specs.Prelude.{◌≡◌, ◌++◌, OnOk};
ghost use Rattle.trick_gen.specs.Texts.{class_text, constructor_text, job_text, jobs_text, members_text, thread_text};

use crate::thread::{push_number, push_thread};
use std::alloc::AllocError;

// The base, the variables and the steps.
#[tactic(auto, unfolding(crate::specs::Texts::members_text))]
fn members() -> &'static [u8]
    ensures { result.now ≡ members_text }
{
    b" : public Trick::SimObject {
  public:
    long a;
    long b;
    long c;
    void step_a() { a += 1; }
    void step_b() { b += a; }
    void step_c() { c = c + b - a; }
"
}

// Appends a line of the constructor of a class.
fn push_job(text: &mut Vec<u8>, class: u32, cycle: &[u8], step: &[u8]) -> Result<(), AllocError>
    ensures { OnOk result (text.new.items ≡ text.old.items ++ job_text (thread_text class) cycle.now step.now) }
{
    text.extend_from_slice(b"      ")?;
    push_thread(text, class)?;
    text.extend_from_slice(b"(")?;
    text.extend_from_slice(cycle)?;
    text.extend_from_slice(b", \"scheduled\") step_")?;
    text.extend_from_slice(step)?;
    text.extend_from_slice(b"();\n")
}

// Appends the lines of the constructor of a class.
#[tactic(auto, unfolding(crate::specs::Texts::jobs_text))]
fn push_jobs(text: &mut Vec<u8>, class: u32) -> Result<(), AllocError>
    ensures { OnOk result (text.new.items ≡ text.old.items ++ jobs_text class) }
{
    push_job(text, class, b"0.000001", b"a")?;
    push_job(text, class, b"0.000002", b"b")?;
    push_job(text, class, b"0.000005", b"c")
}

// Appends the constructor of a class.
#[tactic(auto, unfolding(crate::specs::Texts::constructor_text))]
fn push_constructor(text: &mut Vec<u8>, class: u32) -> Result<(), AllocError>
    ensures { OnOk result (text.new.items ≡ text.old.items ++ constructor_text class) }
{
    text.extend_from_slice(b"    G")?;
    push_number(text, class)?;
    text.extend_from_slice(b"() {\n")?;
    push_jobs(text, class)?;
    text.extend_from_slice(b"    }\n")
}

/// Appends a class.
#[tactic(auto, unfolding(crate::specs::Texts::class_text))]
pub(crate) fn push_class(text: &mut Vec<u8>, class: u32) -> Result<(), AllocError>
    ensures { OnOk result (text.new.items ≡ text.old.items ++ class_text class) }
{
    text.extend_from_slice(b"class G")?;
    push_number(text, class)?;
    text.extend_from_slice(members())?;
    push_constructor(text, class)?;
    text.extend_from_slice(b"};\n")
}
