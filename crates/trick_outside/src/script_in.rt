ghost use Rattle.std.specs.Prelude.{◌≡◌, ◌↔◌, ◌<◌, ◌≤◌, [], List, ℕ, Some, drop, length};
ghost use Rattle.trick_outside.specs.Causes.{HasCause};
ghost use Rattle.trick_outside.specs.Links.{Gave, ReadProgress, bytes_given};

use crate::fault_plan::FaultPlan;
use crate::{LinkIn, Read1};
use std::alloc::Global;

/// A link that gives the bytes of a script, and tells which it has left. After the last it ends.
#[derive(Debug, Drop)]
pub struct ScriptIn {
    bytes: Vec<u8>,
    at: usize,
    most: usize,
    plan: FaultPlan,
    ghost within: { at ≤ length bytes.items },
    ghost positive: { 0 < most },
}

impl ScriptIn {
    ghost use Rattle.trick_outside.specs.FaultPlan.{IsFresh, IsQuiet};

    /// A link that gives these bytes, as many as there is room for at each read, and never fails.
    pub fn new(alloc: Global, bytes: Vec<u8>) -> ScriptIn
        ensures left { ⟦<ScriptIn as LinkIn>⟧.holds result ≡ Some bytes.items }
        ensures never { IsQuiet result.plan }
        ensures whole { result.most ≡ usize.MAX }
    {
        ScriptIn {
            bytes,
            at: 0,
            most: usize::MAX,
            plan: FaultPlan::never(alloc),
        }
    }

    /// A link that gives these bytes, and whose reads of these numbers fail, the first read being
    /// number 0.
    pub fn failing(bytes: Vec<u8>, calls: Vec<u64>) -> ScriptIn
        ensures left { ⟦<ScriptIn as LinkIn>⟧.holds result ≡ Some bytes.items }
        ensures failing { IsFresh result.plan calls.items }
        ensures whole { result.most ≡ usize.MAX }
    {
        ScriptIn {
            bytes,
            at: 0,
            most: usize::MAX,
            plan: FaultPlan::at(calls),
        }
    }

    /// The link, giving at most `most` bytes at a read from now on.
    pub fn with_most(self, most: usize) -> ScriptIn
        requires { 0 < most }
        ensures left { ⟦<ScriptIn as LinkIn>⟧.holds result ≡ ⟦<ScriptIn as LinkIn>⟧.holds self }
        ensures uncounted { result.plan ≡ self.plan }
        ensures most { result.most ≡ most }
    {
        let ScriptIn {
            bytes,
            at,
            plan,
            ..
        } = self;
        ScriptIn {
            bytes,
            at,
            most,
            plan,
        }
    }
}

impl LinkIn for ScriptIn {
    ghost use Rattle.trick_outside.specs.FaultPlan.{CountsOne, FailsNext};
    ghost use Rattle.trick_outside.specs.Scripts.{GivesMost};

    ghost holds = { λ link. Some (drop link.at link.bytes.items) };

    ghost failures = { λ link. link.plan.faults };

    fn read(&mut self, buffer: &mut [u8]) -> Read1
        ensures length { length buffer.new ≡ length buffer.old }
        ensures given { Gave (Some (drop self.old.at self.old.bytes.items))
            (Some (drop self.new.at self.new.bytes.items)) (bytes_given result buffer.new) }
        ensures over { result ≡ Read1.End
            → (bytes : List ℕ) → Some (drop self.old.at self.old.bytes.items) ≡ Some bytes → bytes ≡ [] }
        ensures progress { ReadProgress result (length buffer.new) }
        ensures cause { HasCause self.old.plan.faults self.new.plan.faults (result ≡ Read1.Failed) }

        // What this form promises beyond the trait.
        ensures fails { (result ≡ Read1.Failed) ↔ FailsNext self.old.plan }
        ensures counted { CountsOne self.old.plan self.new.plan }
        ensures most { GivesMost result (length (drop self.old.at self.old.bytes.items)) self.old.most
            (length buffer.old) }
        ensures most_stays { self.new.most ≡ self.old.most }
    {
        if self.plan.fails() {
            return Read1::Failed;
        }
        let rest = &self.bytes[self.at..];
        if rest.is_empty() {
            return Read1::End;
        }
        let count = rest.len().min(self.most).min(buffer.len());
        buffer[..count].copy_from_slice(&rest[..count]);
        self.at += count;
        Read1::Count(count)
    }

    fn faults(&self) -> u64 {
        self.plan.faults()
    }
}
