ghost use Rattle.std.specs.FinMap.{empty, get, insert};
ghost use Rattle.std.specs.Prelude.{◌≡◌, ◌≢◌, ◌↔◌, ◌<◌, ◌++◌, ◌∷◌, [], ℕ, List, Some, None};
ghost use Rattle.std.specs.Prelude.{Contains, IfNone, IfOk, IfSome, IsSome, IsSomeAnd, OnErr, OnOk};
ghost use Rattle.std.specs.Prelude.{length, slice_get};
ghost use Rattle.trick_outside.specs.declared.memory_shelf.File.{File};

use crate::fault_plan::FaultPlan;
use crate::{Got, Shelf, Wrote};
use std::alloc::{AllocError, Global};
use trick_base::Word;

/// A file in memory.
#[derive(Debug, Drop)]
pub struct File {
    name: Word,
    bytes: Vec<u8>,
}

/// A shelf over memory, which tells what it holds. A call that fails, and one that finds no memory,
/// leaves what is held as it was.
#[derive(Debug, Drop)]
pub struct MemoryShelf {
    alloc: Global,
    files: Vec<File>,
    plan: FaultPlan,
}

/// The place of the first file of that name.
fn place(files: &[File], name: &[u8]) -> Option<usize>
    ensures within { IfSome result (λ at. at < length files.now) }
    ensures found { IfSome result
        (λ at. IsSomeAnd (slice_get files.now at) (λ file. file.name ≡ name.now)) }
    ensures first { IfSome result
        (λ at. (k : ℕ) → k < at → IfSome (slice_get files.now k) (λ file. file.name ≢ name.now)) }
    ensures none { IfNone result
        ((k : ℕ) → IfSome (slice_get files.now k) (λ file. file.name ≢ name.now)) }
{
    for (at, file) in files.iter().enumerate() {
        if file.name.is(name) {
            return Some(at);
        }
    }
    None
}

impl MemoryShelf {
    ghost use Rattle.trick_outside.specs.Kept.{contents, SameShelfPlan, ShelfFailsAt};
    ghost use Rattle.trick_outside.specs.Kept.{ShelfNeverFails};

    /// A shelf that holds no file and never fails.
    pub fn new(alloc: Global) -> MemoryShelf
        ensures none { contents result ≡ empty }
        ensures never { ShelfNeverFails result }
    {
        MemoryShelf {
            alloc,
            files: Vec::new(alloc),
            plan: FaultPlan::never(alloc),
        }
    }

    /// A shelf that holds no file, and whose calls of these numbers fail, the first call being
    /// number 0.
    pub fn failing(alloc: Global, calls: Vec<u64>) -> MemoryShelf
        ensures none { contents result ≡ empty }
        ensures failing { ShelfFailsAt result calls.items }
    {
        MemoryShelf {
            alloc,
            files: Vec::new(alloc),
            plan: FaultPlan::at(calls),
        }
    }

    /// The shelf with this file too, in place of one of that name. It counts as no call.
    pub fn with_file(self, name: &[u8], bytes: &[u8]) -> Result<MemoryShelf, AllocError>
        ensures held { IfOk result
            (λ shelf. contents shelf ≡ insert (contents self) name.now bytes.now) }
        ensures never { ShelfNeverFails self → IfOk result ShelfNeverFails }
        ensures uncounted { IfOk result (SameShelfPlan self) }
    {
        let mut shelf = self;
        let name = Word::from_bytes(shelf.alloc, name)?;
        shelf.make_empty(&name)?;
        shelf.extend(&name, bytes)?;
        Ok(shelf)
    }

    /// The bytes of the file of that name.
    pub fn file(&self, name: &[u8]) -> Option<&[u8]>
        ensures found { IfSome result (λ bytes. get (contents self.now) name.now ≡ Some bytes.now) }
        ensures none { IfNone result (get (contents self.now) name.now ≡ None) }
    {
        let Some(at) = place(&self.files, name) else {
            return None;
        };
        Some(&self.files[at].bytes)
    }

    /// The names of the files that are held.
    pub fn names(&self) -> Result<Vec<Word>, AllocError>
        ensures { IfOk result (λ names. (name : List ℕ)
            → Contains names.items name ↔ IsSome (get (contents self.now) name)) }
    {
        let mut names = Vec::new(self.alloc);
        for file in &self.files {
            names.push(file.name.try_clone()?)?;
        }
        Ok(names)
    }
}

impl MemoryShelf {
    ghost use Rattle.trick_base.specs.Files.{Append, Create, written};
    ghost use Rattle.trick_outside.specs.Kept.{contents};

    /// A new file at the end of the list.
    fn push(&mut self, name: &Word, bytes: &[u8]) -> Result<(), AllocError>
        ensures ok { OnOk result
            ((file : File)
            × (self.new.files.items ≡ self.old.files.items ++ file ∷ [])
            × (file.name ≡ name.now)
            × (file.bytes.items ≡ bytes.now)) }
        ensures err { OnErr result (self.new.files.items ≡ self.old.files.items) }
        ensures plan { self.new.plan ≡ self.old.plan }
    {
        let name = name.try_clone()?;
        let bytes = bytes.to_vec(self.alloc)?;
        self.files.push(File { name, bytes })?;
        Ok(())
    }

    /// An empty file of that name, in place of one that is there.
    fn make_empty(&mut self, name: &Word) -> Result<(), AllocError>
        ensures ok { OnOk result
            (contents self.new ≡ written (Create name.now) (contents self.old)) }
        ensures err { OnErr result (contents self.new ≡ contents self.old) }
        ensures plan { self.new.plan ≡ self.old.plan }
    {
        let Some(at) = place(&self.files, name.as_slice()) else {
            self.push(name, &[])?;
            return Ok(());
        };
        let file = &mut self.files[at];
        file.bytes.clear();
        Ok(())
    }

    /// These bytes at the end of the file of that name, or a new file of them.
    fn extend(&mut self, name: &Word, bytes: &[u8]) -> Result<(), AllocError>
        ensures ok { OnOk result
            (contents self.new ≡ written (Append name.now bytes.now) (contents self.old)) }
        ensures err { OnErr result (contents self.new ≡ contents self.old) }
        ensures plan { self.new.plan ≡ self.old.plan }
    {
        let Some(at) = place(&self.files, name.as_slice()) else {
            self.push(name, bytes)?;
            return Ok(());
        };
        let file = &mut self.files[at];
        file.bytes.extend_from_slice(bytes)?;
        Ok(())
    }
}

impl Shelf for MemoryShelf {
    ghost use Rattle.trick_base.specs.Files.{Append, Create};
    ghost use Rattle.trick_outside.specs.Calls.{Calls, get_call, write_call};
    ghost use Rattle.trick_outside.specs.Kept.{ShelfCountsOne, ShelfFailsNext, ShelfNeverFails};
    ghost use Rattle.trick_outside.specs.Kept.{contents};

    ghost holds = { λ shelf. Some (contents shelf) };

    ghost failures = { λ shelf. shelf.plan.faults };

    // Which calls were made need not be known, since it tells what it holds. A shelf that never fails
    // is still one after any calls.
    ghost called = { λ old _ new. ShelfNeverFails old → ShelfNeverFails new };

    ghost called_none = { λ _ never. never };

    ghost called_join = { λ _ _ _ _ _ early late never. late (early never) };

    fn get(&mut self, alloc: Global, name: &Word) -> Got
        ensures told { ShelfNeverFails self.old → ShelfNeverFails self.new }
        ensures went { Calls (Some (contents self.old)) (Some (contents self.new))
            self.old.plan.faults self.new.plan.faults (get_call name.now result ∷ []) }

        // What this form promises beyond the trait.
        ensures unchanged { contents self.new ≡ contents self.old }
        ensures fails { (result ≡ Got.Failed) ↔ ShelfFailsNext self.old }
        ensures counted { ShelfCountsOne self.old self.new }
    {
        if self.plan.fails() {
            return Got::Failed;
        }
        let Some(bytes) = self.file(name.as_slice()) else {
            return Got::Missing;
        };
        match bytes.to_vec(alloc) {
            Ok(bytes) => Got::Found(bytes),
            Err(_) => Got::OutOfMemory,
        }
    }

    fn create(&mut self, name: &Word) -> Wrote
        ensures told { ShelfNeverFails self.old → ShelfNeverFails self.new }
        ensures went { Calls (Some (contents self.old)) (Some (contents self.new))
            self.old.plan.faults self.new.plan.faults (write_call (Create name.now) result ∷ []) }

        // What this form promises beyond the trait.
        ensures unless_done { result ≢ Wrote.Done → contents self.new ≡ contents self.old }
        ensures fails { (result ≡ Wrote.Failed) ↔ ShelfFailsNext self.old }
        ensures counted { ShelfCountsOne self.old self.new }
    {
        if self.plan.fails() {
            return Wrote::Failed;
        }
        match self.make_empty(name) {
            Ok(()) => Wrote::Done,
            Err(_) => Wrote::OutOfMemory,
        }
    }

    fn append(&mut self, name: &Word, bytes: &[u8]) -> Wrote
        ensures told { ShelfNeverFails self.old → ShelfNeverFails self.new }
        ensures went { Calls (Some (contents self.old)) (Some (contents self.new))
            self.old.plan.faults self.new.plan.faults (write_call (Append name.now bytes.now) result ∷ []) }

        // What this form promises beyond the trait.
        ensures unless_done { result ≢ Wrote.Done → contents self.new ≡ contents self.old }
        ensures fails { (result ≡ Wrote.Failed) ↔ ShelfFailsNext self.old }
        ensures counted { ShelfCountsOne self.old self.new }
    {
        if self.plan.fails() {
            return Wrote::Failed;
        }
        match self.extend(name, bytes) {
            Ok(()) => Wrote::Done,
            Err(_) => Wrote::OutOfMemory,
        }
    }

    fn faults(&self) -> u64 {
        self.plan.faults()
    }
}
