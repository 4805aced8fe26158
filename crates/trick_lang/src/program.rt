ghost use Rattle.std.specs.Prelude.{◌≤◌, IsTrue, length};
ghost use Rattle.trick_lang.specs.Locals.{methods_know};
ghost use Rattle.trick_lang.specs.Names.{are_apart, are_plain_cells, are_plain_names, are_short_names, of_one_instance, of_one_name, of_one_number};
ghost use Rattle.trick_lang.specs.TreeOf.{codes_of};
ghost use Rattle.trick_lang.specs.Valid.{are_deep, are_in_order, are_short, have_right_instances, have_right_threads, have_right_times, jobs_stand, lie_in, methods_stand, objects_stand, run_own_class, stay_in_span};

use crate::{Block, EnumItem, Job, Method, Object, Variable};
use trick_base::Items;

/// A simulation whose names are resolved: places by cell, local variables by slot, bodies by block,
/// so that what a job does is a matter of numbers alone. Its ghost fields are facts that every
/// program keeps. `docs/RULES.md` says what a program means.
#[derive(Drop)]
pub struct Program {
    /// The cells in order: objects in order, their members in order, elements of arrays with the
    /// last index fastest, and then what an input declares.
    pub cells: Items<Variable>,
    /// The items of all enums.
    pub items: Items<EnumItem>,
    /// How many cells an object of each class has, by the number of the class.
    pub sizes: Items<u32>,
    pub objects: Items<Object>,
    /// Bodies, branches, loops and inner blocks, each after those that it runs.
    pub blocks: Items<Block>,
    pub methods: Items<Method>,
    pub jobs: Items<Job>,
    /// How many slots the local variables have.
    pub slots: u32,
    // No two cells have one full name.
    pub ghost cell_names: { IsTrue (are_apart of_one_name cells) },
    // Names of objects, methods and enum items have at most 64 bytes.
    pub ghost short_names: { IsTrue (are_short_names objects methods items) },
    // Full names of cells and names of objects and methods have neither a space nor a line feed.
    pub ghost plain_cells: { IsTrue (are_plain_cells cells) },
    pub ghost plain_names: { IsTrue (are_plain_names objects methods) },
    // A place stays in its span wherever its computed indexes lead.
    pub ghost in_span: { IsTrue (stay_in_span (codes_of blocks)) },
    // The span of a place lies in an object of its class, or in the memory.
    pub ghost in_cells: { IsTrue (lie_in (length cells) sizes blocks) },
    // A block runs only blocks before it.
    pub ghost in_order: { IsTrue (are_in_order 0 (codes_of blocks)) },
    // A block runs only blocks of its class.
    pub ghost own_class: { IsTrue (run_own_class blocks blocks) },
    // The frames of a block are enough for those that it runs.
    pub ghost deep_enough: { IsTrue (are_deep blocks blocks) },
    // A local variable is declared once, before it is used, and used as its type; the bound of a
    // loop is at most 1,000,000.
    pub ghost locals_known: { IsTrue (methods_know slots blocks methods) },
    // The block of a method is there, and of its class.
    pub ghost method_blocks: { IsTrue (methods_stand blocks methods) },
    // The cells of an object are there.
    pub ghost object_cells: { IsTrue (objects_stand (length cells) sizes objects) },
    // The object and the method of a job are there, and of one class.
    pub ghost job_parts: { IsTrue (jobs_stand objects methods jobs) },
    // No two jobs have one object and one number in the constructor.
    pub ghost job_numbers: { IsTrue (are_apart of_one_number jobs) },
    // No two jobs have one name and one instance.
    pub ghost job_names: { IsTrue (are_apart (of_one_instance objects methods) jobs) },
    // An instance is at most 512.
    pub ghost right_instances: { IsTrue (have_right_instances jobs) },
    // A scheduled job has a cycle from 1 and no time after the last tic; others have no times.
    pub ghost right_times: { IsTrue (have_right_times jobs) },
    // Threads go from 0 to 15.
    pub ghost right_threads: { IsTrue (have_right_threads jobs) },
    // A job has at most 1,000,000 static steps.
    pub ghost short: { IsTrue (are_short blocks methods jobs) },
    // There are at most 65,536 cells and 512 jobs.
    pub ghost cell_limit: { length cells ≤ 65536 },
    pub ghost job_limit: { length jobs ≤ 512 },
}
