//! Simulations whose texts are drawn: they follow from numbers that follow from a first one.

use trick_cases_report::Report;

/// Numbers, one after another.
#[derive(Drop)]
pub(crate) struct Numbers {
    state: u64,
}

impl Numbers {
    /// The numbers that follow from this one.
    pub(crate) fn new(seed: u64) -> Self {
        Numbers { state: seed }
    }

    /// The next number, which is below this one; 0 where there is none.
    pub(crate) fn below(&mut self, end: u64) -> u64 {
        self.state = self
            .state
            .wrapping_mul(6_364_136_223_846_793_005)
            .wrapping_add(1_442_695_040_888_963_407);
        if end == 0 {
            return 0;
        }
        (self.state >> 33) % end
    }
}

// Adds the tic at which a job stops, for some.
fn draw_stop(numbers: &mut Numbers, text: &mut Report) {
    if numbers.below(3) != 0 {
        return;
    }
    text.number("0.0000", numbers.below(3), "");
    text.number("", numbers.below(10), ", ");
}

// Adds the times of a job: a cycle from 1 to 6 tics, a start up to tic 3, and for some a stop.
fn draw_times(numbers: &mut Numbers, text: &mut Report) {
    let cycle = numbers.below(6).saturating_add(1);
    text.number("(0.00000", cycle, ", ");
    text.number("0.00000", numbers.below(4), ", ");
    draw_stop(numbers, text);
    text.word("\"scheduled\") ");
}

// Adds the thread of a job; none for the main one.
fn add_thread(thread: u64, text: &mut Report) {
    if thread > 0 {
        text.number("C", thread, " ");
    }
}

// Adds a letter between two words.
fn add_letter(before: &str, letter: u8, after: &str, text: &mut Report) {
    text.word(before);
    text.value(char::from(letter));
    text.word(after);
}

// Adds a class with a job on this thread, which counts in a cell of its own, and the object of the class.
fn draw_object(numbers: &mut Numbers, letter: u8, thread: u64, text: &mut Report) {
    add_letter("class ", letter, " : public Trick::SimObject {\n", text);
    text.word("  public:\n    long x;\n    void run() { x = x + 1; }\n");
    add_letter("    ", letter, "() { ", text);
    add_thread(thread, text);
    draw_times(numbers, text);
    text.word("run(); }\n};\n");
    add_letter("", letter, " ", text);
    add_letter("", letter.to_ascii_lowercase(), ";\n", text);
}

// Adds that the job of a letter waits for that of another.
fn add_pair(target: u8, depended: u8, text: &mut Report) {
    text.word("trick.exec_add_depends_on_job('");
    add_letter("", target.to_ascii_lowercase(), ".run', 1, '", text);
    add_letter("", depended.to_ascii_lowercase(), ".run', 1)\n", text);
}

// Adds for each earlier job, with a chance of one in three, that the job of a letter waits for it.
fn draw_pairs(numbers: &mut Numbers, letter: u8, text: &mut Report) {
    for earlier in b'A'..letter {
        if numbers.below(3) == 0 {
            add_pair(letter, earlier, text);
        }
    }
}

// The letter after that of the last job, which is from A to H.
fn end_letter(numbers: &mut Numbers) -> u8 {
    b'B'.saturating_add(numbers.below(8).min(7) as u8)
}

/// Adds the texts of a simulation of one to eight jobs on threads 0 to 3, of which thread 3 may be asynchronous.
pub(crate) fn draw_with_threads(numbers: &mut Numbers, s_define: &mut Report, input: &mut Report) {
    let mut is_beside = false;
    for letter in b'A'..end_letter(numbers) {
        let thread = numbers.below(4);
        is_beside = is_beside || thread == 3;
        draw_object(numbers, letter, thread, s_define);
    }
    if is_beside && numbers.below(2) == 0 {
        input.word("trick.exec_set_thread_process_type(3, trick.PROCESS_TYPE_ASYNC_CHILD)\n");
    }
}

/// Adds the texts of a simulation of one to eight jobs on threads 0 to 3, of which some wait for earlier ones.
pub(crate) fn draw_with_pairs(numbers: &mut Numbers, s_define: &mut Report, input: &mut Report) {
    for letter in b'A'..end_letter(numbers) {
        let thread = numbers.below(4);
        draw_object(numbers, letter, thread, s_define);
        draw_pairs(numbers, letter, input);
    }
}
