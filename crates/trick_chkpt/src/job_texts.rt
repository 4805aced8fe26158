//! The jobs of a plan, as they stand in faults.

ghost use Rattle.std.specs.Prelude.{◌≡◌, ◌<◌, IfOk, length};
ghost use Rattle.trick_chkpt_lines.specs.Faults.{job_text as job_text_of, job_texts as job_texts_of};
ghost use Rattle.trick_codes.specs.Gives.{bytes_of};
ghost use Rattle.trick_lang.specs.Names.{job_name};
ghost use Rattle.trick_model.specs.Plan.{job_at};

use itoa::Buffer;
use std::alloc::{AllocError, Global};
use trick_base::{Items, Word};
use trick_lang::{JobId, Program};
use trick_model::{Plan, push_job_name};

// The name and the instance of a job, each with a space after it.
fn job_text(alloc: Global, program: &Program, job: JobId) -> Result<Word, AllocError>
    requires { job.0 < length program.now.jobs }
    ensures { IfOk result (λ text. text ≡ job_text_of
        (job_name program.now.objects program.now.methods (job_at program.now.jobs job.0))
        (job_at program.now.jobs job.0).instance) }
{
    let instance = program.jobs.as_slice()[job.0 as usize].instance;
    let mut text = Vec::new(alloc);
    push_job_name(&mut text, program, job)?;
    text.extend_from_slice(b" ")?;
    text.extend_from_slice(Buffer::new().format(instance).as_bytes())?;
    text.extend_from_slice(b" ")?;
    Ok(Items::from_vec(text))
}

/// The jobs of a plan, as they stand in faults.
pub(crate) fn job_texts(alloc: Global, plan: &Plan) -> Result<Vec<Word>, AllocError>
    ensures { IfOk result (λ texts. texts.items ≡ job_texts_of plan.now) }
{
    let mut texts = Vec::new(alloc);
    for place in 0..plan.program.jobs.len() {
        let job = JobId(place as u32);
        texts.push(job_text(alloc, &plan.program, job)?)?;
    }
    Ok(texts)
}

/// The bytes of words.
pub(crate) fn slices<'a>(alloc: Global, words: &'a [Word]) -> Result<Vec<&'a [u8]>, AllocError>
    ensures { IfOk result (λ found. bytes_of found.items ≡ words.now) }
{
    let mut found = Vec::new(alloc);
    for word in words {
        found.push(word.as_slice())?;
    }
    Ok(found)
}
