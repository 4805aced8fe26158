ghost use Rattle.serde_json.specs.Data.{member, no_members, number, object, string, unsigned};
ghost use Rattle.serde_json.specs.View.{view};
ghost use Rattle.std.specs.Prelude.{◌≡◌, IfOk, codes, encode_utf8_all, string_bytes};
ghost use Rattle.trick_memory.specs.Listing.{listing_text, scalar_text};

use serde_json::{Value, json};
use std::alloc::{AllocError, Global};
use trick_base::Word;
use trick_lang::Scalar;
use trick_model::Plan;

// A full name as a text.
fn text_of(alloc: Global, name: &Word) -> Result<String, AllocError>
    ensures { IfOk result (λ text. string_bytes text ≡ encode_utf8_all name.now) }
{
    let mut text = String::new(alloc);
    for byte in name.as_slice() {
        text.push(char::from(*byte))?;
    }
    Ok(text)
}

// A type as a simulation definition writes it.
fn scalar_name(scalar: Scalar) -> &'static str
    ensures { result.now ≡ scalar_text scalar }
{
    match scalar {
        Scalar::Bool => "bool",
        Scalar::Char => "char",
        Scalar::UChar => "unsigned char",
        Scalar::Short => "short",
        Scalar::UShort => "unsigned short",
        Scalar::Int => "int",
        Scalar::UInt => "unsigned int",
        Scalar::Long => "long",
    }
}

// One cell.
fn entry(alloc: Global, cell: u64, name: &str, kind: &str) -> Result<Value, AllocError>
    ensures { IfOk result (λ value. view value ≡ object
        (member (codes "cell") (number (unsigned cell))
        (member (codes "name") (string name.now)
        (member (codes "type") (string kind.now) no_members)))) }
{
    json!(in alloc; {"cell": cell, "name": name, "type": kind})
}

/// The cells of a plan as JSON: a list of objects with `cell`, `name` and `type`, without white
/// space, in the order of the cells. FORMATS.md has its rules.
pub fn listing(alloc: Global, plan: &Plan) -> Result<Vec<u8>, AllocError>
    ensures { IfOk result (λ bytes. bytes.items ≡ listing_text plan.now.program.cells) }
{
    let mut entries = Vec::new(alloc);
    for variable in plan.program.cells.as_slice() {
        let name = text_of(alloc, &variable.name)?;
        let cell = entries.len() as u64;
        let entry = entry(alloc, cell, name.as_str(), scalar_name(variable.scalar))?;
        entries.push(entry)?;
    }
    Value::Array(entries).to_vec(alloc)
}
