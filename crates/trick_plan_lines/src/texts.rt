//! What the texts of lines read as.

ghost use Rattle.std.specs.Prelude.{◌≡◌, ◌≢◌, IfOk, None, option_map};
ghost use Rattle.trick_command.specs.Answers.{actions_in};
ghost use Rattle.trick_lang.specs.Syntax.{expression_of};
ghost use Rattle.trick_plan_lines.specs.Texts.{AreTexts, IsConditionOf, texts_in};

use std::alloc::{AllocError, Global};
use trick_base::{Items, Word};
use trick_body::BodyFault;
use trick_command::ActionFault;
use trick_input::{Form, TextForm};
use trick_lang::syntax::Expr;
use trick_model::Action;
use trick_plan_variables::SpelledDeclaration;

// The declaration and the condition of a line, where it has them and they read.
#[derive(Drop)]
pub(crate) struct ReadTexts {
    pub declaration: Option<SpelledDeclaration>,
    pub condition: Option<Expr>,
}

// The actions of a text.
pub(crate) fn actions_of(alloc: Global, text: &Word) -> Result<Option<Items<Action>>, AllocError>
    ensures { IfOk result (λ actions. actions ≡ actions_in text.now) }
{
    match trick_command::actions(alloc, text.as_slice()) {
        Ok(actions) => Ok(Some(Items::from_vec(actions))),
        Err(ActionFault::BadAction) => Ok(None),
        Err(ActionFault::OutOfMemory) => Err(AllocError),
    }
}

// A text that is refused is no condition.
fn no_condition(fault: BodyFault) -> Result<Option<Expr>, AllocError>
    ensures { IfOk result (λ condition. (condition ≡ None) × (fault ≢ BodyFault.OutOfMemory)) }
{
    match fault {
        BodyFault::OutOfMemory => Err(AllocError),
        _ => Ok(None),
    }
}

// The condition that a text is.
fn condition_of(alloc: Global, text: &Word) -> Result<Option<Expr>, AllocError>
    ensures { IfOk result (λ condition. IsConditionOf text.now (option_map expression_of condition)) }
{
    trick_body::laws::conditions_are_exact();
    trick_text::laws::one_cut();
    match trick_body::condition(alloc, text.as_slice()) {
        Ok(condition) => Ok(Some(condition)),
        Err(fault) => no_condition(fault),
    }
}

// What the text of a line reads as.
pub(crate) fn texts_of(alloc: Global, form: &Form) -> Result<ReadTexts, AllocError>
    ensures { IfOk result (λ texts. AreTexts form.now (texts_in texts)) }
{
    match form {
        Form::Declare { declaration } => Ok(ReadTexts {
            declaration: SpelledDeclaration::read(alloc, declaration.as_slice())?,
            condition: None,
        }),
        Form::Text(TextForm::SetCondition { condition, .. }) => Ok(ReadTexts {
            declaration: None,
            condition: condition_of(alloc, condition)?,
        }),
        _ => Ok(ReadTexts {
            declaration: None,
            condition: None,
        }),
    }
}
