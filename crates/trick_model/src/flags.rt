ghost use Rattle.std.specs.Prelude.{◌≡◌};
ghost use Rattle.trick_model.specs.Events.{with_flag};
ghost use Rattle.trick_model.specs.Plan.{is_on as is_on_of};

use trick_base::Items;

/// One truth value for each job, event or group, by number.
#[derive(Debug, Drop)]
pub struct Flags {
    pub on: Items<bool>,
}

impl Flags {
    /// Whether the entry of a number is on. Past the last entry none is.
    pub fn is_on(&self, number: usize) -> bool
        ensures { result ≡ is_on_of self.now number }
    {
        match self.on.as_slice().get(number) {
            Some(on) => *on,
            None => false,
        }
    }

    /// Turns the entry of a number on or off. Past the last entry there is none to turn.
    pub fn turn(&mut self, number: usize, on: bool)
        ensures { self.new ≡ with_flag self.old number on }
    {
        if number < self.on.len() {
            self.on.set(number, on);
        }
    }
}
