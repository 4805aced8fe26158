/// Which cells of a body are meant.
#[derive(Clone, Copy, Debug)]
pub enum Way {
    Reads,
    Writes,
}
