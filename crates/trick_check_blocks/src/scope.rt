use trick_check_names::{Layout, Names};

/// What a body of a class sees of its file.
#[derive(Drop)]
pub struct ClassScope {
    /// Where the variables lie.
    pub layout: Layout,
    /// The class of the body, by the number of its definition in the file.
    pub class: u32,
    /// The methods of the class that are made, each with the block of its body.
    pub methods: Names<u32>,
    /// The slot of the body's first local.
    pub slots: u32,
}
