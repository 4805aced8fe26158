ghost use Rattle.std.specs.Prelude.{◌≡◌};
ghost use Rattle.trick_check_names.specs.Names.{meaning_of};
ghost use Rattle.trick_check_names.specs.Places.{members_at, own_member};

use crate::{Global, Member, Names, Tables};
use trick_base::Word;

/// What a walk over a file knows where it has come to.
#[derive(Drop)]
pub struct FileScope {
    /// What the whole file declares.
    pub tables: Tables,
    /// The names so far.
    pub names: Names<Global>,
    /// The number of the definition, which of a body is that of its class.
    pub own: usize,
}

impl FileScope {
    /// What a name is in a struct or class.
    pub fn member(&self, group: usize, name: &Word) -> Option<Member>
        ensures { result ≡ meaning_of name.now (members_at self.now.tables.groups group) }
    {
        let groups = self.tables.groups.as_slice();
        if group >= groups.len() {
            return None;
        }
        groups[group].meaning(name)
    }

    /// What a name is in the class of the body.
    pub fn own(&self, name: &Word) -> Option<Member>
        ensures { result ≡ own_member name.now self.now }
    {
        self.member(self.own, name)
    }

    /// What a name of the file stands for, wherever it is declared.
    pub fn global(&self, name: &Word) -> Option<Global>
        ensures { result ≡ meaning_of name.now self.now.tables.names }
    {
        self.tables.names.meaning(name)
    }
}
