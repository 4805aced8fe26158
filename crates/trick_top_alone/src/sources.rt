//! The texts with which something is done.

ghost use Rattle.std.specs.Prelude.{◌≡◌, option_map};
ghost use Rattle.trick_top_alone.specs.Sources.{contents_of, sources_of};

use trick_base::Items;

/// The texts of the files that a command names: of the two of a simulation, of the checkpoint from which a run goes on,
/// and of the journal under which it runs, each of these two where it is named.
#[derive(Debug, Drop)]
pub struct Contents {
    pub s_define: Items<u8>,
    pub input: Items<u8>,
    pub from: Option<Items<u8>>,
    pub journal: Option<Items<u8>>,
}

/// The same texts, which are lent.
#[derive(Clone, Copy)]
pub struct Sources<'a> {
    pub s_define: &'a [u8],
    pub input: &'a [u8],
    pub from: Option<&'a [u8]>,
    pub journal: Option<&'a [u8]>,
}

/// A text that is lent, where there is one.
fn lent(text: &Option<Items<u8>>) -> Option<&[u8]>
    ensures { option_map (λ text. text.now) result ≡ text.now }
{
    match text {
        Some(text) => Some(text.as_slice()),
        None => None,
    }
}

/// The texts of the files that a command names.
pub fn as_sources(contents: &Contents) -> Sources<'_>
    ensures { sources_of result ≡ contents_of contents.now }
{
    Sources {
        s_define: contents.s_define.as_slice(),
        input: contents.input.as_slice(),
        from: lent(&contents.from),
        journal: lent(&contents.journal),
    }
}
