//! Laws of work beside the tics, for every plan. A function that calls one of them may rest on what it
//! says; the call itself does nothing.

ghost use Rattle.trick_post_work.specs.Laws.{IsPublished};

/// What is published of a frame or a round that was started is what the rules publish.
pub fn started_work_is_published()
    ensures { IsPublished }
{}
